// Finding a record, by an equality that tells records apart.
ghost use Rattle.lists.specs.Items.{items_of, Found};

use super::Filled;
use crate::exact::Exact;

impl<'a, R: Exact> Filled<'a, R> {
    // The place of a record, or none exactly where no record is equal to it.
    pub fn find(&self, wanted: &R) -> Option<usize>
        ensures { Found (items_of self.now) wanted.now result }
    {
        self.items().iter().position(|item| item.eq(wanted))
    }
}
