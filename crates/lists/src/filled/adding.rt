// Adding records, for records that are copied.
ghost use Rattle.std.specs.Prelude.{◌≡◌};
ghost use Rattle.lists.specs.Items.{Added, Extends};

use super::Filled;
use orders::Refusal;

impl<'a, R: Copy> Filled<'a, R> {
    // Adds a record at the end and answers its place. Refused where there is no room.
    pub fn add(&mut self, item: R) -> Result<usize, Refusal>
        ensures answer { Added self.old self.new item result }
        ensures lender { self.new.room.ghost_name ≡ self.old.room.ghost_name }
    {
        if self.len == self.room.len() {
            return Err(Refusal::NoRoom);
        }
        let place = self.len;
        self.room[place] = item;
        self.len += 1;
        Ok(place)
    }

    // Adds records at the end, all or none. Refused where there is not room for all.
    pub fn extend(&mut self, items: &[R]) -> Result<(), Refusal>
        ensures answer { Extends self.old self.new items.now result }
        ensures lender { self.new.room.ghost_name ≡ self.old.room.ghost_name }
    {
        if self.left() < items.len() {
            return Err(Refusal::NoRoom);
        }
        let end = self.len + items.len();
        self.room[self.len..end].copy_from_slice(items);
        self.len = end;
        Ok(())
    }
}
