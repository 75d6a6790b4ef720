// The holds of a rack, given back to their store.
ghost use Rattle.std.specs.Prelude.{◌≡◌, Some, None};
ghost use Rattle.store.specs.Views.{view};
ghost use Rattle.catalogue.specs.Racks.{Racked, slots_of, unpegged};

use super::Rack;
use caches::Cache;
use orders::Chain;
use store::Store;

impl Rack {
    // Gives every hold back, from the last peg to the first. A hold cannot be let go, so each case is written out.
    pub(crate) fn give_back<G: Chain, C: Cache>(self, store: &mut Store<G, C>)
        requires { Racked (view store.old) (slots_of self) }
        ensures { view store.new ≡ unpegged (view store.old) }
    {
        let Rack { slots } = self;
        let mut rest = slots;
        while let Some(slot) = rest.pop() {
            match slot {
                Some(hold) => store.give_back(hold),
                None => {}
            }
        }
        rest.destroy_empty();
    }
}
