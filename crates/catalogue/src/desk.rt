// A store, and the holds on it that a list of requests has in hand.
ghost use Rattle.std.specs.Prelude.{◌≡◌};
ghost use Rattle.store.specs.Views.{view};
ghost use Rattle.catalogue.specs.Racks.{Racked, slots_of};

use super::rack::Rack;
use caches::Cache;
use orders::Chain;
use store::Store;

mod serving;
mod sheet;

// The store is lent, since it is too large to be moved about. The rack has every hold that it gave and that was not given back, and no other.
pub(crate) struct Desk<'s, G: Chain, C: Cache> {
    pub(crate) store: &'s mut Store<G, C>,
    pub(crate) rack: Rack,
    ghost racked: { ∥ Racked (view store.now) (slots_of rack) ∥₁ },
}

impl<'s, G: Chain, C: Cache> Desk<'s, G, C> {
    // A desk for a store, with its holds.
    pub(crate) fn new(store: &'s mut Store<G, C>, rack: Rack) -> Desk<'s, G, C>
        requires { Racked (view store.old) (slots_of rack) }
        ensures lender { result.store.ghost_name ≡ store.entry.ghost_name }
        ensures is { result.store.now ≡ store.old }
    {
        Desk { store, rack }
    }
}
