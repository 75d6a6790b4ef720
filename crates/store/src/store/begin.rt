// A store is begun.
ghost use Rattle.std.specs.Prelude.{◌≡◌};
ghost use Rattle.store.specs.Views.{view};
ghost use Rattle.store.specs.Steps.{handle_of};
ghost use Rattle.store.specs.Does.{Begun};

use super::Store;
use crate::plan::Plan;
use crate::shapes::Handle;
use caches::Cache;
use engine::Engine;
use orders::Chain;
use sweeps::PEGS;

impl<G: Chain, C: Cache> Store<G, C> {
    // A store with no node, from a tested plan, a chain and a cache. The cache is emptied first.
    pub fn begin(plan: Plan, chain: G, cache: C) -> Store<G, C>
        ensures { Begun plan result }
    {
        Store {
            plan,
            season: plan.season(),
            pegs: [None; PEGS],
            engine: Engine::new(plan.room(), chain, cache),
        }
    }

    // The handle of a number.
    pub(super) fn handle(&self, number: u32) -> Handle
        ensures { result ≡ handle_of (view self.now) number }
    {
        Handle {
            season: self.season,
            number,
        }
    }

    // The empty set.
    pub fn empty_set(&self) -> Handle
        ensures { result ≡ handle_of (view self.now) 0 }
    {
        self.handle(0)
    }

    // The set of the standing order alone.
    pub fn standing_set(&self) -> Handle
        ensures { result ≡ handle_of (view self.now) 1 }
    {
        self.handle(1)
    }
}
