// The requests, one after another.
ghost use Rattle.std.specs.Prelude.{◌≡◌, IfOk};
ghost use Rattle.catalogue.specs.Agreement.{Agreement};
ghost use Rattle.catalogue.specs.Replays.{Played, Replayed, Alike};

use super::Transcript;
use crate::desk::Desk;
use crate::rack::Rack;
use crate::request::{Answer, Request};
use caches::Cache;
use orders::Chain;
use std::alloc::{AllocError, Global};
use store::{Plan, Store};

impl<G: Chain, C: Cache> Desk<'_, G, C> {
    // Makes the requests in turn. Where memory runs out the store and the rack are still in order.
    fn serve_all(&mut self, heap: Global, requests: &[Request]) -> Result<Vec<Answer>, AllocError>
        ensures lender { self.new.store.ghost_name ≡ self.old.store.ghost_name }
        ensures is { IfOk result (λ answers. Played self.old.store.now requests.now self.new.store.now answers.items) }
    {
        let mut answers = Vec::new(heap);
        for request in requests {
            let answer = self.serve(heap, request)?;
            answers.push(answer)?;
        }
        Ok(answers)
    }
}

// Begins a store, makes the requests of it in turn and gives back every hold. D is any other cache: stores over it agree with this one.
pub fn replay<G: Chain + Drop, C: Cache + Drop, D: Cache>(
    heap: Global,
    plan: Plan,
    chain: G,
    cache: C,
    requests: &[Request],
) -> Result<Transcript<G, C>, AllocError>
    ensures run { IfOk result (Replayed plan requests.now) }
    ensures alike { IfOk result (Alike D.Cache plan requests.now) }
    ensures agreement { Agreement G C D G.Chain C.Cache D.Cache }
{
    let rack = Rack::new(heap)?;
    let mut store = Store::begin(plan, chain, cache);
    let mut desk = Desk::new(&mut store, rack);
    let served = desk.serve_all(heap, requests);
    let Desk { store: lent, rack } = desk;
    rack.give_back(lent);
    Ok(Transcript {
        store,
        answers: served?,
    })
}
