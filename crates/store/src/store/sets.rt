// The calls that work out a set. Each is `work` of its own call; they stand beside it because members know them by name.
ghost use Rattle.store.specs.Does.{WorksOut};

use super::Store;
use crate::shapes::{Handle, SetCall};
use caches::Cache;
use engine::Found;
use orders::{Chain, Order, Refusal};

impl<G: Chain, C: Cache> Store<G, C> {
    // A call that works out a set: its questions, then the rule of work with the cache.
    pub fn work(&mut self, call: SetCall<Handle, u8>) -> Result<Found<Handle>, Refusal>
        ensures { WorksOut self.old call self.new result }
    {
        let task = self.task_of(call)?;
        let found = self.engine.solve(task)?;
        Ok(Found {
            set: self.handle(found.set),
            entries: found.entries,
        })
    }

    // The set of one order.
    pub fn single(&mut self, order: Order) -> Result<Found<Handle>, Refusal>
        ensures { WorksOut self.old (SetCall.Single order) self.new result }
    {
        self.work(SetCall::Single(order))
    }

    // The orders of either set (union).
    pub fn join(&mut self, a: Handle, b: Handle) -> Result<Found<Handle>, Refusal>
        ensures { WorksOut self.old (SetCall.Join a b) self.new result }
    {
        self.work(SetCall::Join(a, b))
    }

    // The orders of both sets (intersection).
    pub fn meet(&mut self, a: Handle, b: Handle) -> Result<Found<Handle>, Refusal>
        ensures { WorksOut self.old (SetCall.Meet a b) self.new result }
    {
        self.work(SetCall::Meet(a, b))
    }

    // The orders of the first set that the second has not (difference).
    pub fn without(&mut self, a: Handle, b: Handle) -> Result<Found<Handle>, Refusal>
        ensures { WorksOut self.old (SetCall.Without a b) self.new result }
    {
        self.work(SetCall::Without(a, b))
    }

    // The orders of the set, each followed by the order (right translate).
    pub fn carry(&mut self, a: Handle, order: Order) -> Result<Found<Handle>, Refusal>
        ensures { WorksOut self.old (SetCall.Carry a order) self.new result }
    {
        self.work(SetCall::Carry(a, order))
    }

    // Each order of the first set followed by each of the second (product).
    pub fn follow(&mut self, a: Handle, b: Handle) -> Result<Found<Handle>, Refusal>
        ensures { WorksOut self.old (SetCall.Follow a b) self.new result }
    {
        self.work(SetCall::Follow(a, b))
    }

    // The orders of the set that have the piece in the place.
    pub fn pick(&mut self, a: Handle, piece: u8, place: u8) -> Result<Found<Handle>, Refusal>
        ensures { WorksOut self.old (SetCall.Pick a piece place) self.new result }
    {
        self.work(SetCall::Pick(a, piece, place))
    }
}
