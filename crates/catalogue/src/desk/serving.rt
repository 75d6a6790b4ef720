// One request, made of the store at a desk.
ghost use Rattle.std.specs.Prelude.{◌≡◌, IfOk};
ghost use Rattle.diagrams.specs.Table.{count_of};
ghost use Rattle.numbering.specs.Numbered.{order_at, place_of};
ghost use Rattle.store.specs.Views.{view};
ghost use Rattle.store.specs.Questions.{answered, or_else, or_past, handle_asked, order_asked};
ghost use Rattle.store.specs.Steps.{handle_held};
ghost use Rattle.catalogue.specs.Requests.{handle_named, hold_named};
ghost use Rattle.catalogue.specs.Serves.{Serves, Works, Holds, Releases};

use super::Desk;
use super::sheet::sheet;
use crate::naming::set_call;
use crate::request::{Answer, Asked, Claim, Name, Request};
use caches::Cache;
use deposits::read;
use orders::{Chain, Order, Refusal};
use std::alloc::{AllocError, Global};
use store::{Found, Handle};

impl<G: Chain, C: Cache> Desk<'_, G, C> {
    // Works out a set.
    fn work(&mut self, asked: Asked) -> Result<Found<Handle>, Refusal>
        ensures lender { self.new.store.ghost_name ≡ self.old.store.ghost_name }
        ensures is { Works self.old.store.now asked self.new.store.now result }
    {
        let call = set_call(self.store, asked)?;
        self.store.work(call)
    }

    // Puts a set on a peg, and the hold into the rack.
    fn hold(&mut self, name: Name, peg: u64) -> Result<Claim, Refusal>
        ensures lender { self.new.store.ghost_name ≡ self.old.store.ghost_name }
        ensures is { Holds self.old.store.now name peg self.new.store.now result }
    {
        let handle = name.known(self.store)?;
        let hold = self.store.hold(handle, peg)?;
        let claim = Claim {
            mark: u64::from(hold.mark()),
            peg: hold.peg(),
        };
        self.rack.put(peg as usize, hold);
        Ok(claim)
    }

    // Gives back a hold that the rack has; any other is declined.
    fn release(&mut self, claim: Claim) -> Result<(), (Refusal, Claim)>
        ensures lender { self.new.store.ghost_name ≡ self.old.store.ghost_name }
        ensures is { Releases self.old.store.now claim self.new.store.now result }
    {
        let hold = self.rack.take(claim).ok_or((Refusal::NoSuchHold, claim))?;
        self.store.give_back(hold);
        Ok(())
    }

    // The handle of the set that a hold of the rack keeps; any other hold is declined.
    fn held(&self, claim: Claim) -> Result<Handle, Refusal>
        ensures { result ≡ handle_held (view self.now.store.now) (hold_named claim) }
    {
        let hold = self.rack.find(claim).ok_or(Refusal::NoSuchHold)?;
        self.store.held(hold)
    }

    // How many orders a set has.
    fn count(&self, name: Name) -> Result<u64, Refusal>
        ensures { result ≡ answered (handle_asked (view self.now.store.now) (handle_named name)) (count_of (view self.now.store.now).nodes name.number) }
    {
        self.store.count(name.known(self.store)?)
    }

    // The order of a set with a number.
    fn fetch(&self, name: Name, k: u64) -> Result<Order, Refusal>
        ensures { result ≡ or_past (handle_asked (view self.now.store.now) (handle_named name)) (order_at G.table (view self.now.store.now).nodes name.number k) }
    {
        self.store.order_at(name.known(self.store)?, k)
    }

    // The number of an order in a set.
    fn place(&self, name: Name, order: Order) -> Result<Option<u64>, Refusal>
        ensures { result ≡ answered (or_else (handle_asked (view self.now.store.now) (handle_named name)) (order_asked (view self.now.store.now) order)) (place_of G.table (view self.now.store.now).nodes name.number order) }
    {
        self.store.place_of(name.known(self.store)?, order)
    }

    // One request of a list. Only a sheet that is written wants memory.
    pub(crate) fn serve(&mut self, heap: Global, request: &Request) -> Result<Answer, AllocError>
        ensures lender { self.new.store.ghost_name ≡ self.old.store.ghost_name }
        ensures is { IfOk result (Serves self.old.store.now request.now self.new.store.now) }
    {
        match request {
            Request::Work(asked) => Ok(Answer::Worked(self.work(*asked))),
            Request::Add(line) => Ok(Answer::Added(self.store.add(*line))),
            Request::Hold(name, peg) => Ok(Answer::Held(self.hold(*name, *peg))),
            Request::Release(claim) => Ok(Answer::Released(self.release(*claim))),
            Request::Sweep => Ok(Answer::Swept(self.store.sweep())),
            Request::Read(text) => Ok(Answer::Read(read(self.store, text.as_slice()))),
            Request::Len => Ok(Answer::Standing(self.store.len())),
            Request::Count(name) => Ok(Answer::Counted(self.count(*name))),
            Request::Fetch(name, k) => Ok(Answer::Fetched(self.fetch(*name, *k))),
            Request::Place(name, order) => Ok(Answer::Placed(self.place(*name, *order))),
            Request::Held(claim) => Ok(Answer::Handled(self.held(*claim))),
            Request::Write(name) => Ok(Answer::Written(sheet(heap, self.store, *name)?)),
        }
    }
}
