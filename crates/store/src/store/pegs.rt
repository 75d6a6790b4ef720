// Sets that are held on pegs.
ghost use Rattle.std.specs.Prelude.{◌≡◌, IfOk};
ghost use Rattle.store.specs.Views.{view};
ghost use Rattle.store.specs.Questions.{answered, peg_asked, held_on};
ghost use Rattle.store.specs.Steps.{holds, releases, released, handle_held};
ghost use Rattle.store.specs.Does.{Does, hold_reply, release_reply};
ghost use Rattle.store.specs.Holding.{Holds};

use super::Store;
use crate::hold::{Hold, Returned};
use crate::shapes::Handle;
use caches::Cache;
use orders::{Chain, Refusal};
use sweeps::PEGS;

impl<G: Chain, C: Cache> Store<G, C> {
    // Whether something can be put on a peg: there is such a peg, and it is empty.
    fn is_free(&self, peg: u64) -> Result<(), Refusal>
        ensures { result ≡ answered (peg_asked (view self.now) peg) tt }
    {
        if peg >= PEGS as u64 {
            return Err(Refusal::NoSuchPeg);
        }
        if self.pegs[peg as usize].is_some() {
            return Err(Refusal::PegFilled);
        }
        Ok(())
    }

    // Puts a set on an empty peg, and gives the hold on it.
    pub fn hold(&mut self, handle: Handle, peg: u64) -> Result<Hold, Refusal>
        ensures does { Does self.old (holds handle peg) self.new (hold_reply result) 0 }
        ensures given { IfOk result (Holds (view self.new)) }
    {
        let number = self.number_of(handle)?;
        self.is_free(peg)?;
        self.pegs[peg as usize] = Some(number);
        Ok(Hold {
            mark: self.plan.mark(),
            peg,
        })
    }

    // The number of the set on the peg of a hold, which has the store's mark.
    fn held_number(&self, hold: &Hold) -> Result<u32, Refusal>
        ensures { result ≡ held_on (view self.now) hold.now.mark hold.now.peg }
    {
        let (mark, peg) = (hold.mark, hold.peg);
        if mark != self.plan.mark() || peg >= PEGS as u64 {
            return Err(Refusal::NoSuchHold);
        }
        self.pegs[peg as usize].ok_or(Refusal::NoSuchHold)
    }

    // The present handle of the set that a hold keeps.
    pub fn held(&self, hold: &Hold) -> Result<Handle, Refusal>
        ensures { result ≡ handle_held (view self.now) hold.now }
    {
        let number = self.held_number(hold)?;
        Ok(self.handle(number))
    }

    // Takes a hold back and empties its peg. A hold that is declined comes back.
    pub fn release(&mut self, hold: Hold) -> Result<(), Returned>
        ensures { Does self.old (releases hold) self.new (release_reply result) 0 }
    {
        if let Err(refusal) = self.held_number(&hold) {
            return Err(Returned { refusal, hold });
        }
        let peg = hold.spend();
        self.pegs[peg as usize] = None;
        Ok(())
    }

    // Takes back a hold that the store is known to have, which is never declined.
    pub fn give_back(&mut self, hold: Hold)
        requires { Holds (view self.old) hold }
        ensures { Does self.old (releases hold) self.new released 0 }
    {
        match self.release(hold) {
            Ok(()) => {}
            Err(_back) => unreachable(),
        }
    }
}
