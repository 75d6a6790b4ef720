// Holds put into a rack and taken out of it.
ghost use Rattle.std.specs.Prelude.{◌≡◌, ◌<◌, replicate, IfOk, Some, None, MatchOption, slice_index_or, slice_set};
ghost use Rattle.catalogue.specs.Requests.{hold_named};
ghost use Rattle.catalogue.specs.Racks.{slots_of, Lacks, Took};

use super::Rack;
use crate::request::Claim;
use std::alloc::{AllocError, Global};
use store::Hold;
use sweeps::PEGS;

// An empty slot may be let go. A hold cannot, so each case is written out.
fn none_left(slot: Option<Hold>)
    requires { slot ≡ None }
{
    match slot {
        None => {}
        Some(_hold) => unreachable(),
    }
}

impl Rack {
    // A rack with no hold.
    pub(crate) fn new(heap: Global) -> Result<Rack, AllocError>
        ensures { IfOk result (λ k. slots_of k ≡ replicate 64 None) }
    {
        // The room is there before the first push, so a rack half made is never let go.
        let mut slots = Vec::with_capacity(heap, PEGS)?;
        for _ in 0..PEGS {
            match slots.push(None) {
                Ok(()) => {}
                Err(_refused) => unreachable(),
            }
        }
        Ok(Rack { slots })
    }

    // The hold that is claimed, if it is here.
    pub(crate) fn find(&self, claim: Claim) -> Option<&Hold>
        ensures { MatchOption result (Lacks (slots_of self.now) claim) (λ h. (h.now ≡ hold_named claim) × (slice_index_or (slots_of self.now) claim.peg None ≡ Some (hold_named claim))) }
    {
        if claim.peg >= PEGS as u64 {
            return None;
        }
        let hold = self.slots[claim.peg as usize].as_ref()?;
        if u64::from(hold.mark()) != claim.mark || hold.peg() != claim.peg {
            return None;
        }
        Some(hold)
    }

    // The hold that is claimed, if it is here; its slot is then empty.
    pub(crate) fn take(&mut self, claim: Claim) -> Option<Hold>
        ensures { MatchOption result (Lacks (slots_of self.old) claim × (slots_of self.new ≡ slots_of self.old)) (Took (slots_of self.old) (slots_of self.new) claim) }
    {
        if self.find(claim).is_none() {
            return None;
        }
        self.slots[claim.peg as usize].take()
    }

    // A hold goes into an empty slot.
    pub(crate) fn put(&mut self, slot: usize, hold: Hold)
        requires there { slot < 64 }
        requires empty { slice_index_or (slots_of self.old) slot None ≡ None }
        ensures { slots_of self.new ≡ slice_set (slots_of self.old) slot (Some hold) }
    {
        none_left(self.slots[slot].replace(hold));
    }
}
