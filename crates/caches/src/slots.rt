// The cache of 512 slots, each with the last pair that fell on it (a direct-mapped cache).
ghost use Rattle.std.specs.Prelude.{◌≡◌, ℕ, ◌<◌};
ghost use Rattle.caches.specs.Recall.{Told, Emptied};
ghost use Rattle.caches.specs.Slotted.{slot_of, held, fallen};
ghost use Rattle.std.proofs.Common.{rules};

use super::{Cache, Triple};
use hashing::stir;

const SIZE: usize = 512;

// What a slot has: a triple and its answer.
#[derive(Clone, Copy)]
pub struct Pair {
    triple: Triple,
    answer: u32,
}

// The slots. A plain struct within, made of the array of empty slots: a cache asks for no memory.
#[derive(Drop)]
pub struct Row {
    pairs: [Option<Pair>; SIZE],
}

#[derive(Drop)]
pub struct Slots {
    row: Row,
}

// The slot of a triple.
fn slot(triple: Triple) -> usize
    ensures within { result < 512 }
    ensures value { result ≡ slot_of triple.kind triple.first triple.second }
{
    let kind = stir::<17>(0, u64::from(triple.kind));
    let mixed = stir::<17>(stir::<17>(kind, triple.first), triple.second);
    mixed as usize % SIZE
}

impl Slots {
    // Slots that are all empty.
    pub fn new() -> Slots
        ensures { Emptied (held result) }
    {
        Slots {
            row: Row {
                pairs: [None; SIZE],
            },
        }
    }
}

impl Cache for Slots {
    const SURE: u8 = 1;

    ghost SURE = { 1 };

    ghost recalls = { held };

    ghost flag = { Prim.search rules };

    fn ask(&self, triple: Triple) -> Option<u32> {
        let found = self.row.pairs[slot(triple)];
        match found {
            Some(pair) if pair.triple == triple => Some(pair.answer),
            _ => None,
        }
    }

    // Besides: what falls on another slot stays.
    fn tell(&mut self, triple: Triple, answer: u32)
        ensures told { Told 1 (held self.old) (held self.new) triple.kind triple.first triple.second answer }
        ensures slots { (k a b : ℕ) → held self.new k a b ≡ fallen (held self.old) triple answer k a b }
    {
        let at = slot(triple);
        self.row.pairs[at] = Some(Pair { triple, answer });
    }

    fn empty(&mut self) {
        self.row.pairs = [None; SIZE];
    }
}
