// Caches: what remembers answers to questions, and may forget them.
#![tactic(auto)]

ghost use Rattle.std.specs.Prelude.{◌≡◌, ℕ, ◌≤◌};
ghost use Rattle.caches.specs.Recall.{Recalls, Told, Emptied};

mod blank;
mod slots;

pub use blank::Blank;
pub use slots::Slots;

// A question: what kind of work, on which two numbers.
#[derive(Clone, Copy, PartialEq, Eq)]
pub struct Triple {
    // Any byte: a cache knows no kinds of work, and tells questions apart by numbers alone.
    pub kind: u8,
    pub first: u64,
    pub second: u64,
}

// A set of pairs, each a triple and its one answer.
pub trait Cache {
    // Whether the pair just told is sure to be remembered: 1 or 0, and no bool, as the law of `tell` names it.
    const SURE: u8;

    ghost SURE: { ℕ };

    // The answer that is remembered of a kind and two numbers, if any.
    ghost recalls: { Self → Recalls };

    // The remembered answer, or none exactly where there is none.
    fn ask(&self, triple: Triple) -> Option<u32>
        ensures { result ≡ recalls self.now triple.kind triple.first triple.second };

    // Takes note of an answer, or drops what was known of the triple.
    fn tell(&mut self, triple: Triple, answer: u32)
        ensures { Told SURE (recalls self.old) (recalls self.new) triple.kind triple.first triple.second answer };

    // Forgets every pair.
    fn empty(&mut self)
        ensures { Emptied (recalls self.new) };

    ghost flag: { SURE ≤ 1 };
}
