// The cache that remembers nothing.
ghost use Rattle.caches.specs.Recall.{nothing};
ghost use Rattle.std.proofs.Common.{rules};

use super::{Cache, Triple};

#[derive(Clone, Copy)]
pub struct Blank;

impl Cache for Blank {
    const SURE: u8 = 0;

    ghost SURE = { 0 };

    ghost recalls = { λ _ _ _ _. nothing };

    ghost flag = { Prim.search rules };

    fn ask(&self, _triple: Triple) -> Option<u32> {
        None
    }

    fn tell(&mut self, _triple: Triple, _answer: u32) {}

    fn empty(&mut self) {}
}
