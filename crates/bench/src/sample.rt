// A table of nodes that look random, the same at each run.
ghost use Rattle.std.specs.Prelude.{◌<◌};

use diagrams::Branch;
use tables::{ROOM, Table};

// How many nodes are tried: many of them break a rule for nodes.
const TRIES: usize = 200000;

// The upper part of a node is one of so many early numbers, of which enough have a small x.
const EARLY: u64 = 100;

// What the sample is drawn by.
#[derive(Drop)]
struct Dice {
    seed: u64,
}

impl Dice {
    // A number below `n`, by a linear congruential generator.
    fn below(&mut self, n: u64) -> u64
        requires { 0 < n }
        ensures { result < n }
    {
        self.seed = self
            .seed
            .wrapping_mul(6364136223846793005)
            .wrapping_add(1442695040888963407);
        (self.seed >> 33) % n
    }
}

// Makes the node of a branch if it keeps the rules, and there is room.
fn add(table: &mut Table, branch: Branch) {
    if table.may_stand(16, branch) {
        let _ = table.node(ROOM, branch);
    }
}

// Tries one more node.
fn attempt(table: &mut Table, dice: &mut Dice) {
    let x = dice.below(15) as u8 + 2;
    let y = dice.below(u64::from(x) - 1) as u8 + 1;
    let numbers = table.len() as u64 + 2;
    let lo = dice.below(numbers) as u32;
    let hi = dice.below(numbers.min(EARLY)) as u32;
    add(table, Branch { x, y, lo, hi });
}

// Fills a table.
pub fn fill(table: &mut Table) {
    let mut dice = Dice { seed: 1 };
    for _ in 0..TRIES {
        attempt(table, &mut dice);
    }
}
