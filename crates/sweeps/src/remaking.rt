// The marked nodes of a table, made again in a fresh one.
ghost use Rattle.std.specs.Prelude.{◌≡◌, ℕ, ◌<◌, map, length, replicate, Some, slice_index, slice_index_or, slice_set};
ghost use Rattle.tables.specs.Rows.{rows};
ghost use Rattle.sweeps.specs.Reaching.{empty};
ghost use Rattle.sweeps.specs.Sweeping.{on_peg};
ghost use Rattle.sweeps.specs.Marks.{test, Closed, Remaking};

use crate::{NUMBERS, PEGS};
use diagrams::Branch;
use tables::{ROOM, Table};

// A table made again, and the new number of each number that was marked.
#[derive(Drop)]
pub struct Remade {
    pub table: Table,
    pub numbers: [u32; NUMBERS],
}

// The new numbers before any node is made: 0 and 1 keep theirs.
fn ends() -> [u32; NUMBERS]
    ensures { result ≡ slice_set (replicate 2048 0) 1 1 }
{
    let mut numbers = [0; NUMBERS];
    numbers[1] = 1;
    numbers
}

// All marked nodes made again, in their order. There is room, since no more nodes are made than there were.
pub fn made_again(table: &Table, marks: &[bool; NUMBERS]) -> Remade
    requires { Closed (test marks.now) (rows table.now) }
    ensures { Remaking (rows table.now) (test marks.now) (length (rows table.now)) (rows result.table) result.numbers }
{
    let mut fresh = Table::new();
    // What is not marked is never looked up, so its 0 is never read.
    let mut numbers = ends();
    for (i, node) in table.nodes().iter().enumerate() {
        if marks[i + 2] {
            let lo = numbers[node.lo as usize];
            let hi = numbers[node.hi as usize];
            let branch = Branch {
                x: node.x,
                y: node.y,
                lo,
                hi,
            };
            let new = fresh.node(ROOM, branch).unwrap();
            numbers[i + 2] = new;
        }
    }
    Remade {
        table: fresh,
        numbers,
    }
}

// The pegs with the new numbers of their sets.
pub fn moved(pegs: [Option<u32>; PEGS], numbers: &[u32; NUMBERS]) -> [Option<u32>; PEGS]
    requires { (p n : ℕ) → slice_index_or pegs p empty ≡ Some n → n < 2048 }
    ensures { result ≡ map (on_peg (λ n. slice_index numbers.now n)) pegs }
{
    // Not `pegs.map(..)`: tried, and no proof of what `map` asks at each turn.
    let mut after = pegs;
    for peg in &mut after {
        *peg = peg.map(|number| numbers[number as usize]);
    }
    after
}
