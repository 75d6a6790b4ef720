// Marks on the numbers of a table that its pegs reach.
ghost use Rattle.std.specs.Prelude.{◌≡◌, ℕ, ◌<◌, false, true, ◌↔◌, length, Some, slice_index_or};
ghost use Rattle.diagrams.specs.Table.{Exists};
ghost use Rattle.tables.specs.Rows.{rows};
ghost use Rattle.sweeps.specs.Reaching.{empty, Pegged, Pegs, reached};

use crate::{NUMBERS, PEGS};
use tables::Table;

// Marks on the numbers that are on pegs.
fn roots(pegs: [Option<u32>; PEGS]) -> [bool; NUMBERS]
    requires { (p n : ℕ) → slice_index_or pegs p empty ≡ Some n → n < 2048 }
    ensures long { length result ≡ 2048 }
    ensures roots { (n : ℕ) → (slice_index_or result n false ≡ true) ↔ Pegged pegs n }
{
    let mut marks = [false; NUMBERS];
    // Not `pegs.iter().flatten()`: tried, and no proof that what it gives was on a peg.
    for peg in pegs {
        if let Some(number) = peg {
            marks[number as usize] = true;
        }
    }
    marks
}

// Marks on the numbers that are reached: the parts of a node are below it, so one pass from the last node down meets them all.
pub fn marked(table: &Table, pegs: [Option<u32>; PEGS]) -> [bool; NUMBERS]
    requires { Pegs (rows table.now) pegs }
    ensures { (n : ℕ) → Exists (rows table.now) n → slice_index_or result n false ≡ reached (rows table.now) pegs n }
{
    let mut marks = roots(pegs);
    for (i, node) in table.nodes().iter().enumerate().rev() {
        if marks[i + 2] {
            marks[node.lo as usize] = true;
            marks[node.hi as usize] = true;
        }
    }
    marks
}
