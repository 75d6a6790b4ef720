// Sweeps: a table with the nodes that the pegs of a store reach, and no other (its garbage collection).
#![tactic(auto)]

ghost use Rattle.std.specs.Prelude.{◌≡◌};
ghost use Rattle.tables.specs.Rows.{rows};
ghost use Rattle.sweeps.specs.Reaching.{Pegs};
ghost use Rattle.sweeps.specs.Sweeping.{swept, pegs_after};

use tables::{ROOM, Table};

mod marking;
mod remaking;
mod theorems;

use marking::marked;
use remaking::{Remade, made_again, moved};
pub use theorems::{examples_stand, sweep_stands};

// How many pegs a store has.
pub const PEGS: usize = 64;

// How many numbers a table can have: 0, 1 and those of its nodes. Marks and new numbers stand in two arrays of this length, since all marks are
// set before the first new number is known.
const NUMBERS: usize = ROOM + 2;

// What a sweep leaves: the table, and the pegs with the new numbers of their sets.
#[derive(Drop)]
pub struct Swept {
    pub table: Table,
    pub pegs: [Option<u32>; PEGS],
}

// The table with every node that a peg reaches, numbered from 2 in their former order, and no other.
pub fn sweep(table: &Table, pegs: [Option<u32>; PEGS]) -> Swept
    requires { Pegs (rows table.now) pegs }
    ensures nodes { rows result.table ≡ swept (rows table.now) pegs }
    ensures held { result.pegs ≡ pegs_after (rows table.now) pegs }
{
    let marks = marked(table, pegs);
    let Remade { table, numbers } = made_again(table, &marks);
    Swept {
        table,
        pegs: moved(pegs, &numbers),
    }
}
