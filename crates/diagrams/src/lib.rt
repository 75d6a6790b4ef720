// Diagrams: tables of nodes, the sets that their numbers stand for, and the rule of work.
#![tactic(auto)]

ghost use Rattle.std.specs.Prelude.{◌≡◌};

mod heights;
mod theorems;

pub use heights::level;
use orders::Order;
pub use theorems::{
    answers_stand, bounds_stand, canonicity_stands, counts_stand, examples_stand, extension_stands,
    levels_stand, sets_stand, single_stands, triples_stand, work_stands,
};

// A node of the table. Number 0 is the empty set, 1 the set of the standing order alone, and i + 2 the node at i.
#[derive(Clone, Copy)]
pub struct Node {
    pub x: u8,
    pub y: u8,
    pub lo: u32,
    pub hi: u32,
    pub orders: u64,
}

// What tells a node from every other: the pair that it branches at, and the numbers of its lower and its upper part.
#[derive(Clone, Copy, PartialEq, Eq)]
pub struct Branch {
    pub x: u8,
    pub y: u8,
    pub lo: u32,
    pub hi: u32,
}

impl Node {
    // The node without the count of its orders.
    pub fn branch(self) -> Branch
        ensures { result ≡ record { x = self.x; y = self.y; lo = self.lo; hi = self.hi } }
    {
        let Node { x, y, lo, hi, .. } = self;
        Branch { x, y, lo, hi }
    }
}

// A piece of work on the numbers of a table.
#[derive(Clone, Copy)]
pub enum Task {
    // the orders of either
    Join(u32, u32),
    // the orders of both
    Meet(u32, u32),
    // the orders of the first that the second has not
    Without(u32, u32),
    // the orders of the first, each followed by the order
    Carry(u32, Order),
    // each order of the first followed by each of the second
    Follow(u32, u32),
    // the orders with the piece in the place
    Pick(u32, u8, u8),
}
