// The table with no node, and what is read off a table.
ghost use Rattle.std.specs.Ordering.{nat_cmp};
ghost use Rattle.std.specs.Prelude.{◌≡◌, ℕ, ◌≤◌, List, [], length, Decides};
ghost use Rattle.diagrams.specs.declared.Node.{Node};
ghost use Rattle.diagrams.specs.Table.{Exists, Sound, level_of};
ghost use Rattle.diagrams.specs.Bodies.{row as row_of};
ghost use Rattle.tables.specs.Rows.{rows};

use super::{BUCKETS, ROOM, Table};
use diagrams::{Node, level};
use std::cmp::Ordering;

// The row of the number 0, the empty set.
const ZERO: Node = Node {
    x: 0,
    y: 0,
    lo: 0,
    hi: 0,
    orders: 0,
};

// The row of the number 1, the set of the standing order.
const ONE: Node = Node {
    x: 0,
    y: 0,
    lo: 0,
    hi: 0,
    orders: 1,
};

// The level of a number, of which this is the row: 0 for the numbers 0 and 1.
fn height(row: Node) -> u8
    ensures { (N : List Node) (n : ℕ) → Sound N → Exists N n → row ≡ row_of N n → result ≡ level_of N n }
{
    level(row.x, row.y)
}

impl Table {
    // A table with no node.
    pub fn new() -> Table
        ensures { rows result ≡ [] }
    {
        Table {
            nodes: [ZERO; ROOM],
            len: 0,
            heads: [None; BUCKETS],
            next: [None; ROOM],
        }
    }

    // How many nodes there are.
    pub fn len(&self) -> usize
        ensures is { result ≡ length (rows self.now) }
        ensures within { result ≤ 2046 }
    {
        self.len
    }

    // The nodes, in the order in which they were made.
    pub fn nodes(&self) -> &[Node]
        ensures { result.now ≡ rows self.now }
    {
        &self.nodes[0..self.len]
    }

    // Whether there is such a number: 0, 1 or that of a node.
    pub fn exists(&self, number: u32) -> bool
        ensures { Decides result (Exists (rows self.now) number) }
    {
        (number as usize) < self.len + 2
    }

    // The row of a number: its node, or what stands for one at 0 and 1.
    // That a number exists is asked beside it, here and below: a number goes into tasks and nodes, and outlives the loan of the table.
    pub fn get(&self, number: u32) -> Node
        requires { Exists (rows self.now) number }
        ensures { result ≡ row_of (rows self.now) number }
    {
        match number {
            0 => ZERO,
            1 => ONE,
            _ => self.nodes[number as usize - 2],
        }
    }

    // The level of a number: 0 for the numbers 0 and 1.
    pub fn level_of(&self, number: u32) -> u8
        requires { Exists (rows self.now) number }
        ensures { result ≡ level_of (rows self.now) number }
    {
        height(self.get(number))
    }

    // How the levels of two numbers compare.
    pub fn cmp_levels(&self, a: u32, b: u32) -> Ordering
        requires left { Exists (rows self.now) a }
        requires right { Exists (rows self.now) b }
        ensures { result ≡ nat_cmp (level_of (rows self.now) a) (level_of (rows self.now) b) }
    {
        self.level_of(a).cmp(&self.level_of(b))
    }
}
