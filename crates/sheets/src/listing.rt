// The node lines of a set, in the order of the visit.
ghost use Rattle.std.specs.Prelude.{◌≡◌, ◌+◌, ◌<◌, ◌≤◌, length};
ghost use Rattle.lists.specs.Items.{items_of, room_of};
ghost use Rattle.diagrams.specs.Table.{Exists};
ghost use Rattle.forms.specs.Marks.{taken, line_by};
ghost use Rattle.forms.specs.Walks.{sheet_of};
ghost use Rattle.sheets.specs.Reading.{Lent};

use super::nodes::Nodes;
use super::visit::numbered;
use lists::{Filled, NodeLine};

// What a list of numbers gives to the number `k`: 0 and 1 keep theirs, and what is beyond the list gets 0. The definition gives the empty set
// there; a checked sheet never asks it.
pub fn number_of(numbers: &[u32], k: u64) -> u32
    ensures { result ≡ taken numbers.now k }
{
    match k {
        0 => 0,
        1 => 1,
        _ => numbers.get(k as usize - 2).copied().unwrap_or(0),
    }
}

// The line of a node, by the marks of its parts.
fn line_of(nodes: Nodes, marks: &[u32], n: u32) -> NodeLine
    requires node { 2 ≤ n }
    requires within { Exists nodes.rows.now n }
    ensures { result ≡ line_by nodes.entry.rows.now marks.now n }
{
    let node = nodes.rows[n as usize - 2];
    NodeLine {
        x: u64::from(node.x),
        y: u64::from(node.y),
        lo: u64::from(number_of(marks, u64::from(node.lo))),
        hi: u64::from(number_of(marks, u64::from(node.hi))),
    }
}

// Fills the list, which is emptied first, with the lines of the set of `root`.
pub fn list_lines(nodes: Nodes, root: u32, lines: &mut Filled<NodeLine>)
    requires within { Exists nodes.rows.now root }
    requires room { 2046 ≤ length (room_of lines.old) }
    ensures items { items_of lines.new ≡ (sheet_of nodes.entry.rows.now root).lines }
    ensures lent { Lent lines.old lines.new }
{
    lines.clear();
    let visit = numbered(nodes, root);
    let marks = &visit.marks;
    for n in &visit.order[..visit.count] {
        lines.add(line_of(nodes, marks, *n)).unwrap();
    }
}
