// The numbers that a visit gives.
ghost use Rattle.std.specs.Prelude.{◌≡◌, ◌+◌, length};
ghost use Rattle.forms.specs.Marks.{zeros};

use super::nodes::Nodes;
use tables::ROOM;

// A mark for each node, 0 where the visit did not come, and the nodes' numbers in its order. 0 is no node's number, and the theory of marks counts
// the zeros, so the marks are no Options. The library keeps fixed memory, so the order is an array of which the first `count` are meant.
#[derive(Clone, Copy)]
pub struct Numbering {
    pub marks: [u32; ROOM],
    pub order: [u32; ROOM],
    pub count: usize,
    ghost marked: { length marks ≡ 2046 },
    ghost ordered: { length order ≡ 2046 },
    ghost left: { zeros marks + count ≡ 2046 },
}

impl Numbering {
    ghost use Rattle.std.specs.Prelude.{ℕ, ◌<◌, ◌≤◌, slice_index};
    ghost use Rattle.diagrams.specs.Table.{Exists};
    ghost use Rattle.forms.specs.Marks.{mark, unmarked};
    ghost use Rattle.sheets.specs.Visits.{marks_in};

    // No node has a number yet.
    pub(crate) fn none() -> Numbering
        ensures { marks_in result ≡ unmarked 2046 }
    {
        Numbering {
            marks: [0; ROOM],
            order: [0; ROOM],
            count: 0,
        }
    }

    // Numbers what `n` reaches and has no number yet: lower branch, upper branch, then the node itself. It calls itself over the node table, a
    // rule of this project, and the number falls at each call.
    pub(crate) fn visit(&mut self, nodes: Nodes, n: u32)
        requires { Exists nodes.rows.now n }
        ensures is { (d : ℕ) → n < d → mark d nodes.entry.rows.now n (marks_in self.old) ≡ marks_in self.new }
        ensures above { (k : ℕ) → n ≤ k + 1 → slice_index self.new.marks k ≡ slice_index self.old.marks k }
    {
        if n < 2 {
            return;
        }
        let place = n as usize - 2;
        if self.marks[place] != 0 {
            return;
        }
        let node = nodes.rows[place];
        self.visit(nodes, node.lo);
        self.visit(nodes, node.hi);
        self.marks[place] = self.count as u32 + 2;
        self.order[self.count] = n;
        self.count += 1;
    }
}
