// The nodes of a table, lent.
ghost use Rattle.std.specs.Prelude.{◌≤◌, length};
ghost use Rattle.diagrams.specs.Table.{Sound};

use diagrams::Node;

// Nodes that keep the rules, at most as many as a table has room for. A number is asked for beside its table: a type for both would hold the loan
// of the table while new numbers come.
#[derive(Clone, Copy)]
pub struct Nodes<'a> {
    pub rows: &'a [Node],
    ghost sound: { ∥ Sound rows.now ∥₁ },
    ghost few: { length rows.now ≤ 2046 },
}
