// The visit of a set's nodes: lower branch, upper branch, then the node itself, each once.
ghost use Rattle.std.specs.Prelude.{◌≡◌, ℕ, ◌<◌};
ghost use Rattle.diagrams.specs.Table.{Exists};
ghost use Rattle.forms.specs.Marks.{unmarked, mark, Marked};
ghost use Rattle.sheets.specs.Visits.{marks_in};

use super::nodes::Nodes;
use super::numbering::Numbering;

// The numbers that the visit from `root` gives.
pub fn numbered(nodes: Nodes, root: u32) -> Numbering
    requires { Exists nodes.rows.now root }
    ensures is { (d : ℕ) → root < d → marks_in result ≡ mark d nodes.entry.rows.now root (unmarked 2046) }
    ensures visit { Marked nodes.entry.rows.now root (marks_in result) }
{
    let mut numbering = Numbering::none();
    numbering.visit(nodes, root);
    numbering
}
