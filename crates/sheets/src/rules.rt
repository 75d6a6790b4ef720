// The rules for nodes, asked of a line.
ghost use Rattle.std.specs.Prelude.{◌≡◌, true, false, MatchOption};
ghost use Rattle.tables.specs.Rows.{rows as rows_of};
ghost use Rattle.sheets.specs.Checks.{keeps};
ghost use Rattle.sheets.specs.Reading.{branch_line};

use diagrams::Branch;
use lists::NodeLine;
use tables::Table;

// What a line says of its node, if it keeps the rules after those of the table.
pub(crate) fn branch_of(table: &Table, pieces: u8, line: NodeLine) -> Option<Branch>
    ensures { MatchOption result
        (keeps pieces (rows_of table.now) line ≡ false)
        (λ b. (keeps pieces (rows_of table.now) line ≡ true) × (branch_line b ≡ line)) }
{
    let branch = Branch::try_from(line).ok()?;
    let keeps = table.may_stand(pieces, branch) && table.find(branch).is_none();
    keeps.then_some(branch)
}
