// What the check of a sheet means: each function below has a theorem, and so asks for its proof.
ghost use Rattle.sheets.specs.Theorems.{AcceptedStands, WrittenStands};

// A sheet that is accepted is the sheet of the set that it gives, byte for byte: its lines are a sound table, their visit from the root writes
// just these lines, and orders is the root's count.
pub fn accepted_stands() -> bool
    ensures { AcceptedStands }
{
    true
}

// What was written of a set is accepted by every reader of the chain that has the pieces, with the set's own lines, root and count.
pub fn written_stands() -> bool
    ensures { WrittenStands }
{
    true
}
