// Forms: what a diagram is apart from its numbers, and the sheet that is written of it. Each function below has a theorem, in words of
// orders, nodes and lines, and so asks for its proof.
#![tactic(auto)]

ghost use Rattle.forms.specs.Theorems.{FormStands, SheetStands, SheetFormStands, VisitStands, MarksStand, ReadStands, TableStands, OwnStands, PlacingStands, ExampleStands};

// One set, one form: two numbers of one table or of two have the same unfolded diagram exactly when they stand for the same orders.
pub fn form_stands() -> bool
    ensures { FormStands }
{
    true
}

// One set, one sheet: two numbers of one table or of two have the same root and lines exactly when they stand for the same orders. So a sheet
// depends on the set alone, and not on the table that it was written from.
pub fn sheet_stands() -> bool
    ensures { SheetStands }
{
    true
}

// The sheet of a number is the sheet of its form, and read back it is that form. A longer table gives the same sheet. The visit has the nodes
// of the set and no others, parts before what they are parts of, each once.
pub fn sheet_form_stands() -> bool
    ensures { SheetFormStands }
{
    true
}

// The visit of a form has every node within it and no other, each after its parts and once, and the form itself last.
pub fn visit_stands() -> bool
    ensures { VisitStands }
{
    true
}

// A recursive numbering with one mark for each node of the table is the visit, and its marks give the sheet's lines.
pub fn marks_stand() -> bool
    ensures { MarksStand }
{
    true
}

// A table that has the lines of a sheet has the sheet's form under the root's number; and what it would write of that is the sheet again.
pub fn read_stands() -> bool
    ensures { ReadStands }
{
    true
}

// The lines of a written sheet, with the counts of their orders, are a sound table: each keeps the rules for nodes, and no two are equal. It
// gives the same sheet.
pub fn table_stands() -> bool
    ensures { TableStands }
{
    true
}

// The visit from the last node of a sound table gives each node its own number exactly when the nodes, as they stand, are a sheet.
pub fn own_stands() -> bool
    ensures { OwnStands }
{
    true
}

// A sheet is entered line by line: at first no line has a place, and a line that is found or made in a longer table is one more.
pub fn placing_stands() -> bool
    ensures { PlacingStands }
{
    true
}

// A table of four nodes, of which one is not reached and one is shared, has the sheet of three lines that is worked out by hand.
pub fn example_stands() -> bool
    ensures { ExampleStands }
{
    true
}
