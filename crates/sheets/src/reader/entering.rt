// Node lines, one after the other.
ghost use Rattle.std.specs.Prelude.{◌≡◌, ◌+◌, ◌<◌, ◌≤◌, true, [], ◌∷◌, ◌++◌, length};
ghost use Rattle.lists.specs.Items.{items_of, room_of};
ghost use Rattle.tables.specs.Rows.{rows as rows_of};
ghost use Rattle.sheets.specs.Checks.{keeps, rows};
ghost use Rattle.sheets.specs.Gives.{Gives};
ghost use Rattle.sheets.specs.Reading.{branch_line, Stays};

use super::Reader;
use crate::fault::{Fault, Part};
use crate::rules::branch_of;
use crate::texts::{FIRST_LINE, line_array};
use diagrams::Branch;
use lists::NodeLine;
use orders::Refusal;
use tables::ROOM;

impl Reader<'_, '_> {
    // Puts a line that keeps the rules into the table and the list.
    fn enter(&mut self, line: NodeLine, branch: Branch)
        requires keeps { keeps self.old.pieces (rows_of self.old.table) line ≡ true }
        requires branch { branch_line branch ≡ line }
        requires room { length (items_of self.old.lines.now) < 2046 }
        ensures items { items_of self.new.lines.now ≡ items_of self.old.lines.now ++ (line ∷ []) }
        ensures stays { Stays self.old self.new }
    {
        self.table.node(ROOM, branch).unwrap();
        self.lines.add(line).unwrap();
    }

    // One node line: 14, then 16. What keeps the rules is entered.
    fn read_row<'t>(&mut self, text: &'t [u8]) -> Result<&'t [u8], Fault>
        requires { length (items_of self.old.lines.now) < 2046 }
        ensures gives { Gives (rows 1 self.old.pieces (items_of self.old.lines.now) text.now) (items_of self.new.lines.now) result }
        ensures stays { Stays self.old self.new }
    {
        let number = self.lines.len() as u64 + FIRST_LINE;
        let (values, rest) = line_array::<4>(text, number)?;
        let line = NodeLine::from(values);
        let branch = branch_of(&self.table, self.pieces, line).ok_or(Fault::new(
            Refusal::BadNode,
            number,
            Part::Line,
        ))?;
        self.enter(line, branch);
        Ok(rest)
    }

    // So many node lines, one after the other, and what follows them.
    pub(crate) fn read_rows<'t>(&mut self, text: &'t [u8], count: usize) -> Result<&'t [u8], Fault>
        requires { length (items_of self.old.lines.now) + count ≤ 2046 }
        ensures gives { Gives (rows count self.old.pieces (items_of self.old.lines.now) text.now) (items_of self.new.lines.now) result }
        ensures stays { Stays self.old self.new }
    {
        let mut rest = text;
        for _ in 0..count {
            rest = self.read_row(rest)?;
        }
        Ok(rest)
    }
}
