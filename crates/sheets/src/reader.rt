// What was read of the node lines of a sheet.
ghost use Rattle.std.specs.Prelude.{◌≡◌, ◌≤◌, length};
ghost use Rattle.lists.specs.Items.{items_of, room_of};
ghost use Rattle.tables.specs.Rows.{rows as rows_of};
ghost use Rattle.sheets.specs.Checks.{tabled};

use lists::{Filled, NodeLine};
use tables::Table;

mod entering;

// The lines are in a lent list, and the table has their nodes. There are so many pieces.
#[derive(Drop)]
pub(crate) struct Reader<'a, 'm> {
    pub(crate) pieces: u8,
    pub(crate) table: Table,
    pub(crate) lines: &'a mut Filled<'m, NodeLine>,
    ghost tabled: { rows_of table ≡ tabled (items_of lines.now) },
    ghost room: { 2046 ≤ length (room_of lines.now) },
}
