// The check of a whole sheet.
ghost use Rattle.std.specs.Prelude.{◌≡◌, ◌≢◌, ◌+◌, ◌<◌, ◌≤◌, true, false, List, [], length, slice_index, Result, MatchOption};
ghost use Rattle.lists.specs.Items.{items_of, room_of};
ghost use Rattle.lists.specs.declared.node_line.NodeLine.{NodeLine};
ghost use Rattle.tables.specs.Rows.{rows as rows_of};
ghost use Rattle.sheets.specs.declared.fault.Fault.{Fault};
ghost use Rattle.sheets.specs.Own.{Own};
ghost use Rattle.sheets.specs.Reading.{Lent};
ghost use Rattle.sheets.specs.Checks.{root_of, counts, finish, checked, Outcome};

use super::fault::{Fault, Part};
use super::nodes::Nodes;
use super::reader::Reader;
use super::texts::FIRST_LINE;
use super::top::read_top;
use super::visit::numbered;
use lists::{Filled, NodeLine};
use orders::Refusal;
use tables::{ROOM, Table};

// A sheet that was accepted: the number of its root among its lines, and how many orders its set has.
#[derive(Clone, Copy)]
pub struct Checked {
    pub root: u64,
    pub orders: u64,
}

// The first place whose mark is not its own number, or none where each is.
fn first_off(marks: &[u32]) -> Option<usize>
    requires { length marks.now ≤ 2046 }
    ensures { MatchOption result
        (Own marks.now (length marks.now))
        (λ i. (i < length marks.now) × (slice_index marks.now i ≢ i + 2) × Own marks.now i) }
{
    marks
        .iter()
        .zip(2..ROOM as u32 + 2)
        .position(|(mark, own)| *mark != own)
}

// The root's number, if orders is its count: the last node, or with no nodes 0 or 1, which orders says.
fn root_of(table: &Table, orders: u64) -> Option<u64>
    ensures { MatchOption result
        (counts (rows_of table.now) orders ≡ false)
        (λ root. (counts (rows_of table.now) orders ≡ true) × (root ≡ root_of (rows_of table.now) orders)) }
{
    match table.nodes() {
        [] => (orders < 2).then_some(orders),
        [.., last] => (last.orders == orders).then_some(table.len() as u64 + 1),
    }
}

// After the last node line: a surplus line, then 17, then 18.
fn finish(rest: &[u8], table: &Table, orders: u64) -> Result<Checked, Fault>
    ensures { result ≡ finish (rows_of table.now) orders rest.now }
{
    let count = table.len();
    if !rest.is_empty() {
        return Err(Fault::bad_line(count as u64 + FIRST_LINE));
    }
    let nodes = Nodes {
        rows: table.nodes(),
    };
    let visit = numbered(nodes, count as u32 + 1);
    if let Some(off) = first_off(&visit.marks[..count]) {
        return Err(Fault::new(Refusal::Misnumbered, off as u64 + FIRST_LINE, Part::Sheet));
    }
    let root = root_of(table, orders).ok_or(Fault::new(Refusal::WrongCount, 2, Part::Sheet))?;
    Ok(Checked { root, orders })
}

// Checks a whole sheet for a store of so many pieces over a chain, by its code, as line 2 has it. The list is emptied, and then has the lines that kept the rules.
pub fn check(
    text: &[u8],
    pieces: u8,
    chain: u8,
    lines: &mut Filled<NodeLine>,
) -> Result<Checked, Fault>
    requires room { 2046 ≤ length (room_of lines.old) }
    ensures is { ◌≡◌ {A = List NodeLine × Result Checked Fault} (items_of lines.new, result) (checked pieces chain text.now) }
    ensures lent { Lent lines.old lines.new }
{
    lines.clear();
    let top = read_top(text, chain)?;
    // A literal: made by a function that says nothing of the lender, the reader's list at the end is not tied to the caller's.
    let mut reader = Reader {
        pieces,
        table: Table::new(),
        lines,
    };
    let rest = reader.read_rows(top.rest, top.nodes)?;
    finish(rest, &reader.table, top.orders)
}
