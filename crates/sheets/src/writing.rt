// A sheet put on a lent page.
ghost use Rattle.std.specs.Prelude.{◌≡◌, ◌+◌, ◌*◌, ◌<◌, ◌≤◌, length, MatchResult};
ghost use Rattle.lists.specs.Items.{items_of, room_of, Extended};
ghost use Rattle.lines.specs.Pages.{Put};
ghost use Rattle.sheets.specs.Format.{node_lines, sheet_bytes};

use lines::{add_bytes, add_line, line_len};
use lists::{Filled, NodeLine};
use orders::Refusal;

// The names of a sheet's first table, its line 1.
const HEAD: &[u8] = b"chain nodes orders\n";

// The names of its second table, its line 3.
const NODE_NAMES: &[u8] = b"x y lo hi\n";

// How many bytes the lines of nodes have.
fn rows_len(lines: &[NodeLine]) -> usize
    requires { length lines.now ≤ 2046 }
    ensures bytes { result ≡ length (node_lines lines.now) }
    ensures few { result ≤ 85 * length lines.now }
{
    match lines {
        [] => 0,
        [first, rest @ ..] => line_len(&[first.x, first.y, first.lo, first.hi]) + rows_len(rest),
    }
}

// Writes the lines of nodes.
fn put_rows(page: &mut Filled<u8>, lines: &[NodeLine]) -> Result<(), Refusal>
    ensures answer { MatchResult result
        (λ _. Extended page.old page.new (node_lines lines.now))
        (λ _. length (room_of page.old) < length (items_of page.old) + length (node_lines lines.now)) }
    ensures lender { page.new.room.ghost_name ≡ page.old.room.ghost_name }
{
    for line in lines {
        add_line(page, &<[u64; 4]>::from(*line))?;
    }
    Ok(())
}

// Writes the sheet of a chain's set at the start of the page, from the chain by its code, as line 2 has it, the count of orders and the lines, and
// answers where it ends. Where the page is too short, nothing changes.
pub fn write_sheet(
    page: &mut [u8],
    chain: u8,
    orders: u64,
    lines: &[NodeLine],
) -> Result<usize, Refusal>
    requires { length lines.now ≤ 2046 }
    ensures { Put page.old page.new 0 (sheet_bytes chain orders lines.now) result }
{
    let counts = [u64::from(chain), lines.len() as u64, orders];
    if page.len() < HEAD.len() + line_len(&counts) + NODE_NAMES.len() + rows_len(lines) {
        return Err(Refusal::ShortPage);
    }
    let mut page = Filled::new(page);
    add_bytes(&mut page, HEAD)?;
    add_line(&mut page, &counts)?;
    add_bytes(&mut page, NODE_NAMES)?;
    put_rows(&mut page, lines)?;
    Ok(page.len())
}
