// A set of a store, written as a sheet.
ghost use Rattle.store.specs.Views.{view};
ghost use Rattle.deposits.specs.Writing.{Writes};

use caches::Cache;
use lists::{Filled, NodeLine};
use orders::{Chain, Refusal};
use sheets::{Nodes, list_lines, write_sheet};
use store::{Handle, Store};
use tables::ROOM;

// A line that stands in the room before any is written there. A constant: an array of it is made by filling with zeros, one of `default()` line by line.
pub const BLANK: NodeLine = NodeLine {
    x: 0,
    y: 0,
    lo: 0,
    hi: 0,
};

// Writes the sheet of a set at the page's start and answers where it ends. The rest of the page stays; declined, nothing changes.
pub fn write<G: Chain, C: Cache>(
    store: &Store<G, C>,
    set: Handle,
    page: &mut [u8],
) -> Result<usize, Refusal>
    ensures { Writes G.CODE (view store.now) set page.old page.new result }
{
    let orders = store.count(set)?;
    let mut room = [BLANK; ROOM];
    let mut lines = Filled::new(&mut room);
    let nodes = Nodes {
        rows: store.nodes(),
    };
    list_lines(nodes, set.number, &mut lines);
    write_sheet(page, G::CODE, orders, lines.items())
}
