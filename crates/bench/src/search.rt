// The searches, over all nodes of a table.
ghost use Rattle.std.specs.Prelude.{◌≡◌};
ghost use Rattle.tables.specs.Rows.{rows, found};

use diagrams::{Branch, Node};
use tables::Table;

// The number of the first node with this branch, by a search from the front.
#[tactic(auto, using(tables::proofs::Rows::rows_within))]
pub fn linear(table: &Table, sought: Branch) -> Option<u32> {
    let place = table
        .nodes()
        .iter()
        .position(|node| node.branch() == sought)?;
    Some(place as u32 + 2)
}

// The same by hash.
pub fn hashed(table: &Table, sought: Branch) -> Option<u32>
    ensures { result ≡ found (rows table.now) sought.x sought.y sought.lo sought.hi }
{
    table.find(sought)
}

// Whether both searches find the same.
fn agree(table: &Table, sought: Branch) -> bool {
    linear(table, sought) == hashed(table, sought)
}

// How many of two finds for each node agree: with its own branch, and with its parts changed for one another.
pub fn agreed(table: &Table) -> usize {
    let nodes = table.nodes();
    let own = nodes
        .iter()
        .filter(|node| agree(table, node.branch()))
        .count();
    let changed = nodes
        .iter()
        .map(|node| Branch {
            lo: node.hi,
            hi: node.lo,
            ..node.branch()
        })
        .filter(|branch| agree(table, *branch))
        .count();
    own.wrapping_add(changed)
}

// How many finds hit, in some rounds over all nodes. A `shift` of 2048 makes each find a miss.
pub fn hits<F: Fn(Branch) -> Option<u32>>(nodes: &[Node], rounds: u32, shift: u32, find: F) -> usize
    requires { F.IsAlwaysCallable find }
{
    let mut hits: usize = 0;
    for _ in 0..rounds {
        let found = nodes.iter().filter(|node| {
            let sought = Branch {
                hi: node.hi.wrapping_add(shift),
                ..node.branch()
            };
            find(sought).is_some()
        });
        hits = hits.wrapping_add(found.count());
    }
    hits
}
