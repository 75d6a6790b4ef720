// The nodes of a store, in the order in which they were made, and an index of them by hash.
ghost use Rattle.std.specs.Prelude.{◌≡◌, ◌≤◌, length, take};
ghost use Rattle.diagrams.specs.Table.{Sound};
ghost use Rattle.tables.specs.Hashing.{Heads, Links};

use diagrams::Node;

mod buckets;
mod finding;
mod making;
mod reading;
mod rules;

// How many nodes a table has room for.
pub const ROOM: usize = 2046;

// How many buckets its nodes fall into.
const BUCKETS: usize = 4096;

// The nodes are the first `len`, and the node at `i` has the number `i + 2`. `heads` has for each bucket the number of
// its last node, if any, and `next` for each node the number of the last before it in its bucket, if any. The nodes stand by themselves, and not
// each with its `next`, since they are lent as a slice; and in arrays, since a store asks for no memory.
// The index keeps a number, which is at most 2,047, as a `u16`: an optional one is then as small as a `u32`.
#[derive(Drop)]
pub struct Table {
    nodes: [Node; ROOM],
    len: usize,
    heads: [Option<u16>; BUCKETS],
    next: [Option<u16>; ROOM],
    ghost long: { length nodes ≡ 2046 },
    ghost wide: { length heads ≡ 4096 },
    ghost deep: { length next ≡ 2046 },
    ghost within: { len ≤ 2046 },
    ghost headed: { Heads heads (take len nodes) },
    ghost linked: { Links next (take len nodes) },
    ghost sound: { ∥ Sound (take len nodes) ∥₁ },
}
