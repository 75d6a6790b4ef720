// A set of a table, and what is read off it by the numbers of its orders.
ghost use Rattle.std.specs.Prelude.{◌≡◌, ◌≤◌};
ghost use Rattle.orders.specs.Chains.{ChainLaws};
ghost use Rattle.diagrams.specs.Moves.{Moves};
ghost use Rattle.diagrams.specs.Table.{Exists, count_of, In};
ghost use Rattle.tables.specs.Rows.{rows};
ghost use Rattle.numbering.specs.Numbered.{Many, order_at, place_of, Fetched, Placed};

use orders::{Chain, Order};
use tables::Table;

// A set: a table, and one of its numbers.
#[derive(Clone, Copy)]
pub struct Set<'a> {
    pub table: &'a Table,
    pub number: u32,
    pub ghost exists: { Exists (rows table.now) number },
}

// What a node says of its set: its move, and the sets of its two parts.
struct Split<'a> {
    x: u8,
    y: u8,
    low: Set<'a>,
    high: Set<'a>,
}

impl<'a> Set<'a> {
    ghost use Rattle.numbering.specs.Splitting.{Splits};

    // How many orders the set has, by whatever chain.
    pub fn count(self) -> u64
        ensures is { result ≡ count_of (rows self.entry.table.now) self.entry.number }
        ensures many { (g : Moves) → ChainLaws g → Many (In g (rows self.entry.table.now) self.entry.number) result }
    {
        self.table.get(self.number).orders
    }

    // The move and the parts of a set that is neither empty nor that of the standing order alone.
    fn split(self) -> Split<'a>
        requires { 2 ≤ self.number }
        ensures { Splits self.entry result }
    {
        let row = self.table.get(self.number);
        Split {
            x: row.x,
            y: row.y,
            low: Set {
                table: self.table,
                number: row.lo,
            },
            high: Set {
                table: self.table,
                number: row.hi,
            },
        }
    }

    // The order with the number `k`; none just where `k` is not below the count. The orders of the lower part come first.
    pub fn order_at<G: Chain>(self, k: u64) -> Option<Order>
        ensures is { result ≡ order_at G.Chain.table (rows self.entry.table.now) self.entry.number k }
        ensures fetched { Fetched G.Chain.table (rows self.entry.table.now) self.entry.number k result }
    {
        if k >= self.count() {
            return None;
        }
        if self.number == 1 {
            return Some(Order::standing());
        }
        let Split { x, y, low, high } = self.split();
        let before = low.count();
        if k < before {
            return low.order_at::<G>(k);
        }
        let order = high.order_at::<G>(k - before)?;
        Some(order.then(G::step(x, y)))
    }

    // The number of an order; none just where the order is not in the set. Those of the upper part are the ones that send x to y.
    pub fn place_of<G: Chain>(self, order: Order) -> Option<u64>
        ensures is { result ≡ place_of G.Chain.table (rows self.entry.table.now) self.entry.number order }
        ensures placed { Placed G.Chain.table (rows self.entry.table.now) self.entry.number order result }
    {
        if self.number == 0 {
            return None;
        }
        if self.number == 1 {
            return (order == Order::standing()).then_some(0);
        }
        let Split { x, y, low, high } = self.split();
        if order.place(x) != y {
            return low.place_of::<G>(order);
        }
        let k = high.place_of::<G>(order.then(G::step(x, y).inverse()))?;
        Some(low.count() + k)
    }
}
