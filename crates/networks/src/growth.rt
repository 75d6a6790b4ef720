// The sets of a network, one after the other, and their sizes.
ghost use Rattle.std.specs.Prelude.{◌≡◌, ◌≤◌, max, IfOk};

use caches::Cache;
use orders::{Chain, Order, Refusal, factors};
use std::fmt;
use store::{Handle, Store};
use tables::ROOM;

// No network needs more exchanges than sixteen pieces do, and one more shows that nothing new comes.
const LONGEST: u64 = 121;

// How many nodes a set has; and as many if sets that differ in the standing order alone are counted once.
#[derive(Clone, Copy, Default, PartialEq, Eq, Debug)]
pub struct Size {
    pub nodes: u64,
    pub once: u64,
}

impl fmt::Display for Size {
    fn fmt<W: fmt::Write>(&self, f: &mut fmt::Formatter<W>) -> fmt::Result {
        write!(f, "{} {}", self.nodes, self.once)
    }
}

impl Size {
    // The larger of two sizes, each count by itself.
    fn larger(self, other: Size) -> Size
        ensures nodes { result.nodes ≡ max self.nodes other.nodes }
        ensures once { result.once ≡ max self.once other.once }
    {
        Size {
            nodes: self.nodes.max(other.nodes),
            once: self.once.max(other.once),
        }
    }
}

// What a network comes to.
#[derive(Clone, Copy, PartialEq, Eq, Debug)]
pub struct Growth {
    // after how many exchanges nothing new comes
    pub steps: u64,
    pub peak: Size,
    pub last: Size,
    pub orders: u64,
    // the factors of all orders together
    pub factors: u64,
}

// The standing order and the exchanges of neighbouring places.
fn neighbours<G: Chain, C: Cache>(store: &mut Store<G, C>, pieces: u8) -> Result<Handle, Refusal> {
    let mut set = store.standing_set();
    for i in 1..pieces {
        let exchange = store.single(G::step(i + 1, i))?;
        let joined = store.join(set, exchange.set)?;
        set = joined.set;
    }
    Ok(set)
}

// Sweeps all but one set away; its handle then, and how many nodes it has.
fn alone<G: Chain, C: Cache>(
    store: &mut Store<G, C>,
    set: Handle,
) -> Result<(Handle, usize), Refusal> {
    let hold = store.hold(set, 0)?;
    let left = store.sweep();
    let held = store.held(&hold);
    store.give_back(hold);
    let nodes = left?;
    Ok((held?, nodes))
}

// How many different sets the nodes have without the standing order. Each set is marked by its number, since the program asks for no memory.
fn counted_once<G: Chain, C: Cache>(store: &mut Store<G, C>, nodes: usize) -> Result<u64, Refusal> {
    let mut seen = [false; ROOM + 2];
    let season = store.season();
    let standing = store.standing_set();
    for number in 2..nodes.min(ROOM) as u32 + 2 {
        let rest = store.without(Handle { season, number }, standing)?;
        let mark = seen
            .get_mut(rest.set.number as usize)
            .ok_or(Refusal::NoSuchNumber)?;
        *mark = true;
    }
    Ok(seen.iter().filter(|mark| **mark).count() as u64)
}

// How many factors an order has: a row says of x that there is none by x itself.
fn factors_of<G: Chain>(order: Order) -> usize {
    factors::<G>(order)
        .iter()
        .zip(1..=16u8)
        .filter(|(y, x)| **y < *x)
        .count()
}

// The factors of all orders of a set together.
fn factor_total<G: Chain, C: Cache>(store: &Store<G, C>, set: Handle) -> Result<u64, Refusal> {
    let mut total = 0u64;
    for k in 0..store.count(set)? {
        let order = store.order_at(set, k)?;
        total = total.saturating_add(factors_of::<G>(order) as u64);
    }
    Ok(total)
}

// Each set followed by the exchanges, until nothing new comes.
pub fn grown<G: Chain, C: Cache>(store: &mut Store<G, C>, pieces: u8) -> Result<Growth, Refusal>
    ensures steps { IfOk result (λ g. g.steps ≤ LONGEST) }
    ensures peak_nodes { IfOk result (λ g. g.last.nodes ≤ g.peak.nodes) }
    ensures peak_once { IfOk result (λ g. g.last.once ≤ g.peak.once) }
{
    let mut set = store.standing_set();
    let mut last = Size::default();
    let mut peak = last;
    let mut steps = 0;
    for step in 1..=LONGEST {
        let exchanges = neighbours(store, pieces)?;
        let next = store.follow(set, exchanges)?;
        if next.set == set {
            break;
        }
        let (kept, nodes) = alone(store, next.set)?;
        let once = counted_once(store, nodes)?;
        last = Size {
            nodes: nodes as u64,
            once,
        };
        peak = peak.larger(last);
        steps = step;
        set = kept;
    }
    Ok(Growth {
        steps,
        peak,
        last,
        orders: store.count(set)?,
        factors: factor_total(store, set)?,
    })
}
