// The plans of tasks, one function for each kind. That a number has a set stands in the contracts: a number goes into tasks
// and nodes, and stays when the table that it is read from is lent again, so no type can hold the fact.
ghost use Rattle.std.specs.Ordering.{nat_cmp};
ghost use Rattle.std.specs.Prelude.{◌≡◌, ℕ, false, None, ◌==◌, nat_lt};
ghost use Rattle.orders.specs.Orders.{place};
ghost use Rattle.orders.specs.Dimension.{dimension};
ghost use Rattle.diagrams.specs.Table.{Exists, x_of, level_of};
ghost use Rattle.diagrams.specs.Bodies.{row, carry_body, follow_body, pick_body, from_of, high_body, body};
ghost use Rattle.diagrams.specs.Work.{Valid};
ghost use Rattle.diagrams.specs.Outright.{outright as outright_of};
ghost use Rattle.tables.specs.Rows.{rows};
ghost use Rattle.engine.specs.Plans.{rest_of, script, paired_task, first_alone, second_alone, paired_body};

use super::plan::{Last, Pairing, Plan, Rest};
use diagrams::{Node, Task};
use orders::{Chain, Order};
use std::cmp::Ordering;
use tables::Table;

// The plan of a task that is not outright.
pub fn plan<G: Chain>(table: &Table, task: Task) -> Plan
    requires valid { Valid (rows table.now) task }
    requires work { outright_of task ≡ None }
    ensures { script result ≡ body G.table (rows table.now) task }
{
    match task {
        Task::Join(a, b) => paired(table, Pairing::Join, a, b),
        Task::Meet(a, b) => paired(table, Pairing::Meet, a, b),
        Task::Without(a, b) => paired(table, Pairing::Without, a, b),
        Task::Carry(a, h) => carry::<G>(table, a, h),
        Task::Follow(a, b) => follow::<G>(table, a, b),
        Task::Pick(a, k, p) => pick::<G>(table, a, k, p),
    }
}

impl Pairing {
    // This work on two numbers.
    fn task(self, a: u32, b: u32) -> Task
        ensures { result ≡ paired_task self a b }
    {
        match self {
            Pairing::Join => Task::Join(a, b),
            Pairing::Meet => Task::Meet(a, b),
            Pairing::Without => Task::Without(a, b),
        }
    }

    // What becomes of the upper part of a node of the first set, which the second set has no order of.
    fn first_alone(self, node: Node) -> Rest
        ensures { result ≡ first_alone self node }
    {
        match self {
            Pairing::Join | Pairing::Without => Rest::Over(node.x, node.y, node.hi),
            Pairing::Meet => Rest::Pass,
        }
    }

    // What becomes of the upper part of a node of the second set, which the first set has no order of.
    fn second_alone(self, node: Node) -> Rest
        ensures { result ≡ second_alone self node }
    {
        match self {
            Pairing::Join => Rest::Over(node.x, node.y, node.hi),
            Pairing::Meet | Pairing::Without => Rest::Pass,
        }
    }
}

// Work on two sets: at the higher of their levels each is taken apart.
fn paired(table: &Table, pairing: Pairing, a: u32, b: u32) -> Plan
    requires left { Exists (rows table.now) a }
    requires right { Exists (rows table.now) b }
    ensures { script result ≡ paired_body pairing a b (row (rows table.now) a) (row (rows table.now) b) (nat_cmp (level_of (rows table.now) a) (level_of (rows table.now) b)) }
{
    let p = table.get(a);
    let q = table.get(b);
    match table.cmp_levels(a, b) {
        Ordering::Equal => Plan {
            low: pairing.task(p.lo, q.lo),
            rest: Rest::Then(pairing.task(p.hi, q.hi), Last::Both(p.x, p.y)),
        },
        Ordering::Greater => Plan {
            low: pairing.task(p.lo, b),
            rest: pairing.first_alone(p),
        },
        Ordering::Less => Plan {
            low: pairing.task(a, q.lo),
            rest: pairing.second_alone(q),
        },
    }
}

// The orders with piece k in place p.
fn pick<G: Chain>(table: &Table, a: u32, k: u8, p: u8) -> Plan
    requires { Exists (rows table.now) a }
    ensures { script result ≡ pick_body (row (rows table.now) a) a k p (from_of G.table (row (rows table.now) a) p) false false (k == p) }
{
    let node = table.get(a);
    let from = G::step(node.x, node.y).inverse().place(p);
    Plan {
        low: Task::Pick(node.lo, k, p),
        rest: Rest::Then(Task::Pick(node.hi, k, from), Last::Both(node.x, node.y)),
    }
}

// Each order of a followed by each of b.
fn follow<G: Chain>(table: &Table, a: u32, b: u32) -> Plan
    requires { Exists (rows table.now) b }
    ensures { script result ≡ follow_body G.table (row (rows table.now) b) a b false false }
{
    let q = table.get(b);
    Plan {
        low: Task::Follow(a, q.lo),
        rest: Rest::Then(Task::Follow(a, q.hi), Last::Move(G::step(q.x, q.y))),
    }
}

// The orders of a followed by h. Where h moves a piece above those of a, that move comes last, over all the rest. Elsewhere
// the two parts of a are carried apart and then joined: what h makes of them need not be the two parts of one node.
fn carry<G: Chain>(table: &Table, a: u32, h: Order) -> Plan
    requires { Exists (rows table.now) a }
    ensures { script result ≡ carry_body G.table (row (rows table.now) a) a h false false (nat_lt (x_of (rows table.now) a) (dimension h)) }
{
    let p = table.get(a);
    let d = h.dimension();
    if p.x < d {
        let z = h.place(d);
        return Plan {
            low: Task::Carry(a, h.then(G::step(d, z).inverse())),
            rest: Rest::Lift(d, z),
        };
    }
    Plan {
        low: Task::Carry(p.lo, h),
        rest: upper::<G>(p.x, p.hi, G::step(p.x, p.y).then(h)),
    }
}

// The high part hi of a node of x, carried by k and joined to the low part: under the move of k at x, if there is one.
fn upper<G: Chain>(x: u8, hi: u32, k: Order) -> Rest
    ensures { (r : ℕ) → rest_of result r ≡ high_body G.table x (place k x) hi k r (place k x == x) }
{
    let z = k.place(x);
    if z == x {
        return Rest::Then(Task::Carry(hi, k), Last::Join);
    }
    let order = k.then(G::step(x, z).inverse());
    Rest::Then(Task::Carry(hi, order), Last::Raise(x, z))
}
