// What can be said of a task with no table: the answer that needs no work, and the triple that it is remembered by.
ghost use Rattle.std.specs.Prelude.{◌≡◌};
ghost use Rattle.diagrams.specs.Outright.{outright as outright_of};
ghost use Rattle.engine.specs.Triples.{triple};

use caches::Triple;
use diagrams::Task;
use orders::Order;

// The kinds of work, by the numbers that a cache knows them by.
#[derive(Clone, Copy)]
enum Kind {
    Join = 1,
    Meet = 2,
    Without = 3,
    Carry = 4,
    Follow = 5,
    Pick = 6,
}

// The answer of a task that needs no work.
pub fn outright(task: Task) -> Option<u32>
    ensures { result ≡ outright_of task }
{
    // Numbers are bound and tested: a pattern such as `Task::Join(0, b)` is not covered for an enum with an order in it.
    match task {
        Task::Join(a, b) => {
            if a == 0 {
                Some(b)
            } else {
                (b == 0 || a == b).then_some(a)
            }
        }
        Task::Meet(a, b) => {
            if a == 0 || b == 0 {
                Some(0)
            } else {
                (a == b).then_some(a)
            }
        }
        Task::Without(a, b) => {
            if a == 0 || a == b {
                Some(0)
            } else {
                (b == 0).then_some(a)
            }
        }
        Task::Carry(a, h) => {
            if a == 0 {
                Some(0)
            } else {
                (h == Order::standing()).then_some(a)
            }
        }
        Task::Follow(a, b) => {
            if a == 0 || b == 0 {
                Some(0)
            } else {
                (b == 1).then_some(a)
            }
        }
        Task::Pick(a, k, p) => match a {
            0 => Some(0),
            1 => Some(u32::from(k == p)),
            _ => None,
        },
    }
}

// What a task is remembered by.
pub fn key(task: Task) -> Triple
    ensures { result ≡ triple task }
{
    let (kind, first, second) = match task {
        Task::Join(a, b) => (Kind::Join, a, u64::from(b)),
        Task::Meet(a, b) => (Kind::Meet, a, u64::from(b)),
        Task::Without(a, b) => (Kind::Without, a, u64::from(b)),
        Task::Carry(a, h) => (Kind::Carry, a, u64::from(h)),
        Task::Follow(a, b) => (Kind::Follow, a, u64::from(b)),
        Task::Pick(a, k, p) => (Kind::Pick, a, u64::from(k) * 256 + u64::from(p)),
    };
    Triple {
        kind: kind as u8,
        first: u64::from(first),
        second,
    }
}
