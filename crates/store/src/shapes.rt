// What goes in and out of a store.
use orders::Order;

// A set of a store: the season in which it was given, and its number.
#[derive(Clone, Copy, PartialEq, Eq)]
pub struct Handle {
    pub season: u32,
    pub number: u32,
}

// A call that works out a set. S is how it names a set, and N how it names a piece and a place. It is not the engine's task:
// a task has no single order in it, its sets are numbers, and it is asked only once the call's questions are answered.
#[derive(Clone, Copy)]
pub enum SetCall<S, N> {
    // the order alone
    Single(Order),
    // the orders of either (union)
    Join(S, S),
    // the orders of both (intersection)
    Meet(S, S),
    // the orders of the first that the second has not (difference)
    Without(S, S),
    // the orders of the set, each followed by the order (right translate)
    Carry(S, Order),
    // each order of the first followed by each of the second (product)
    Follow(S, S),
    // the orders of the set with the piece in the place
    Pick(S, N, N),
}
