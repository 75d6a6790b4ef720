// The theory as contracts: each function below has a theorem, in words of orders and sets, and so asks for its proof.
ghost use Rattle.diagrams.specs.Examples.{ExamplesStand};
ghost use Rattle.diagrams.specs.Theorems.{LevelsStand, SetsStand, CanonicityStands, ExtensionStands, CountsStand, BoundsStand, WorkStands, AnswersStand, SingleStands, TriplesStand};

// The levels 1 to 120 are of one pair each. A greater x is above a smaller, and at one x a smaller y is above.
pub fn levels_stand() -> bool
    ensures { LevelsStand }
{
    true
}

// What numbers stand for: 0 the empty set, 1 the standing order alone, a node the orders of its low part together with each order of its high
// part followed by its move. The two parts have no order in common, every number but 0 has an order, and every order of a set leaves the
// pieces above its x where they are.
pub fn sets_stand() -> bool
    ensures { SetsStand }
{
    true
}

// One set, one number: two numbers of a sound table that have the same orders are equal.
pub fn canonicity_stands() -> bool
    ensures { CanonicityStands }
{
    true
}

// A table that was added to has the same sets under the same numbers.
pub fn extension_stands() -> bool
    ensures { ExtensionStands }
{
    true
}

// The count that a node carries is how many orders its set has: they stand in a list of that length, each once, and no other.
pub fn counts_stand() -> bool
    ensures { CountsStand }
{
    true
}

// No set has more orders than sixteen pieces have, 16!, so the sum of two counts fits in 64 bits.
pub fn bounds_stand() -> bool
    ensures { BoundsStand }
{
    true
}

// The rule of work, for every chain, room, sound table and task: it ends, it keeps the table sound and only adds to it, and it finds the
// set of its task or no room. Once it adds nothing it does so on every longer table, with the same number and entries; and on the table that
// it made it adds nothing. It is outright just where its rule is an answer.
pub fn work_stands() -> bool
    ensures { WorkStands }
{
    true
}

// What each kind of work answers, in words of orders: the union, the intersection, the difference, all αh, all αβ, the orders with a piece in
// a place.
pub fn answers_stand() -> bool
    ensures { AnswersStand }
{
    true
}

// Single of an order is the set of that order alone.
pub fn single_stands() -> bool
    ensures { SingleStands }
{
    true
}

// A cache never mistakes a task for another: different tasks have different triples.
pub fn triples_stand() -> bool
    ensures { TriplesStand }
{
    true
}

// The worked examples come out as their tables say, by computing the definitions.
pub fn examples_stand() -> bool
    ensures { ExamplesStand }
{
    true
}
