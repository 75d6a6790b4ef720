// The orders of a set, numbered: how many there are, the order of a number, and the number of an order.
#![tactic(auto)]

mod set;
mod theorems;

pub use set::Set;
pub use theorems::{before_stands, examples_stand, numbering_stands};
