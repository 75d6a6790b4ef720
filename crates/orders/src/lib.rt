// Orders of a film of sixteen pieces.
#![tactic(auto)]

mod chain;
mod factoring;
mod laws;
mod moves;
mod order;
mod refusal;

pub use chain::Chain;
pub use factoring::{factors, product};
pub use laws::{equality_stands, examples_stand, factoring_stands, laws_stand};
pub use moves::{Rotation, Swap};
pub use order::Order;
pub use refusal::Refusal;
