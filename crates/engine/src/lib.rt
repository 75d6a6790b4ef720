// One engine for all kinds of work over a table of nodes and a cache: answered outright, or remembered, or worked and told.
#![tactic(auto)]

mod engine;
mod found;
mod outright;
mod plan;
mod planning;
mod room;

pub use engine::Engine;
pub use found::Found;
pub use room::Room;
