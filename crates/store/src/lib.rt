// The store: sets of orders by handle, over a node table, a chain and a cache.
#![tactic(auto)]

mod hold;
mod plan;
mod shapes;
mod store;
mod theorems;

pub use engine::Found;
pub use hold::{Hold, Returned};
pub use plan::Plan;
pub use shapes::{Handle, SetCall};
pub use store::Store;
pub use theorems::holds_stand;
