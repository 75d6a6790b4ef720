// Lists that fill memory lent to them.
#![tactic(auto)]

mod exact;
mod filled;
mod node_line;

pub use exact::Exact;
pub use filled::Filled;
pub use node_line::NodeLine;
