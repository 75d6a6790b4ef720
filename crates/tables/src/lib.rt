// The node table of a store. Its nodes are found by hash, under the contract of a search from the front.
#![tactic(auto)]

mod table;

pub use table::{ROOM, Table};
