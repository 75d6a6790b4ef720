// Deposits: the sets of a store written as sheets, and sheets read into a store.
#![tactic(auto)]

mod reading;
mod theorems;
mod writing;

pub use reading::read;
pub use theorems::sheets_agree;
pub use writing::write;
