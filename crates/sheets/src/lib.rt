// Sheets: a set of orders as two tables of numbers in plain bytes.
#![tactic(auto)]

mod checking;
mod fault;
mod listing;
mod nodes;
mod numbering;
mod reader;
mod rules;
mod texts;
mod theorems;
mod top;
mod visit;
mod writing;

pub use checking::{Checked, check};
pub use fault::{Fault, Part};
pub use listing::{list_lines, number_of};
pub use nodes::Nodes;
pub use numbering::Numbering;
pub use texts::{FIRST_LINE, line_array, line_values};
pub use theorems::{accepted_stands, written_stands};
pub use visit::numbered;
pub use writing::write_sheet;
