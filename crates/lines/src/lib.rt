// Lines of numbers in base ten, as sheets, books and programs have them: no leading zeros, at most 14 digits, one blank
// between two numbers.
#![tactic(auto)]

mod numbers;
mod reads;
mod rows;
mod writes;

pub use numbers::Fields;
pub use reads::{fields, first_line};
pub use rows::order_of;
pub use writes::{add_bytes, add_line, line_len, put_bytes, put_line};
