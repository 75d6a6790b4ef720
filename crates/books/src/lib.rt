// Row books: orders of one film, one to a line, in plain bytes.
#![tactic(auto)]

mod book;
mod names;
mod search;
mod top;

pub use book::read_book;
pub use search::line_of;
pub use top::Book;
