// The rows of the input.
ghost use Rattle.std.specs.Prelude.{◌<◌, length, MatchResult};
ghost use Rattle.factors.specs.Account.{Cut, Row, NoRow};

use lines::{fields, first_line, order_of};
use orders::{Order, Refusal};

// The next line, without its end, and what follows it. The last line may have no end.
pub fn next_line(text: &[u8]) -> (&[u8], &[u8])
    ensures { Cut text.now result.0.now result.1.now }
{
    first_line(text).unwrap_or((text, &[]))
}

// The order that a line writes out as a row of numbers.
pub fn order_in(line: &[u8]) -> Result<Order, Refusal>
    ensures { MatchResult result (Row line.now) (NoRow line.now) }
{
    order_of(fields(line).ok_or(Refusal::BadRow)?)
}
