// Rows of numbers that are orders.
ghost use Rattle.std.specs.Prelude.{◌≡◌, length, MatchResult};
ghost use Rattle.lines.specs.Held.{held, place_of};
ghost use Rattle.orders.specs.Entries.{Writes, Refused};

use super::numbers::Fields;
use orders::{Order, Refusal};
use std::array::from_fn;

// A number as a place; a number above 16 is none, and stands as 0: 0 is no place either, so `from_row` refuses both alike.
fn place_of(value: u64) -> u8
    ensures { result ≡ place_of value }
{
    match u8::try_from(value) {
        Ok(place) if place <= 16 => place,
        _ => 0,
    }
}

// The order that a row of numbers writes out.
pub fn order_of(row: Fields) -> Result<Order, Refusal>
    ensures { MatchResult result (Writes (held row) (length (held row))) (Refused (held row) (length (held row))) }
{
    Order::from_row(from_fn(|j| place_of(row.values[j])), row.count as u8)
}
