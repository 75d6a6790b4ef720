// Orders from numbers and rows, and back.
ghost use Rattle.std.specs.Prelude.{◌≡◌, ℕ, suc, ◌+◌, ◌<◌, ◌≤◌, Decides, MatchBool, MatchResult, ◌≢◌, slice_index};
ghost use Rattle.orders.specs.Digits.{digit};
ghost use Rattle.orders.specs.Entries.{Made, Within, Writes, Refused, row_of};

use super::Order;
use super::build::{digit_of, packed};
use crate::refusal::Refusal;
use std::array::from_fn;

// Whether the digit of `code` at j stands at an earlier place too.
fn repeats(code: u64, j: u8) -> bool
    requires { j < 16 }
    ensures { MatchBool result ((i : ℕ) × (i < j) × (digit code i ≡ digit code j)) ((i : ℕ) → i < j → digit code i ≢ digit code j) }
{
    let d = digit_of(code, j);
    (0..j).any(|i| digit_of(code, i) == d)
}

// Whether the first `len` entries are each from 1 to `len`.
fn is_within(row: [u8; 16], len: u8) -> bool
    requires { len ≤ 16 }
    ensures { Decides result (Within row len) }
{
    row[..len as usize].iter().all(|v| 1 <= *v && *v <= len)
}

// The digits that a row of `len` entries stands for.
fn digits_of(row: [u8; 16], len: u8) -> [u8; 16]
    requires few { len ≤ 16 }
    requires within { Within row len }
    ensures front { (j : ℕ) → j < len → (slice_index result j < len) × (slice_index result j + 1 ≡ slice_index row j) }
    ensures back { (j : ℕ) → len ≤ j → j < 16 → slice_index result j ≡ j }
{
    from_fn(|j| if j < len as usize {
        row[j] - 1
    } else {
        j as u8
    })
}

impl Order {
    // The order with this code, if there is one. No refusal says that there is none, so this is no TryFrom.
    pub fn from_code(code: u64) -> Option<Order>
        ensures { Made code result }
    {
        if (0..16).any(|j| repeats(code, j)) {
            return None;
        }
        Some(Order { code })
    }

    // The order that a row of `len` entries writes out: piece k goes to the entry k, counted from 1.
    // What lies beyond the length is not read, and those pieces stand still.
    // A row is sixteen bytes by value, with how many of them are meant.
    pub fn from_row(row: [u8; 16], len: u8) -> Result<Order, Refusal>
        ensures { MatchResult result (Writes row len) (Refused row len) }
    {
        if len == 0 || len > 16 || !is_within(row, len) {
            return Err(Refusal::BadRow);
        }
        Order::from_code(packed(digits_of(row, len))).ok_or(Refusal::BadRow)
    }
}

// The place of each piece, in the pieces' order.
impl From<Order> for [u8; 16] {
    ghost from_gives = { λ order row. row ≡ row_of order };

    fn from(order: Order) -> [u8; 16] {
        from_fn(|j| digit_of(order.code, j as u8) + 1)
    }
}
