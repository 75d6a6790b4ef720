// The lines of a sheet or a book, taken off the front of its text.
ghost use Rattle.std.specs.Prelude.{◌≡◌, ℕ, List, [], ◌∷◌, ◌++◌, Ok, Err, codes, MatchOption, MatchResult, ◌≢◌};
ghost use Rattle.lines.specs.Held.{held};
ghost use Rattle.sheets.specs.Format.{head, node_names};
ghost use Rattle.sheets.specs.Lines.{names, values};

use super::fault::Fault;
use lines::{Fields, fields, first_line};

// The line of a sheet's first node, and of a book's first order.
pub const FIRST_LINE: u64 = 4;

// Lines of names are taken apart by patterns of bytes, a rule of this project. Line 1 in two patterns: the check does not close one of 19 bytes.

// What follows the first name and its blank.
fn after_chain(text: &[u8]) -> Option<&[u8]>
    ensures { MatchOption result
        ((rest : List ℕ) → text.now ≢ codes "chain " ++ rest)
        (λ rest. text.now ≡ codes "chain " ++ rest.now) }
{
    match text {
        [b'c', b'h', b'a', b'i', b'n', b' ', rest @ ..] => Some(rest),
        _ => None,
    }
}

// What follows the other two names and the line's end.
fn after_nodes_orders(text: &[u8]) -> Option<&[u8]>
    ensures { MatchOption result
        ((rest : List ℕ) → text.now ≢ (codes "nodes orders" ++ 10 ∷ []) ++ rest)
        (λ rest. text.now ≡ (codes "nodes orders" ++ 10 ∷ []) ++ rest.now) }
{
    match text {
        [
            b'n',
            b'o',
            b'd',
            b'e',
            b's',
            b' ',
            b'o',
            b'r',
            b'd',
            b'e',
            b'r',
            b's',
            b'\n',
            rest @ ..,
        ] => Some(rest),
        _ => None,
    }
}

// What follows the names of a sheet's first table, which are its line 1.
pub(crate) fn after_head(text: &[u8]) -> Result<&[u8], Fault>
    ensures { MatchResult result (λ rest. names head 1 text.now ≡ Ok rest.now) (λ f. names head 1 text.now ≡ Err f) }
{
    let names = after_chain(text).ok_or(Fault::bad_line(1))?;
    after_nodes_orders(names).ok_or(Fault::bad_line(1))
}

// What follows the names of its second table, which are its line 3.
pub(crate) fn after_node_names(text: &[u8]) -> Result<&[u8], Fault>
    ensures { MatchResult result (λ rest. names node_names 3 text.now ≡ Ok rest.now) (λ f. names node_names 3 text.now ≡ Err f) }
{
    match text {
        [
            b'x',
            b' ',
            b'y',
            b' ',
            b'l',
            b'o',
            b' ',
            b'h',
            b'i',
            b'\n',
            rest @ ..,
        ] => Ok(rest),
        _ => Err(Fault::bad_line(3)),
    }
}

// The values of the first line, if there are exactly so many, and what follows it.
pub fn line_values(text: &[u8], line: u64, count: usize) -> Result<(Fields, &[u8]), Fault>
    ensures { MatchResult result
        (λ p. values count line text.now ≡ Ok (held p.0, p.1.now))
        (λ f. values count line text.now ≡ Err f) }
{
    let (first, rest) = first_line(text).ok_or(Fault::bad_line(line))?;
    let found = fields(first)
        .filter(|found| found.count == count)
        .ok_or(Fault::bad_line(line))?;
    Ok((found, rest))
}

// The same as an array, where the number of values is fixed.
pub fn line_array<const N: usize>(text: &[u8], line: u64) -> Result<([u64; N], &[u8]), Fault>
    ensures { MatchResult result
        (λ p. values N line text.now ≡ Ok (p.0, p.1.now))
        (λ f. values N line text.now ≡ Err f) }
{
    let (found, rest) = line_values(text, line, N)?;
    let mut values = [0; N];
    values.copy_from_slice(&found.values[..N]);
    Ok((values, rest))
}
