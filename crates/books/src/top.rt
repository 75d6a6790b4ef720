// Lines 1 to 3 of a book.
ghost use Rattle.std.specs.Prelude.{◌≡◌, ◌≤◌, Ok, Err, MatchOption, MatchResult};
ghost use Rattle.books.specs.Reading.{book_of, top};

use super::names::{after_head, after_order_name};
use orders::Refusal;
use sheets::{Fault, Part, line_array};

// What a book says of its orders: how many pieces they move, and the chain that is to work them, by the code that the format fixes for it.
#[derive(Clone, Copy, PartialEq, Eq, Debug)]
pub struct Book {
    pub pieces: u8,
    pub chain: u8,
}

// A value from `least` to `most`.
fn within(value: u64, least: u8, most: u8) -> Option<u8>
    ensures { MatchOption result (least ≤ value → value ≤ most → ⊥) (λ v. (v ≡ value) × (least ≤ v) × (v ≤ most)) }
{
    u8::try_from(value)
        .ok()
        .filter(|v| least <= *v && *v <= most)
}

// The two values of line 2: pieces 2 to 16, then chain 1 or 2, by its code.
fn book_of(pieces: u64, chain: u64) -> Result<Book, Fault>
    ensures { result ≡ book_of pieces chain }
{
    let pieces = within(pieces, 2, 16).ok_or(Fault::new(Refusal::BadPieces, 2, Part::Book))?;
    let chain = within(chain, 1, 2).ok_or(Fault::new(Refusal::OtherChain, 2, Part::Book))?;
    Ok(Book { pieces, chain })
}

// Lines 1 to 3, and the text after them.
pub fn read_top(text: &[u8]) -> Result<(Book, &[u8]), Fault>
    ensures { MatchResult result
        (λ p. top text.now ≡ Ok (p.0, p.1.now))
        (λ f. top text.now ≡ Err f) }
{
    let text = after_head(text)?;
    let ([pieces, chain], text) = line_array::<2>(text, 2)?;
    let book = book_of(pieces, chain)?;
    let rest = after_order_name(text)?;
    Ok((book, rest))
}
