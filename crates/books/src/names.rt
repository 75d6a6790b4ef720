// The two lines of names in a book, taken apart by patterns of bytes, a rule of this project.
ghost use Rattle.std.specs.Prelude.{◌≡◌, Ok, Err, MatchResult};
ghost use Rattle.sheets.specs.Lines.{names};
ghost use Rattle.books.specs.Format.{head, order_name};

use sheets::Fault;

// What follows the names of the first table, which are line 1.
pub fn after_head(text: &[u8]) -> Result<&[u8], Fault>
    ensures { MatchResult result (λ rest. names head 1 text.now ≡ Ok rest.now) (λ f. names head 1 text.now ≡ Err f) }
{
    match text {
        [
            b'p',
            b'i',
            b'e',
            b'c',
            b'e',
            b's',
            b' ',
            b'c',
            b'h',
            b'a',
            b'i',
            b'n',
            b'\n',
            rest @ ..,
        ] => Ok(rest),
        _ => Err(Fault::bad_line(1)),
    }
}

// What follows the name of the second table, which is line 3.
pub fn after_order_name(text: &[u8]) -> Result<&[u8], Fault>
    ensures { MatchResult result (λ rest. names order_name 3 text.now ≡ Ok rest.now) (λ f. names order_name 3 text.now ≡ Err f) }
{
    match text {
        [b'o', b'r', b'd', b'e', b'r', b'\n', rest @ ..] => Ok(rest),
        _ => Err(Fault::bad_line(3)),
    }
}
