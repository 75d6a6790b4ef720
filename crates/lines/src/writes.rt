// Lines put on a page: behind the bytes of a list, or from a place on. What does not fit is refused, and the page stays as it was.
ghost use Rattle.std.specs.Prelude.{◌≡◌, ◌+◌, ◌*◌, ◌<◌, ◌≤◌, [], ◌∷◌, length, decimal};
ghost use Rattle.lists.specs.Items.{items_of, room_of, Extended};
ghost use Rattle.lines.specs.Format.{written, line};
ghost use Rattle.lines.specs.Pages.{Put, Laid};

use crate::numbers::MOST;
use lists::Filled;
use orders::Refusal;

// No line has more bytes: at most 21 for each number, and one more (the bound of `line_len`).
const LONGEST: usize = MOST * 21 + 1;

// How many digits the number has.
fn digit_len(n: u64) -> usize
    ensures digits { result ≡ length (decimal n) }
    ensures few { result ≤ 20 }
{
    if n < 10 { 1 } else { digit_len(n / 10) + 1 }
}

// How many bytes the line of the numbers has: behind each is a blank or the line's end, which stands alone where there is none.
pub fn line_len(values: &[u64]) -> usize
    requires { length values.now ≤ 16 }
    ensures bytes { result ≡ length (line values.now) }
    ensures few { result ≤ 21 * length values.now + 1 }
{
    let mut len = 0;
    for value in values {
        len += digit_len(*value) + 1;
    }
    len.max(1)
}

// Writes one byte, for which there is room.
fn put_byte(page: &mut Filled<u8>, b: u8)
    requires { length (items_of page.old) < length (room_of page.old) }
    ensures answer { Extended page.old page.new (b ∷ []) }
    ensures lender { page.new.room.ghost_name ≡ page.old.room.ghost_name }
{
    let _ = page.add(b);
}

// Writes the digits of a number, for which there is room.
fn put_number(page: &mut Filled<u8>, n: u64)
    requires { length (items_of page.old) + length (decimal n) ≤ length (room_of page.old) }
    ensures answer { Extended page.old page.new (decimal n) }
    ensures lender { page.new.room.ghost_name ≡ page.old.room.ghost_name }
{
    let last = b'0' + (n % 10) as u8;
    if n >= 10 {
        put_number(page, n / 10);
    }
    put_byte(page, last);
}

// Writes the numbers of a line, for which there is room, with a blank before each but the first.
fn put_numbers(page: &mut Filled<u8>, values: &[u64])
    requires { length (items_of page.old) + length (written values.now) ≤ length (room_of page.old) }
    ensures answer { Extended page.old page.new (written values.now) }
    ensures lender { page.new.room.ghost_name ≡ page.old.room.ghost_name }
{
    for (i, value) in values.iter().enumerate() {
        if i > 0 {
            put_byte(page, b' ');
        }
        put_number(page, *value);
    }
}

// Writes the numbers of a line and its end, for which there is room.
fn write_line(page: &mut Filled<u8>, values: &[u64])
    requires { length (items_of page.old) + length (line values.now) ≤ length (room_of page.old) }
    ensures answer { Extended page.old page.new (line values.now) }
    ensures lender { page.new.room.ghost_name ≡ page.old.room.ghost_name }
{
    put_numbers(page, values);
    put_byte(page, b'\n');
}

// Writes the line of at most 16 numbers behind the list's bytes.
#[inline]
pub fn add_line(page: &mut Filled<u8>, values: &[u64]) -> Result<(), Refusal>
    requires { length values.now ≤ 16 }
    ensures answer { Laid page.old page.new (line values.now) result }
    ensures lender { page.new.room.ghost_name ≡ page.old.room.ghost_name }
{
    // Where there is room for any line, its length need not be counted.
    if page.left() < LONGEST && page.left() < line_len(values) {
        return Err(Refusal::ShortPage);
    }
    write_line(page, values);
    Ok(())
}

// Writes bytes as they are behind the list's bytes.
pub fn add_bytes(page: &mut Filled<u8>, bytes: &[u8]) -> Result<(), Refusal>
    ensures answer { Laid page.old page.new bytes.now result }
    ensures lender { page.new.room.ghost_name ≡ page.old.room.ghost_name }
{
    page.extend(bytes).map_err(|_| Refusal::ShortPage)
}

// Writes the line of at most 16 numbers from `at` on, and answers where it ends.
pub fn put_line(page: &mut [u8], at: usize, values: &[u64]) -> Result<usize, Refusal>
    requires { length values.now ≤ 16 }
    ensures { Put page.old page.new at (line values.now) result }
{
    let len = line_len(values);
    if page.len() < len || page.len() - len < at {
        return Err(Refusal::ShortPage);
    }
    let (_, behind) = page.split_at_mut(at);
    let mut list = Filled::new(behind);
    write_line(&mut list, values);
    Ok(at + list.len())
}

// Writes bytes as they are from `at` on, and answers where they end.
pub fn put_bytes(page: &mut [u8], at: usize, bytes: &[u8]) -> Result<usize, Refusal>
    ensures { Put page.old page.new at bytes.now result }
{
    if page.len() < bytes.len() || page.len() - bytes.len() < at {
        return Err(Refusal::ShortPage);
    }
    let (_, behind) = page.split_at_mut(at);
    let mut list = Filled::new(behind);
    add_bytes(&mut list, bytes)?;
    Ok(at + list.len())
}
