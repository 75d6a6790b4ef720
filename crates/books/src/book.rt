// A whole book, read into a lent list of codes.
ghost use Rattle.std.specs.Prelude.{◌≡◌, length};
ghost use Rattle.lists.specs.Items.{items_of, room_of};
ghost use Rattle.books.specs.Reading.{Outcome, rows, read};
ghost use Rattle.books.specs.Gives.{Gives, Kept};
ghost use Rattle.books.specs.Exact.{Exact};

use super::top::{Book, read_top};
use lines::order_of;
use lists::Filled;
use sheets::{FIRST_LINE, Fault, Part, line_values};

// A book and its list stay two parameters: together they would have no fact of their own, and each clause would name the list through two references.

// One order: 14, 3, then 7. Its code goes into the list.
fn read_order<'a>(text: &'a [u8], book: Book, list: &mut Filled<u64>) -> Result<&'a [u8], Fault>
    ensures gives { Gives book (length (room_of list.old)) (items_of list.old) text.now (items_of list.new) result }
    ensures kept { Kept list.old list.new }
{
    let line = list.len() as u64 + FIRST_LINE;
    let (found, rest) = line_values(text, line, usize::from(book.pieces))?;
    let order = order_of(found).map_err(|refusal| Fault::new(refusal, line, Part::Line))?;
    list.add(order.into())
        .map_err(|refusal| Fault::new(refusal, line, Part::Book))?;
    Ok(rest)
}

// All orders of the text, one after the other. Each step says itself how much it took, so there is no list of lines to go over.
fn read_orders(text: &[u8], book: Book, list: &mut Filled<u64>) -> Result<Book, Fault>
    ensures outcome { ◌≡◌ {A = Outcome} (items_of list.new, result) (rows (length text.now) book (length (room_of list.old)) (items_of list.old) text.now) }
    ensures kept { Kept list.old list.new }
{
    let mut rest = text;
    while !rest.is_empty() {
        rest = read_order(rest, book, list)?;
    }
    Ok(book)
}

// Reads a book into the list, which is emptied first, and keeps the orders read before a fault.
pub fn read_book(bytes: &[u8], list: &mut Filled<u64>) -> Result<Book, Fault>
    ensures outcome { ◌≡◌ {A = Outcome} (items_of list.new, result) (read (length (room_of list.old)) bytes.now) }
    ensures exact { Exact (length (room_of list.old)) bytes.now (items_of list.new) result }
    ensures kept { Kept list.old list.new }
{
    list.clear();
    let (book, orders) = read_top(bytes)?;
    read_orders(orders, book, list)
}
