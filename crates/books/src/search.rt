// The lines that the orders of a book stand on.
ghost use Rattle.lists.specs.Items.{items_of};
ghost use Rattle.books.specs.Search.{OnLine};

use lists::Filled;
use orders::Order;
use sheets::FIRST_LINE;

// A line of the book that has the order, or none exactly where no line has it.
pub fn line_of(list: &Filled<u64>, order: Order) -> Option<u64>
    ensures { OnLine (items_of list.now) order result }
{
    let place = list.find(&order.into())?;
    Some(place as u64 + FIRST_LINE)
}
