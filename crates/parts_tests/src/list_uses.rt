// The filled list at bare codes of orders and at node lines. Nothing about adding and reading is proved again here.
ghost use Rattle.std.specs.Prelude.{◌≡◌, ◌<◌, [], ◌∷◌, length, Some, None, MatchResult, slice_set};
ghost use Rattle.std.specs.List.{slice_get};
ghost use Rattle.orders.specs.declared.refusal.Refusal.TheVariants.{NoRoom};
ghost use Rattle.lists.specs.Items.{items_of, room_of, Found};

use lists::{Filled, NodeLine};
use orders::Refusal;

// Writes two codes to the front of lent memory, and finds the second.
pub fn two_codes(room: &mut [u64], first: u64, second: u64) -> Result<Option<usize>, Refusal>
    ensures { MatchResult result
        (λ o. (room.new ≡ slice_set (slice_set room.old 0 first) 1 second) × Found (first ∷ second ∷ []) second o)
        (λ e. (e ≡ NoRoom) × (length room.old < 2)) }
{
    let mut list = Filled::new(room);
    list.add(first)?;
    list.add(second)?;
    Ok(list.find(&second))
}

// The place of a node line: where it stands, or at the end, where it is added.
pub fn placed(list: &mut Filled<NodeLine>, line: NodeLine) -> Result<usize, Refusal>
    ensures answer { MatchResult result
        (λ i. slice_get (items_of list.new) i ≡ Some line)
        (λ e. (e ≡ NoRoom)
        × (length (items_of list.old) ≡ length (room_of list.old))
        × Found (items_of list.old) line None
        × (list.new ≡ list.old)) }
    ensures lender { list.new.room.ghost_name ≡ list.old.room.ghost_name }
{
    match list.find(&line) {
        Some(place) => Ok(place),
        None => list.add(line),
    }
}
