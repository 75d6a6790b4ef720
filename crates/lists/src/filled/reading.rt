// Reading a list: its length, the room that is left, all its records, and the record at a place.
ghost use Rattle.std.specs.Prelude.{◌≡◌, ◌+◌, length};
ghost use Rattle.std.specs.List.{slice_get};
ghost use Rattle.std.specs.Option.{ok_or};
ghost use Rattle.orders.specs.declared.refusal.Refusal.TheVariants.{PastEnd};
ghost use Rattle.lists.specs.Items.{items_of, room_of};

use super::Filled;
use orders::Refusal;

impl<'a, R> Filled<'a, R> {
    // How many records there are.
    pub fn len(&self) -> usize
        ensures { result ≡ length (items_of self.now) }
    {
        self.len
    }

    // How many more records there is room for.
    pub fn left(&self) -> usize
        ensures { length (items_of self.now) + result ≡ length (room_of self.now) }
    {
        self.room.len() - self.len
    }

    // The records.
    pub fn items(&self) -> &[R]
        ensures { result.now ≡ items_of self.now }
    {
        &self.room[0..self.len]
    }
}

impl<'a, R: Copy> Filled<'a, R> {
    // The record at a place. Refused beyond the end.
    pub fn read(&self, place: usize) -> Result<R, Refusal>
        ensures { result ≡ ok_or (slice_get (items_of self.now) place) PastEnd }
    {
        self.items().get(place).copied().ok_or(Refusal::PastEnd)
    }
}
