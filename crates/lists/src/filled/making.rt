// Making a list, emptying it, and giving its memory back.
ghost use Rattle.std.specs.Prelude.{◌≡◌, []};
ghost use Rattle.lists.specs.Items.{items_of, room_of};

use super::Filled;

impl<'a, R> Filled<'a, R> {
    // A list with no record.
    pub fn new(room: &'a mut [R]) -> Filled<'a, R>
        ensures items { items_of result ≡ [] }
        ensures room { room_of result ≡ room.old }
        ensures lender { result.room.ghost_name ≡ room.entry.ghost_name }
    {
        Filled { room, len: 0 }
    }

    // Drops every record. The memory stays as it is.
    pub fn clear(&mut self)
        ensures items { items_of self.new ≡ [] }
        ensures room { room_of self.new ≡ room_of self.old }
        ensures lender { self.new.room.ghost_name ≡ self.old.room.ghost_name }
    {
        self.len = 0;
    }

    // The lent memory, given back.
    pub fn into_room(self) -> &'a mut [R]
        ensures room { result.now ≡ room_of self.entry }
        ensures lender { result.ghost_name ≡ self.entry.room.ghost_name }
    {
        let Filled { room, len: _ } = self;
        room
    }
}
