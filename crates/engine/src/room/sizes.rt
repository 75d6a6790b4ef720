// The sizes that a room may have.
ghost use Rattle.std.specs.Prelude.{◌≡◌};
ghost use Rattle.engine.specs.Rooms.{Sized};

use super::Room;
use tables::ROOM;

impl Room {
    // Room for that many nodes, or none where a table cannot have so many.
    pub fn new(nodes: usize) -> Option<Room>
        ensures { Sized nodes result }
    {
        if nodes > ROOM {
            return None;
        }
        Some(Room { nodes })
    }

    // How many nodes there is room for.
    pub fn nodes(self) -> usize
        ensures { result ≡ self.nodes }
    {
        self.nodes
    }
}
