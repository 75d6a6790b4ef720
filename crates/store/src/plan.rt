// What a store is begun from.
ghost use Rattle.std.specs.Prelude.{◌≤◌};

use engine::Room;

mod testing;

// A tested plan: 2 to 16 pieces, room for 1 to 2,046 nodes, a first season and a mark.
#[derive(Clone, Copy)]
pub struct Plan {
    pieces: u8,
    room: Room,
    season: u32,
    mark: u32,
    ghost least: { 2 ≤ pieces },
    ghost most: { pieces ≤ 16 },
    ghost some: { 1 ≤ room.nodes },
}
