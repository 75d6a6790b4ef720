// A rack of holds, each in the slot with the number of its peg: a slot for each peg.
ghost use Rattle.std.specs.Prelude.{◌≡◌, length};

use store::Hold;

mod ending;
mod slots;

// The holds that a list of requests has in hand.
pub struct Rack {
    slots: Vec<Option<Hold>>,
    ghost long: { length slots.items ≡ 64 },
}
