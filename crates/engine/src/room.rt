// How many nodes a table may have.
ghost use Rattle.std.specs.Prelude.{◌≤◌};

mod sizes;

#[derive(Clone, Copy)]
pub struct Room {
    nodes: usize,
    ghost within: { nodes ≤ 2046 },
}
