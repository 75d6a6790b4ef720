// The numbers of one line.
ghost use Rattle.std.specs.Prelude.{◌≡◌, ◌≤◌, length};

mod gathering;

// How many numbers a line may have.
pub const MOST: usize = 16;

// The first `count` values are those of the line; no heap is at hand for a Vec.
#[derive(Clone, Copy)]
pub struct Fields {
    pub values: [u64; MOST],
    pub count: usize,
    ghost long: { length values ≡ 16 },
    ghost few: { count ≤ 16 },
}
