// A list of records in the front of lent memory.
ghost use Rattle.std.specs.Prelude.{◌≤◌, length};

mod adding;
mod finding;
mod making;
mod reading;

// The records are the first `len` of `room`; what follows them has no meaning.
// The memory is lent, and so of a fixed length, with how many records there are beside it.
#[derive(Drop)]
pub struct Filled<'a, R> {
    room: &'a mut [R],
    len: usize,
    ghost within: { len ≤ length room.now },
}
