// What is asked of a store in a list, and what it answers.
use lists::NodeLine;
use orders::{Order, Refusal};
use sheets::Fault;
use store::{Found, Handle, SetCall};

// A set by its handle, as somebody names it: any two numbers, and so no `Handle`: only `known` makes one of them.
#[derive(Clone, Copy)]
pub struct Name {
    pub season: u64,
    pub number: u64,
}

// A hold by its mark and its peg, as somebody names it: any two numbers, and so no `Hold`: only the rack has those.
#[derive(Clone, Copy)]
pub struct Claim {
    pub mark: u64,
    pub peg: u64,
}

// A call that works out a set, with what somebody names: any numbers.
pub type Asked = SetCall<Name, u64>;

// One call of a list.
#[derive(Drop)]
pub enum Request {
    Work(Asked),
    // a node to be found or added
    Add(NodeLine),
    // a set and the peg that it is put on
    Hold(Name, u64),
    Release(Claim),
    Sweep,
    // the bytes of a sheet
    Read(Vec<u8>),
    // how many nodes stand
    Len,
    Count(Name),
    // the order with the number
    Fetch(Name, u64),
    // the number of the order
    Place(Name, Order),
    // the handle of the set that is held
    Held(Claim),
    // the sheet of the set
    Write(Name),
}

// What a call answered, or why it was declined.
#[derive(Drop)]
pub enum Answer {
    Worked(Result<Found<Handle>, Refusal>),
    Added(Result<Handle, Refusal>),
    Held(Result<Claim, Refusal>),
    // a release that is declined tells the hold: whoever has it keeps it
    Released(Result<(), (Refusal, Claim)>),
    // how many nodes are left
    Swept(Result<usize, Refusal>),
    Read(Result<Handle, Fault>),
    Standing(usize),
    Counted(Result<u64, Refusal>),
    Fetched(Result<Order, Refusal>),
    Placed(Result<Option<u64>, Refusal>),
    Handled(Result<Handle, Refusal>),
    // the bytes of the sheet
    Written(Result<Vec<u8>, Refusal>),
}
