// Why a call is declined. Each refusal has a fixed number, by which files and programs tell it.
ghost use Rattle.std.specs.Prelude.{◌≡◌};
ghost use Rattle.orders.specs.Refusals.{number};

use thiserror::Error;

#[derive(Clone, Copy, PartialEq, Eq, Debug, Error)]
pub enum Refusal {
    #[error("the pieces are not 2 to 16")]
    BadPieces = 1,
    #[error("the capacity is not 1 to 2,046")]
    BadCapacity = 2,
    #[error("a row is not 1 to 16 long, or has not each number from 1 to its length exactly once")]
    BadRow = 3,
    #[error("the handle's season is not the store's")]
    OtherSeason = 4,
    #[error("the handle's number does not exist")]
    NoSuchNumber = 5,
    #[error("a dimension, a piece or a place is not within the store's pieces")]
    OutOfRange = 6,
    #[error("there is no room for a node, or for a list's record")]
    NoRoom = 7,
    #[error("the peg is not one of 0 to 63")]
    NoSuchPeg = 8,
    #[error("the peg is not empty")]
    PegFilled = 9,
    #[error("the hold has not this store's mark and a filled peg")]
    NoSuchHold = 10,
    #[error("the season is the last, and no sweep follows it")]
    LastSeason = 11,
    #[error("a number is not below the count, or a list's place is not filled")]
    PastEnd = 12,
    #[error("a page is not long enough, or what is read is longer than the program's limit")]
    ShortPage = 13,
    #[error("a line has not exactly its names or values, or there are not just as many lines as due")]
    BadLine = 14,
    #[error("the chain is another")]
    OtherChain = 15,
    #[error("the values are not those of a node")]
    BadNode = 16,
    #[error("the visit gives a line another number than its own, or none")]
    Misnumbered = 17,
    #[error("orders is not the root's count")]
    WrongCount = 18,
}

impl Refusal {
    // The refusal's number. A method and no `From`: a call then says what the number is.
    pub fn number(self) -> u8
        ensures { result ≡ number self }
    {
        self as u8
    }
}
