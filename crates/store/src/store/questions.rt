// The questions that a call asks before its work; the first no declines it.
ghost use Rattle.std.specs.Prelude.{◌≡◌, is_ok};
ghost use Rattle.store.specs.Views.{view};
ghost use Rattle.store.specs.Questions.{answered, or_else, handle_asked, order_asked, spot_asked, call_asked, task_of};

use super::Store;
use crate::shapes::{Handle, SetCall};
use caches::Cache;
use diagrams::Task;
use orders::{Chain, Order, Refusal};

impl<G: Chain, C: Cache> Store<G, C> {
    // The number of a handle that the store accepts: its season is the store's, and its number exists.
    pub fn number_of(&self, handle: Handle) -> Result<u32, Refusal>
        ensures { result ≡ answered (handle_asked (view self.now) handle) handle.number }
    {
        if handle.season != self.season {
            return Err(Refusal::OtherSeason);
        }
        if !self.engine.table().exists(handle.number) {
            return Err(Refusal::NoSuchNumber);
        }
        Ok(handle.number)
    }

    // Whether the store accepts a handle.
    pub fn accepts(&self, handle: Handle) -> bool
        ensures { result ≡ is_ok (answered (handle_asked (view self.now) handle) handle.number) }
    {
        self.number_of(handle).is_ok()
    }

    // The numbers of two handles, the first asked first.
    fn numbers_of(&self, first: Handle, second: Handle) -> Result<(u32, u32), Refusal>
        ensures { result ≡ answered (or_else (handle_asked (view self.now) first) (handle_asked (view self.now) second)) (first.number, second.number) }
    {
        let a = self.number_of(first)?;
        let b = self.number_of(second)?;
        Ok((a, b))
    }

    // Whether an order moves no piece beyond the store's.
    fn has_pieces_of(&self, order: Order) -> Result<(), Refusal>
        ensures { result ≡ answered (order_asked (view self.now) order) tt }
    {
        if order.dimension() > self.plan.pieces() {
            return Err(Refusal::OutOfRange);
        }
        Ok(())
    }

    // Whether a piece and a place are the store's.
    fn has_spot(&self, piece: u8, place: u8) -> Result<(), Refusal>
        ensures { result ≡ answered (spot_asked (view self.now) piece place) tt }
    {
        let pieces = self.plan.pieces();
        if piece < 1 || piece > pieces || place < 1 || place > pieces {
            return Err(Refusal::OutOfRange);
        }
        Ok(())
    }

    // The number of a handle that is carried by an order.
    pub(super) fn number_with_order(&self, handle: Handle, order: Order) -> Result<u32, Refusal>
        ensures { result ≡ answered (or_else (handle_asked (view self.now) handle) (order_asked (view self.now) order)) handle.number }
    {
        let number = self.number_of(handle)?;
        self.has_pieces_of(order)?;
        Ok(number)
    }

    // The number of a handle in which a piece is looked for in a place.
    fn number_with_spot(&self, handle: Handle, piece: u8, place: u8) -> Result<u32, Refusal>
        ensures { result ≡ answered (or_else (handle_asked (view self.now) handle) (spot_asked (view self.now) piece place)) handle.number }
    {
        let number = self.number_of(handle)?;
        self.has_spot(piece, place)?;
        Ok(number)
    }

    // The task of a call, once its questions are answered.
    pub(super) fn task_of(&self, call: SetCall<Handle, u8>) -> Result<Task, Refusal>
        ensures { result ≡ answered (call_asked (view self.now) call) (task_of call) }
    {
        match call {
            SetCall::Single(order) => {
                self.has_pieces_of(order)?;
                Ok(Task::Carry(1, order))
            }
            SetCall::Join(a, b) => {
                let (a, b) = self.numbers_of(a, b)?;
                Ok(Task::Join(a, b))
            }
            SetCall::Meet(a, b) => {
                let (a, b) = self.numbers_of(a, b)?;
                Ok(Task::Meet(a, b))
            }
            SetCall::Without(a, b) => {
                let (a, b) = self.numbers_of(a, b)?;
                Ok(Task::Without(a, b))
            }
            SetCall::Carry(a, order) => {
                let a = self.number_with_order(a, order)?;
                Ok(Task::Carry(a, order))
            }
            SetCall::Follow(a, b) => {
                let (a, b) = self.numbers_of(a, b)?;
                Ok(Task::Follow(a, b))
            }
            SetCall::Pick(a, piece, place) => {
                let a = self.number_with_spot(a, piece, place)?;
                Ok(Task::Pick(a, piece, place))
            }
        }
    }
}
