// The account of the lines of the input: one line for each, and how many were orders.
ghost use Rattle.std.specs.Prelude.{◌≡◌, ℕ, ◌+◌, ◌-◌, ◌^◌, List, [], ◌++◌, min, string_bytes, IfOk, OnOk};
ghost use Rattle.factors.specs.Account.{Told, ending};

use crate::rows::order_in;
use crate::text::Described;
use std::alloc::{AllocError, Global};

// How many lines were orders, and how many were refused.
#[derive(Clone, Copy, Default)]
pub struct Tally {
    pub orders: u64,
    pub refused: u64,
}

impl Tally {
    // The number of the line that was counted last, from 1.
    fn lines(&self) -> u64
        ensures { result ≡ min (self.now.orders + self.now.refused) (2 ^ 64 - 1) }
    {
        self.orders.saturating_add(self.refused)
    }

    // One line more is an order; the number of that line.
    pub fn accept(&mut self) -> u64
        ensures tally { self.new ≡ record { orders = min (self.old.orders + 1) (2 ^ 64 - 1); refused = self.old.refused } }
        ensures line { result ≡ min (self.new.orders + self.new.refused) (2 ^ 64 - 1) }
    {
        self.orders = self.orders.saturating_add(1);
        self.lines()
    }

    // One line more is refused; the number of that line.
    pub fn refuse(&mut self) -> u64
        ensures tally { self.new ≡ record { orders = self.old.orders; refused = min (self.old.refused + 1) (2 ^ 64 - 1) } }
        ensures line { result ≡ min (self.new.orders + self.new.refused) (2 ^ 64 - 1) }
    {
        self.refused = self.refused.saturating_add(1);
        self.lines()
    }
}

// What was told of the lines so far.
#[derive(Drop)]
pub struct Account {
    text: String,
    tally: Tally,
}

impl Account {
    // Nothing is told yet.
    pub fn new(heap: Global) -> Account
        ensures text { string_bytes result.text ≡ [] }
        ensures tally { result.tally ≡ record { orders = 0; refused = 0 } }
    {
        Account {
            text: String::new(heap),
            tally: Tally::default(),
        }
    }

    // One line of the account: the order's dimension and factors, or why it is refused.
    pub fn tell(&mut self, line: &[u8]) -> Result<(), AllocError>
        ensures { OnOk result ((told : List ℕ)
            × (string_bytes self.new.text ≡ string_bytes self.old.text ++ told)
            × Told line.now self.old.tally.orders self.old.tally.refused self.new.tally.orders self.new.tally.refused told) }
    {
        match order_in(line) {
            Ok(order) => {
                let number = self.tally.accept();
                let order = Described { order };
                write!(self.text, "{number}: {order}\n")
            }
            Err(refusal) => {
                let number = self.tally.refuse();
                let why = refusal.number();
                write!(self.text, "{number}: refused {why}\n")
            }
        }
    }

    // The whole account, which ends with how many lines were orders.
    pub fn end(self) -> Result<String, AllocError>
        ensures { IfOk result (λ t. string_bytes t ≡ string_bytes self.text ++ ending self.tally.orders self.tally.refused) }
    {
        let Account { mut text, tally } = self;
        let Tally { orders, refused } = tally;
        write!(text, "{orders} orders, {refused} refused\n")?;
        Ok(text)
    }
}
