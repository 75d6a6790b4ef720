// A hold on a peg of a store.
ghost use Rattle.std.specs.Prelude.{◌≡◌, ◌≤◌};

use orders::Refusal;

// What keeps a set on its peg over sweeps. It must be given back, by `release` or by `give_back`: letting it go is refused, since its `drop`
// asks for what nobody can show. Every hold is on one of the 64 pegs, 0 to 63: only a store makes holds.
pub struct Hold {
    pub(crate) mark: u32,
    pub(crate) peg: u64,
}

impl Drop for Hold {
    fn drop(self)
        requires { 64 ≤ self.peg }
    {
        let Hold { mark: _, peg: _ } = self;
    }
}

impl Hold {
    // The mark of the store that gave it.
    pub fn mark(&self) -> u32
        ensures { result ≡ self.now.mark }
    {
        self.mark
    }

    // The hold is spent; its peg.
    pub(crate) fn spend(self) -> u64
        ensures { result ≡ self.peg }
    {
        let Hold { mark: _, peg } = self;
        peg
    }

    // Its peg.
    pub fn peg(&self) -> u64
        ensures { result ≡ self.now.peg }
    {
        self.peg
    }
}

// A release that was declined hands the hold back.
pub struct Returned {
    pub refusal: Refusal,
    pub hold: Hold,
}
