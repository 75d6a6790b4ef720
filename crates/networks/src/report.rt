// The figures that the report on permutation decision diagrams printed for these networks.
ghost use Rattle.networks.specs.Report.{Tells};

use crate::growth::Growth;
use std::fmt;

// The figures of one number of pieces.
#[derive(Clone, Copy)]
pub struct Printed {
    pub pieces: u8,
    pub steps: u64,
    pub peak: u64,
    pub last: u64,
    pub orders: u64,
    pub factors: u64,
}

pub const REPORT: [Printed; 4] = [
    Printed {
        pieces: 2,
        steps: 1,
        peak: 1,
        last: 1,
        orders: 2,
        factors: 1,
    },
    Printed {
        pieces: 3,
        steps: 3,
        peak: 3,
        last: 3,
        orders: 6,
        factors: 7,
    },
    Printed {
        pieces: 4,
        steps: 6,
        peak: 9,
        last: 6,
        orders: 24,
        factors: 46,
    },
    Printed {
        pieces: 5,
        steps: 10,
        peak: 27,
        last: 10,
        orders: 120,
        factors: 326,
    },
];

// The first figure that differs from the printed one, or that none does.
#[derive(Clone, Copy, PartialEq, Eq, Debug)]
pub enum Verdict {
    Agrees,
    Steps,
    Peak,
    Last,
    Orders,
    Factors,
}

impl fmt::Display for Verdict {
    fn fmt<W: fmt::Write>(&self, f: &mut fmt::Formatter<W>) -> fmt::Result {
        f.write_str(match self {
            Verdict::Agrees => "agrees",
            Verdict::Steps => "m differs",
            Verdict::Peak => "peak differs",
            Verdict::Last => "final differs",
            Verdict::Orders => "orders differs",
            Verdict::Factors => "factors differs",
        })
    }
}

// What was found for a number of pieces, beside what the report printed.
#[derive(Clone, Copy)]
pub struct Line {
    pub found: Growth,
    pub printed: Printed,
}

impl Line {
    // Nodes are compared as the report counts them, where two sets that differ in the standing order alone share one.
    pub fn verdict(&self) -> Verdict
        ensures { Tells self.now.found self.now.printed result }
    {
        let Line { found, printed } = self;
        if found.steps != printed.steps {
            Verdict::Steps
        } else if found.peak.once != printed.peak {
            Verdict::Peak
        } else if found.last.once != printed.last {
            Verdict::Last
        } else if found.orders != printed.orders {
            Verdict::Orders
        } else if found.factors != printed.factors {
            Verdict::Factors
        } else {
            Verdict::Agrees
        }
    }
}

impl fmt::Display for Line {
    fn fmt<W: fmt::Write>(&self, f: &mut fmt::Formatter<W>) -> fmt::Result {
        let Line { found, printed } = self;
        write!(f, "{} {} {} ", printed.pieces, found.steps, printed.steps)?;
        write!(f, "{} {} ", found.peak, printed.peak)?;
        write!(f, "{} {} ", found.last, printed.last)?;
        write!(f, "{} {} ", found.orders, printed.orders)?;
        write!(f, "{} {} ", found.factors, printed.factors)?;
        write!(f, "{}", self.verdict())
    }
}
