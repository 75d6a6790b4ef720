// What is wrong with a sheet or a book, and where.
ghost use Rattle.std.specs.Prelude.{◌≡◌, Some};
ghost use Rattle.sheets.specs.declared.fault.Fault.{Fault};
ghost use Rattle.sheets.specs.Faults.{bad_line, part_name, shown};

use orders::Refusal;
use std::error::Error;
use std::fmt;

// Where a fault lies.
#[derive(Clone, Copy, PartialEq, Eq, Debug)]
pub enum Part {
    // in one line by itself
    Line,
    // in the sheet
    Sheet,
    // in the store that the sheet is read into
    Store,
    // in the row book
    Book,
}

// A refusal, the line that it names, counted from 1, and the part.
#[derive(Clone, Copy, PartialEq, Eq, Debug)]
pub struct Fault {
    pub refusal: Refusal,
    pub line: u64,
    pub part: Part,
}

impl Fault {
    pub fn new(refusal: Refusal, line: u64, part: Part) -> Fault
        ensures { ◌≡◌ {A = Fault} result record { refusal = refusal; line = line; part = part } }
    {
        Fault {
            refusal,
            line,
            part,
        }
    }

    // The line has not its names or values, is missing, or is one too many.
    pub fn bad_line(line: u64) -> Fault
        ensures { result ≡ bad_line line }
    {
        Fault::new(Refusal::BadLine, line, Part::Line)
    }
}

impl fmt::Display for Part {
    ghost output = { λ p. Some (part_name p) };

    fn fmt<W: fmt::Write>(&self, f: &mut fmt::Formatter<W>) -> fmt::Result {
        f.write_str(match self {
            Part::Line => "line",
            Part::Sheet => "sheet",
            Part::Store => "store",
            Part::Book => "book",
        })
    }
}

// As line 4 (sheet): refused by 17.
impl fmt::Display for Fault {
    ghost output = { λ f. Some (shown f) };

    fn fmt<W: fmt::Write>(&self, f: &mut fmt::Formatter<W>) -> fmt::Result {
        let line = self.line;
        let part = self.part;
        let number = self.refusal.number();
        write!(f, "line {line} ({part}): refused by {number}")
    }
}

impl Error for Fault {}
