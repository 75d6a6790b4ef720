// The account of one order, as text.
ghost use Rattle.std.specs.Prelude.{Some};
ghost use Rattle.orders.specs.Factors.{pairs_in};
ghost use Rattle.factors.specs.Account.{factors_text, account};

use orders::{Order, Rotation, Swap, factors};
use std::fmt;

// A row of factors, shown from the highest piece down, each as ` (x,y)`, or ` none`.
#[derive(Clone, Copy)]
struct Factors {
    row: [u8; 16],
}

impl fmt::Display for Factors {
    ghost output = { λ shown. Some (factors_text (pairs_in shown.row 16)) };

    fn fmt<W: fmt::Write>(&self, f: &mut fmt::Formatter<W>) -> fmt::Result {
        let mut none = true;
        for (j, y) in self.row.iter().enumerate().rev() {
            let x = j + 1;
            if (*y as usize) < x {
                write!(f, " ({x},{y})")?;
                none = false;
            }
        }
        if none {
            write!(f, " none")?;
        }
        Ok(())
    }
}

// An order, shown as its dimension and its factors by both chains.
#[derive(Clone, Copy)]
pub struct Described {
    pub order: Order,
}

impl fmt::Display for Described {
    ghost output = { λ shown. Some (account shown.order) };

    fn fmt<W: fmt::Write>(&self, f: &mut fmt::Formatter<W>) -> fmt::Result {
        let dimension = self.order.dimension();
        let swaps = Factors {
            row: factors::<Swap>(self.order),
        };
        let rotations = Factors {
            row: factors::<Rotation>(self.order),
        };
        write!(
            f,
            "dimension {dimension}; swaps{swaps}; rotations{rotations}"
        )
    }
}
