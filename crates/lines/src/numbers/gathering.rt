// Gathering the numbers of a line, one after the other.
ghost use Rattle.std.specs.Prelude.{◌≡◌, ◌≤◌, [], ◌∷◌, ◌++◌, length, MatchOption};
ghost use Rattle.lines.specs.Held.{held};

use super::{Fields, MOST};

impl Fields {
    // No number yet.
    pub fn none() -> Fields
        ensures { held result ≡ [] }
    {
        Fields {
            values: [0; MOST],
            count: 0,
        }
    }

    // These numbers and one more, if there is room.
    pub fn and(self, value: u64) -> Option<Fields>
        ensures { MatchOption result (16 ≤ length (held self)) (λ f. held f ≡ held self ++ value ∷ []) }
    {
        if self.count == MOST {
            return None;
        }
        let mut values = self.values;
        values[self.count] = value;
        Some(Fields {
            values,
            count: self.count + 1,
        })
    }
}
