// The rules for nodes, asked of a branch.
ghost use Rattle.std.specs.Prelude.{◌≡◌};
ghost use Rattle.tables.specs.Rows.{rows};
ghost use Rattle.tables.specs.Rules.{stands};

use super::Table;
use diagrams::{Branch, level};

impl Table {
    // Whether a branch keeps the rules for nodes, x within so many pieces: the table may then be asked for its node.
    pub fn may_stand(&self, pieces: u8, branch: Branch) -> bool
        ensures { result ≡ stands (rows self.now) pieces branch.x branch.y branch.lo branch.hi }
    {
        let Branch { x, y, lo, hi } = branch;
        if x > 16 || x > pieces || y < 1 || y >= x || hi < 1 {
            return false;
        }
        if !self.exists(lo) || !self.exists(hi) {
            return false;
        }
        self.level_of(lo) < level(x, y) && self.get(hi).x < x
    }
}
