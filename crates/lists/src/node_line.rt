// The line of a node in a sheet. Here, and not with the sheets, since the store takes such lines too.
ghost use Rattle.std.specs.Prelude.{◌≡◌, [], ◌∷◌};
ghost use Rattle.std.proofs.Common.{rules};

use super::exact::Exact;
use diagrams::Branch;
use orders::Refusal;

#[derive(Clone, Copy, PartialEq, Eq, Default)]
pub struct NodeLine {
    pub x: u64,
    pub y: u64,
    pub lo: u64,
    pub hi: u64,
}

impl Exact for NodeLine {
    ghost same = { Prim.search rules };
}

impl From<[u64; 4]> for NodeLine {
    ghost from_gives = { λ v r. v ≡ r.x ∷ r.y ∷ r.lo ∷ r.hi ∷ [] };

    fn from(values: [u64; 4]) -> NodeLine {
        let [x, y, lo, hi] = values;
        NodeLine { x, y, lo, hi }
    }
}

impl From<NodeLine> for [u64; 4] {
    ghost from_gives = { λ line r. r ≡ line.x ∷ line.y ∷ line.lo ∷ line.hi ∷ [] };

    fn from(line: NodeLine) -> [u64; 4] {
        [line.x, line.y, line.lo, line.hi]
    }
}

// A line's values as those of a node: refused where one of them is larger than any node's.
impl TryFrom<NodeLine> for Branch {
    type Error = Refusal;

    ghost use Rattle.lists.specs.Branches.{Branches};

    ghost try_from_gives = { Branches };

    fn try_from(line: NodeLine) -> Result<Branch, Refusal> {
        // One refusal for all four, so there is no `?` on each.
        match (
            u8::try_from(line.x),
            u8::try_from(line.y),
            u32::try_from(line.lo),
            u32::try_from(line.hi),
        ) {
            (Ok(x), Ok(y), Ok(lo), Ok(hi)) => Ok(Branch { x, y, lo, hi }),
            _ => Err(Refusal::BadNode),
        }
    }
}
