// The hash of a node's branch.
ghost use Rattle.std.specs.Prelude.{◌≡◌, ◌<◌};
ghost use Rattle.tables.specs.Hashing.{bucket as bucket_of};

use super::BUCKETS;
use diagrams::Branch;
use hashing::stir;

// Puts the pair (x, y) above the numbers that are stirred in.
const ABOVE: u64 = 4294967296;

// The bucket that a branch falls into.
pub fn bucket(branch: Branch) -> usize
    ensures is { result ≡ bucket_of branch.x branch.y branch.lo branch.hi }
    ensures below { result < 4096 }
{
    let pair = (u64::from(branch.x) * 256 + u64::from(branch.y)) * ABOVE;
    let mixed = stir::<29>(stir::<29>(pair, u64::from(branch.lo)), u64::from(branch.hi));
    mixed as usize % BUCKETS
}
