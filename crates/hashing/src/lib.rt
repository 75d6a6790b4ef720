// Numbers stirred into a hash.
#![tactic(auto)]

ghost use Rattle.std.specs.Prelude.{◌≡◌};
ghost use Rattle.hashing.specs.Stirring.{stirred};

// An odd number near 2^64 over the golden ratio.
const SPREAD: u64 = 0x9e37_79b9_7f4a_7c15;

// One more number stirred into a hash: a product by SPREAD, turned left by TURN so that its high bits come low.
pub fn stir<const TURN: u32>(hash: u64, number: u64) -> u64
    ensures { result ≡ stirred TURN hash number }
{
    (hash ^ number).wrapping_mul(SPREAD).rotate_left(TURN)
}
