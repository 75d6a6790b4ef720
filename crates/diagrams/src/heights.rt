// The levels of pairs, kept as a table.
ghost use Rattle.std.specs.Prelude.{◌≡◌};
ghost use Rattle.orders.specs.Chains.{Pair};
ghost use Rattle.diagrams.specs.Level.{level};

// For each x from 2 to 16, the levels of (x, 1), (x, 2), .. (x, x - 1).
const LEVELS: [u8; 120] = [
    1, 3, 2, 6, 5, 4, 10, 9, 8, 7, 15, 14, 13, 12, 11, 21, 20, 19, 18, 17, 16, 28, 27, 26, 25, 24,
    23, 22, 36, 35, 34, 33, 32, 31, 30, 29, 45, 44, 43, 42, 41, 40, 39, 38, 37, 55, 54, 53, 52, 51,
    50, 49, 48, 47, 46, 66, 65, 64, 63, 62, 61, 60, 59, 58, 57, 56, 78, 77, 76, 75, 74, 73, 72, 71,
    70, 69, 68, 67, 91, 90, 89, 88, 87, 86, 85, 84, 83, 82, 81, 80, 79, 105, 104, 103, 102, 101,
    100, 99, 98, 97, 96, 95, 94, 93, 92, 120, 119, 118, 117, 116, 115, 114, 113, 112, 111, 110,
    109, 108, 107, 106,
];

// The level of (x, y), by which nodes stand over one another. What is no pair of pieces x > y has level 0.
pub fn level(x: u8, y: u8) -> u8
    ensures pair { Pair x y → result ≡ level x y }
    ensures other { (Pair x y → ⊥) → result ≡ 0 }
{
    if y == 0 || y >= x || x > 16 {
        return 0;
    }
    let before = (x - 1) * (x - 2) / 2;
    LEVELS[(before + (y - 1)) as usize]
}
