// The theory of numbers as contracts: each function below has a theorem, and so asks for its proof.
ghost use Rattle.numbering.specs.Examples.{ExamplesStand};
ghost use Rattle.numbering.specs.Theorems.{BeforeStands, NumberingStands};

// Coming before, by the factors of every chain, is a strict total order of all orders.
pub fn before_stands() -> bool
    ensures { BeforeStands }
{
    true
}

// In every sound table each number below a set's count is that of exactly one order of the set, and each order of the set has exactly one
// number; the set's orders, those of the low part first, stand in the order of their numbers.
pub fn numbering_stands() -> bool
    ensures { NumberingStands }
{
    true
}

// The worked examples come out as their tables say, by computing the definitions.
pub fn examples_stand() -> bool
    ensures { ExamplesStand }
{
    true
}
