// The law of sweeps as a contract: each function below has a theorem, and so asks for its proof.
ghost use Rattle.sweeps.specs.Examples.{ExamplesStand};
ghost use Rattle.sweeps.specs.Theorems.{SweepStands};

// A swept table is sound. Every number that the pegs reach has a new number there, with the same set of orders by every chain and the same
// count. There is exactly one node for each node that is reached, in the former order, and no other.
pub fn sweep_stands() -> bool
    ensures { SweepStands }
{
    true
}

// The worked examples come out as their table says, by computing the definitions.
pub fn examples_stand() -> bool
    ensures { ExamplesStand }
{
    true
}
