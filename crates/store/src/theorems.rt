// What holds are good for, as a contract that the crate has to meet.
ghost use Rattle.diagrams.specs.Moves.{Moves};
ghost use Rattle.store.specs.Holding.{HoldsStand};

// A hold that was given is the store's, over every sweep, until it is given back, which is never declined.
pub fn holds_stand() -> bool
    ensures { (g : Moves) → HoldsStand g }
{
    true
}
