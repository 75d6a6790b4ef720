// The agreement of stores, as a contract that the crate has to meet.
ghost use Rattle.catalogue.specs.Agreement.{Agreement};

use caches::Cache;
use orders::Chain;

// After any list of calls, of every chain and of stores with any two caches: equal handles mean the same orders, stores
// begun alike reply the same and are the same whatever their caches, and equal sheets mean the same orders.
pub fn agreement_stands<G: Chain, C: Cache, D: Cache>() -> bool
    ensures { Agreement G C D G.Chain C.Cache D.Cache }
{
    true
}
