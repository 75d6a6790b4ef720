// Sweeps: what no peg reaches is dropped (garbage collection).
ghost use Rattle.std.specs.Prelude.{OnOk};
ghost use Rattle.caches.specs.Recall.{Emptied};
ghost use Rattle.sweeps.specs.Theorems.{Sweep};
ghost use Rattle.store.specs.Views.{view};
ghost use Rattle.store.specs.Steps.{sweep};
ghost use Rattle.store.specs.Does.{Does, sweep_reply};
ghost use Rattle.store.specs.Holding.{Holds};
ghost use Rattle.store.specs.declared.hold.Hold.{Hold};

use super::Store;
use caches::Cache;
use orders::{Chain, Refusal};
use sweeps::Swept;

impl<G: Chain, C: Cache> Store<G, C> {
    // Drops every node that no peg reaches and numbers the others from 2 in their former order; the cache forgets, and a new
    // season begins, so that older handles are declined. Answers how many nodes are left.
    pub fn sweep(&mut self) -> Result<usize, Refusal>
        ensures does { Does self.old sweep self.new (sweep_reply result) 0 }
        ensures law { OnOk result (Sweep (view self.old).nodes (view self.old).pegs) }
        ensures lasts { (h : Hold) → Holds (view self.old) h → Holds (view self.new) h }
        ensures forgot { OnOk result (Emptied (C.recalls self.new.engine.cache)) }
    {
        if self.season == u32::MAX {
            return Err(Refusal::LastSeason);
        }
        let Swept { table, pegs } = sweeps::sweep(self.engine.table(), self.pegs);
        let left = table.len();
        self.engine.replace(table);
        self.pegs = pegs;
        self.season += 1;
        Ok(left)
    }
}
