// The search for a node by its branch.
ghost use Rattle.std.specs.Prelude.{◌≡◌};
ghost use Rattle.tables.specs.Rows.{rows, found};

use super::Table;
use super::buckets::bucket;
use diagrams::Branch;

impl Table {
    // The number of the first node with this branch. No two nodes have the same, so the first one met is it.
    pub fn find(&self, branch: Branch) -> Option<u32>
        ensures { result ≡ found (rows self.now) branch.x branch.y branch.lo branch.hi }
    {
        let mut next = self.heads[bucket(branch)];
        while let Some(number) = next {
            let i = number as usize - 2;
            if self.nodes[i].branch() == branch {
                return Some(u32::from(number));
            }
            next = self.next[i];
        }
        None
    }
}
