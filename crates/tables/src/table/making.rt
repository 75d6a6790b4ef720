// The rule `node`: a node is found or made.
ghost use Rattle.std.specs.Prelude.{◌≡◌, ℕ, suc, ◌<◌, ◌≤◌, [], ◌∷◌, ◌++◌, length};
ghost use Rattle.diagrams.specs.Table.{Sound};
ghost use Rattle.diagrams.specs.Rules.{Asks, node as node_rule};
ghost use Rattle.tables.specs.Rows.{rows, Makes};

use super::Table;
use super::buckets::bucket;
use diagrams::{Branch, Node};
use orders::Refusal;

impl Table {
    // Puts a node at the end and at the head of its bucket's chain, and answers its number.
    fn push(&mut self, node: Node) -> u32
        requires room { length (rows self.old) < 2046 }
        requires sound { Sound (rows self.old ++ (node ∷ [])) }
        ensures rows { rows self.new ≡ rows self.old ++ (node ∷ []) }
        ensures number { result ≡ suc (suc (length (rows self.old))) }
    {
        let i = self.len;
        let number = i as u16 + 2;
        let b = bucket(node.branch());
        self.nodes[i] = node;
        self.next[i] = self.heads[b];
        self.heads[b] = Some(number);
        self.len = i + 1;
        u32::from(number)
    }

    // The number of the node with this branch, which is made if there is none and there are less than `capacity`.
    pub fn node(&mut self, capacity: usize, branch: Branch) -> Result<u32, Refusal>
        requires capacity { capacity ≤ 2046 }
        requires asks { Asks (rows self.old) branch.x branch.y branch.lo branch.hi }
        ensures { (n : ℕ) → Makes (node_rule capacity (rows self.old) branch.x branch.y branch.lo branch.hi n) (rows self.new) n result }
    {
        let Branch { x, y, lo, hi } = branch;
        if hi == 0 {
            return Ok(lo);
        }
        if let Some(number) = self.find(branch) {
            return Ok(number);
        }
        if capacity <= self.len {
            return Err(Refusal::NoRoom);
        }
        let orders = self.get(lo).orders + self.get(hi).orders;
        let node = Node {
            x,
            y,
            lo,
            hi,
            orders,
        };
        Ok(self.push(node))
    }
}
