// Nodes by their numbers and their values, for what is built on the store.
ghost use Rattle.std.specs.Prelude.{◌≡◌, ◌≤◌, length, MatchResult};
ghost use Rattle.diagrams.specs.Bodies.{row};
ghost use Rattle.diagrams.specs.Table.{Sound};
ghost use Rattle.store.specs.Views.{view};
ghost use Rattle.store.specs.Questions.{answered, number_asked};
ghost use Rattle.store.specs.Steps.{adds};
ghost use Rattle.store.specs.Standing.{Stands, Falls};
ghost use Rattle.store.specs.Does.{Does, handle_reply};

use super::Store;
use crate::shapes::Handle;
use caches::Cache;
use diagrams::{Branch, Node};
use lists::NodeLine;
use orders::{Chain, Refusal};

impl<G: Chain, C: Cache> Store<G, C> {
    // The node of a number. 0 and 1 have no node; what stands for one has x, y and its parts 0, and 0 or 1 orders.
    pub fn node(&self, number: u32) -> Result<Node, Refusal>
        ensures { result ≡ answered (number_asked (view self.now) number) (row (view self.now).nodes number) }
    {
        if !self.engine.table().exists(number) {
            return Err(Refusal::NoSuchNumber);
        }
        Ok(self.engine.table().get(number))
    }

    // All nodes in the order of their numbers, the first of which is 2.
    pub fn nodes(&self) -> &[Node]
        ensures is { result.now ≡ (view self.now).nodes }
        ensures sound { Sound result.now }
        ensures few { length result.now ≤ 2046 }
    {
        self.engine.table().nodes()
    }

    // The branch that four values make of a node that may stand in the store; refused by 16 where they make none.
    fn branch_of(&self, line: NodeLine) -> Result<Branch, Refusal>
        ensures { MatchResult result (Stands (view self.now) line) (Falls (view self.now) line) }
    {
        let branch = Branch::try_from(line)?;
        if !self.engine.table().may_stand(self.plan.pieces(), branch) {
            return Err(Refusal::BadNode);
        }
        Ok(branch)
    }

    // The node with these four values, found or added.
    pub fn add(&mut self, line: NodeLine) -> Result<Handle, Refusal>
        ensures { Does self.old (adds line.x line.y line.lo line.hi) self.new (handle_reply result) 0 }
    {
        let branch = self.branch_of(line)?;
        let number = self.engine.add(branch)?;
        Ok(self.handle(number))
    }
}
