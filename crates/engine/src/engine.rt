// The engine: a table, and a cache of answers over it.
ghost use Rattle.std.specs.Prelude.{◌≡◌, ℕ, [], IfOk, Some, None};
ghost use Rattle.caches.specs.Recall.{Emptied};
ghost use Rattle.diagrams.specs.declared.Task.TheVariants.{Join};
ghost use Rattle.diagrams.specs.Rules.{Asks, node as node_rule};
ghost use Rattle.diagrams.specs.Script.{answer, make, enter, go};
ghost use Rattle.diagrams.specs.Bodies.{first_of, body};
ghost use Rattle.diagrams.specs.Work.{Valid, task as task_of};
ghost use Rattle.diagrams.specs.Outright.{outright as outright_of, kind_of, right_of};
ghost use Rattle.tables.specs.Rows.{rows, Makes};
ghost use Rattle.engine.specs.Kept.{Kept};
ghost use Rattle.engine.specs.Answers.{As, Does, Forgets, Once};

use super::found::Found;
use super::outright::{key, outright};
use super::plan::{Last, Rest};
use super::planning::plan;
use super::room::Room;
use caches::Cache;
use diagrams::{Branch, Task};
use orders::{Chain, Refusal};
use tables::Table;

// A table with its room, and a cache of answers over it, each of which is right by the chain.
#[derive(Drop)]
pub struct Engine<G: Chain, C: Cache> {
    table: Table,
    room: Room,
    cache: C,
    chain: G,
    ghost kept: { ∥ Kept G.table room.nodes (rows table) (C.recalls cache) ∥₁ },
}

// Each call that changes the engine says that its room stays: that is of two states, and no fact of the type.
impl<G: Chain, C: Cache> Engine<G, C> {
    // An engine with no node, over a cache that is emptied.
    pub fn new(room: Room, chain: G, mut memory: C) -> Engine<G, C>
        ensures room { result.room ≡ room }
        ensures bare { rows result.table ≡ [] }
        ensures emptied { Emptied (C.recalls result.cache) }
    {
        memory.empty();
        Engine {
            table: Table::new(),
            room,
            cache: memory,
            chain,
        }
    }

    // The table, to be read.
    pub fn table(&self) -> &Table
        ensures { result.now ≡ self.now.table }
    {
        &self.table
    }

    // Another table stands in the place of this one, and the cache forgets what it knew.
    pub fn replace(&mut self, fresh: Table)
        ensures table { self.new.table ≡ fresh }
        ensures room { self.new.room ≡ self.old.room }
        ensures emptied { Emptied (C.recalls self.new.cache) }
    {
        self.table = fresh;
        self.cache.empty();
    }

    // The number of the node with this branch, which is made if there is none and there is room.
    pub fn add(&mut self, branch: Branch) -> Result<u32, Refusal>
        requires { Asks (rows self.old.table) branch.x branch.y branch.lo branch.hi }
        ensures rule { (n : ℕ) → Makes (node_rule self.old.room.nodes (rows self.old.table) branch.x branch.y branch.lo branch.hi n) (rows self.new.table) n result }
        ensures room { self.new.room ≡ self.old.room }
        ensures cache { self.new.cache ≡ self.old.cache }
    {
        self.table.node(self.room.nodes(), branch)
    }

    // A task by its rule: outright, or as it is remembered, or worked and told. A task that is entered within another has a
    // smaller measure, and a measure is below 2,600: so fewer tasks than that are ever under way at once, each with at most
    // three small frames on the stack. In practice there are far fewer, since a level is at most 120 and a dimension 16.
    #[cycle(joined_solve_work)]
    pub fn solve(&mut self, task: Task) -> Result<Found<u32>, Refusal>
        requires { Valid (rows self.old.table) task }
        ensures rule { As (Forgets C C.recalls) (task_of G.table self.old.room.nodes (rows self.old.table) task) (rows self.new.table) result }
        ensures room { self.new.room ≡ self.old.room }
        ensures told { IfOk result (λ j. C.SURE ≡ 1 → outright_of task ≡ None → C.recalls self.new.cache (kind_of task) (first_of task) (right_of task) ≡ Some j.set) }
        ensures once { Once (C.recalls self.old.cache (kind_of task) (first_of task) (right_of task)) result }
    {
        if let Some(set) = outright(task) {
            return Ok(Found { set, entries: 1 });
        }
        let triple = key(task);
        if let Some(set) = self.cache.ask(triple) {
            return Ok(Found { set, entries: 1 });
        }
        let found = self.work(task)?;
        self.cache.tell(triple, found.set);
        Ok(Found {
            entries: found.entries.saturating_add(1),
            ..found
        })
    }

    // The rule of a task that is not outright.
    #[cycle(joined_solve_work)]
    fn work(&mut self, task: Task) -> Result<Found<u32>, Refusal>
        requires valid { Valid (rows self.old.table) task }
        requires work { outright_of task ≡ None }
        ensures rule { As (Forgets C C.recalls) (go self.old.room.nodes (task_of G.table self.old.room.nodes) (rows self.old.table) (body G.table (rows self.old.table) task) 0) (rows self.new.table) result }
        ensures room { self.new.room ≡ self.old.room }
    {
        let plan = plan::<G>(&self.table, task);
        let low = self.solve(plan.low)?;
        match plan.rest {
            Rest::Pass => Ok(low),
            Rest::Over(x, y, hi) => {
                let lo = low.set;
                self.made(Branch { x, y, lo, hi }, low.entries)
            }
            Rest::Lift(x, y) => {
                let hi = low.set;
                self.made(Branch { x, y, lo: 0, hi }, low.entries)
            }
            Rest::Then(next, last) => {
                let high = self.solve(next)?;
                let entries = low.entries.saturating_add(high.entries);
                match last {
                    Last::Both(x, y) => {
                        let (lo, hi) = (low.set, high.set);
                        self.made(Branch { x, y, lo, hi }, entries)
                    }
                    Last::Join => self.joined(low.set, high.set, entries),
                    Last::Raise(x, y) => {
                        let hi = high.set;
                        let top = self.add(Branch { x, y, lo: 0, hi })?;
                        self.joined(low.set, top, entries)
                    }
                    Last::Move(order) => {
                        let moved = self.solve(Task::Carry(high.set, order))?;
                        let entries = entries.saturating_add(moved.entries);
                        self.joined(low.set, moved.set, entries)
                    }
                }
            }
        }
    }

    // The last step of a rule that ends in a node, after so many entries.
    fn made(&mut self, branch: Branch, entries: u64) -> Result<Found<u32>, Refusal>
        requires { Asks (rows self.old.table) branch.x branch.y branch.lo branch.hi }
        ensures rule { Does G.table self.old.room.nodes (Forgets C C.recalls) (rows self.old.table) entries (make branch.x branch.y branch.lo branch.hi answer) (rows self.new.table) result }
        ensures room { self.new.room ≡ self.old.room }
    {
        let set = self.add(branch)?;
        Ok(Found { set, entries })
    }

    // The last step of a rule that ends in the join of two answers, after so many entries.
    #[cycle(joined_solve_work)]
    fn joined(&mut self, a: u32, b: u32, entries: u64) -> Result<Found<u32>, Refusal>
        requires { Valid (rows self.old.table) (Join a b) }
        ensures rule { Does G.table self.old.room.nodes (Forgets C C.recalls) (rows self.old.table) entries (enter (Join a b) answer) (rows self.new.table) result }
        ensures room { self.new.room ≡ self.old.room }
    {
        let found = self.solve(Task::Join(a, b))?;
        Ok(Found {
            entries: entries.saturating_add(found.entries),
            ..found
        })
    }
}
