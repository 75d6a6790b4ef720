// The store.
ghost use Rattle.std.specs.Prelude.{◌≡◌, length};
ghost use Rattle.tables.specs.Rows.{rows};
ghost use Rattle.sweeps.specs.Reaching.{Pegs as Pegged};

use super::plan::Plan;
use caches::Cache;
use engine::Engine;
use orders::Chain;
use sweeps::PEGS;

mod begin;
mod nodes;
mod pegs;
mod questions;
mod reading;
mod sets;
mod sweeping;

// A store over a chain and a cache, both of which it owns. A peg has the number of the set that is held on it.
#[derive(Drop)]
pub struct Store<G: Chain, C: Cache> {
    plan: Plan,
    season: u32,
    pegs: [Option<u32>; PEGS],
    engine: Engine<G, C>,
    ghost long: { length pegs ≡ 64 },
    ghost pegged: { Pegged (rows engine.table) pegs },
    ghost roomed: { engine.room ≡ plan.room },
}
