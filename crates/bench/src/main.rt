// Finds among 2,046 nodes: from the front, and by hash. Given the word `time`, it also says how long a find takes.
#![tactic(auto)]

ghost use Rattle.std.specs.Prelude.{◌≤◌};

use diagrams::{Branch, Node};
use std::time::Instant;
use std::{env, io};
use tables::{ROOM, Table};

mod sample;
mod search;

// How often each search runs over all nodes when it is timed.
const LINEAR_ROUNDS: u32 = 100;

const HASHED_ROUNDS: u32 = 10000;

// Whether the program was given the word `time`.
fn asked_for_time(rt: &HostRuntime) -> io::Result<bool> {
    Ok(env::args(rt)?.any(|word| word.as_str() == "time"))
}

// Says how many nanoseconds a search takes for a find.
fn time_one<F: Fn(Branch) -> Option<u32>>(
    rt: &HostRuntime,
    name: &str,
    nodes: &[Node],
    rounds: u32,
    shift: u32,
    find: F,
) -> io::Result<()>
    requires few { rounds ≤ 10000 }
    requires callable { F.IsAlwaysCallable find }
{
    let start = Instant::now(rt)?;
    let hits = search::hits(nodes, rounds, shift, find);
    let finds = rounds * ROOM as u32;
    let took = start.elapsed(rt)?.as_secs_f64() * 1e9 / f64::from(finds);
    println!(rt; "{name}: {took} ns a find, {hits} of {finds} hit")
}

// Says it of both searches.
fn time(rt: &HostRuntime, table: &Table, shift: u32) -> io::Result<()> {
    let nodes = table.nodes();
    time_one(rt, "linear", nodes, LINEAR_ROUNDS, shift, |branch| {
        search::linear(table, branch)
    })?;
    time_one(rt, "hashed", nodes, HASHED_ROUNDS, shift, |branch| {
        search::hashed(table, branch)
    })
}

fn main(rt: HostRuntime) -> io::Result<()> {
    let mut table = Table::new();
    sample::fill(&mut table);
    let len = table.len();
    let finds = 2 * len;
    let agreed = search::agreed(&table);
    println!(rt; "{len} nodes; {agreed} of {finds} finds agree")?;
    if asked_for_time(&rt)? {
        time(&rt, &table, 0)?;
        time(&rt, &table, 2048)?;
    }
    Ok(())
}
