// Networks of exchanges: the orders of n pieces that come of k exchanges of neighbouring places, until nothing new comes.
#![tactic(auto)]

mod growth;
mod report;

use caches::Slots;
use growth::grown;
use orders::Swap;
use report::{Line, Printed, REPORT};
use store::{Plan, Store};
use tables::ROOM;

// The figures of a number of pieces, each beside the printed one.
fn tell(rt: &HostRuntime, printed: Printed) -> anyhow::Result<()> {
    let plan = Plan::new(u64::from(printed.pieces), ROOM as u64, 0, 0)?;
    let mut store = Store::begin(plan, Swap, Slots::new());
    let found = grown(&mut store, printed.pieces)?;
    let line = Line { found, printed };
    println!(rt; "{line}")?;
    Ok(())
}

fn main(rt: HostRuntime) -> anyhow::Result<()> {
    print!(rt; "pieces m m-printed peak peak-once peak-printed ")?;
    print!(rt; "final final-once final-printed ")?;
    println!(rt; "orders orders-printed factors factors-printed verdict")?;
    for printed in REPORT {
        tell(&rt, printed)?;
    }
    Ok(())
}
