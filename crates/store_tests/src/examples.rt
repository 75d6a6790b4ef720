// Sets of small films, worked out by the code.
use caches::{Blank, Cache, Slots};
use lists::NodeLine;
use orders::{Chain, Order, Refusal, Rotation, Swap};
use std::process::Abort;
use std::test::Fail;
use store::{Handle, Plan, Store};

// A plan in season 7 with mark 5.
fn plan(pieces: u64, capacity: u64) -> Result<Plan, Fail> {
    Ok(Plan::new(pieces, capacity, 7, 5)?)
}

// The order of a row of three.
fn order(a: u8, b: u8, c: u8) -> Result<Order, Fail> {
    Ok(Order::from_row([a, b, c, 0, 0, 0, 0, 0, 0, 0, 0, 0, 0, 0, 0, 0], 3)?)
}

// A node's four values.
fn line(x: u64, y: u64, lo: u64, hi: u64) -> NodeLine {
    NodeLine { x, y, lo, hi }
}

// Whether a call is declined by the refusal with this number.
// By number: the numbers are fixed, and files tell refusals by them.
fn is_declined<T: Drop>(res: Result<T, Refusal>, number: u8) -> bool {
    res.is_err_and(|refusal| refusal.number() == number)
}

// The set and one order more.
fn and_order<G: Chain, C: Cache>(
    store: &mut Store<G, C>,
    set: Handle,
    order: Order,
) -> Result<Handle, Fail> {
    let single = store.single(order)?;
    let joined = store.join(set, single.set)?;
    Ok(joined.set)
}

// All orders of three pieces.
fn all_six<G: Chain, C: Cache>(store: &mut Store<G, C>) -> Result<Handle, Fail> {
    let two = store.standing_set();
    let two = and_order(store, two, order(2, 1, 3)?)?;
    let three = and_order(store, two, order(1, 3, 2)?)?;
    let five = store.follow(three, three)?;
    let six = store.follow(five.set, three)?;
    Ok(six.set)
}

// The examples of sets, by any chain and cache.
fn sets_are_right<G: Chain, C: Cache>(
    rt: &impl Abort,
    store: &mut Store<G, C>,
) -> Result<(), Fail> {
    let six = all_six(store)?;
    assert!(rt; store.count(six)? == 6);
    let picked = store.pick(six, 3, 1)?;
    assert!(rt; store.count(picked.set)? == 2);
    let rest = store.without(six, picked.set)?;
    assert!(rt; store.count(rest.set)? == 4);
    let both = store.meet(rest.set, picked.set)?;
    assert!(rt; both.set == store.empty_set());
    Ok(())
}

#[test]
fn a_plan_has_two_to_sixteen_pieces_and_some_room(rt: HostRuntime) {
    assert!(rt; Plan::new(1, 0, 0, 0).is_err());
    assert!(rt; Plan::new(17, 5, 0, 0).is_err());
    assert!(rt; Plan::new(258, 5, 0, 0).is_err());
    assert!(rt; Plan::new(2, 0, 0, 0).is_err());
    assert!(rt; Plan::new(16, 2047, 0, 0).is_err());
    assert!(rt; Plan::new(16, 2046, 0, 0).is_ok());
}

#[test]
fn single_needs_room_for_two_nodes(rt: HostRuntime) -> Result<(), Fail> {
    let mut store = Store::begin(plan(3, 2)?, Swap, Blank);
    let found = store.single(order(3, 1, 2)?)?;
    assert!(rt;
        found.set
            == Handle {
                season: 7,
                number: 3,
            }
    );
    assert!(rt; store.len() == 2);
    Ok(())
}

#[test]
fn without_room_the_nodes_made_so_far_stay(rt: HostRuntime) -> Result<(), Fail> {
    let mut store = Store::begin(plan(3, 1)?, Swap, Slots::new());
    assert!(rt; is_declined(store.single(order(3, 1, 2)?), 7));
    assert!(rt; store.len() == 1);
    let node = store.node(2)?;
    assert!(rt; node.x == 2 && node.y == 1 && node.lo == 0 && node.hi == 1 && node.orders == 1);
    Ok(())
}

#[test]
fn a_swap_carried_by_itself_is_the_standing_order(rt: HostRuntime) -> Result<(), Fail> {
    let mut store = Store::begin(plan(2, 9)?, Rotation, Slots::new());
    let swap = order(2, 1, 3)?;
    let set = store.single(swap)?;
    let carried = store.carry(set.set, swap)?;
    assert!(rt; carried.set == store.standing_set());
    Ok(())
}

#[test]
fn both_chains_and_caches_have_the_same_sets(rt: HostRuntime) -> Result<(), Fail> {
    sets_are_right(&rt, &mut Store::begin(plan(3, 99)?, Swap, Blank))?;
    sets_are_right(&rt, &mut Store::begin(plan(3, 99)?, Swap, Slots::new()))?;
    sets_are_right(&rt, &mut Store::begin(plan(3, 99)?, Rotation, Blank))?;
    sets_are_right(&rt, &mut Store::begin(plan(3, 99)?, Rotation, Slots::new()))
}

#[test]
fn a_carried_upper_branch_is_joined_and_not_put_over_the_lower(
    rt: HostRuntime,
) -> Result<(), Fail> {
    let mut store = Store::begin(plan(3, 99)?, Swap, Slots::new());
    let none = store.empty_set();
    let set = and_order(&mut store, none, order(1, 3, 2)?)?;
    let set = and_order(&mut store, set, order(3, 2, 1)?)?;
    let carried = store.carry(set, order(2, 1, 3)?)?;
    let due = and_order(&mut store, none, order(2, 3, 1)?)?;
    let due = and_order(&mut store, due, order(3, 1, 2)?)?;
    assert!(rt; carried.set == due);
    let root = store.node(due.number)?;
    assert!(rt; root.x == 3 && root.y == 1);
    Ok(())
}

#[test]
fn the_number_of_an_order_fetches_it(rt: HostRuntime) -> Result<(), Fail> {
    let mut store = Store::begin(plan(3, 99)?, Swap, Blank);
    let six = all_six(&mut store)?;
    assert!(rt; store.order_at(six, 4)? == order(3, 2, 1)?);
    assert!(rt; store.place_of(six, order(3, 2, 1)?)? == Some(4));
    assert!(rt; is_declined(store.order_at(six, 6), 12));
    Ok(())
}

#[test]
fn questions_are_asked_in_their_order(rt: HostRuntime) -> Result<(), Fail> {
    let mut store = Store::begin(plan(3, 99)?, Swap, Blank);
    let none = store.empty_set();
    let old = Handle {
        season: 6,
        number: 99,
    };
    let far = Handle {
        season: 7,
        number: 2,
    };
    assert!(rt; is_declined(store.join(old, far), 4));
    assert!(rt; is_declined(store.join(far, old), 5));
    assert!(rt; is_declined(store.join(none, old), 4));
    assert!(rt; is_declined(store.pick(none, 0, 1), 6));
    assert!(rt; is_declined(store.pick(none, 4, 1), 6));
    assert!(rt; is_declined(store.pick(old, 4, 1), 4));
    assert!(rt; !store.accepts(far) && store.accepts(none));
    assert!(rt; store.len() == 0);
    Ok(())
}

#[test]
fn a_sure_cache_answers_the_same_call_with_one_entry(rt: HostRuntime) -> Result<(), Fail> {
    let mut store = Store::begin(plan(3, 99)?, Swap, Slots::new());
    let six = all_six(&mut store)?;
    let first = store.pick(six, 3, 1)?;
    let second = store.pick(six, 3, 1)?;
    assert!(rt; first.entries > 1 && second.entries == 1);
    assert!(rt; first.set == second.set);
    Ok(())
}

#[test]
fn with_a_blank_cache_the_entries_are_the_bare_rules(rt: HostRuntime) -> Result<(), Fail> {
    let mut store = Store::begin(plan(3, 99)?, Swap, Blank);
    let six = all_six(&mut store)?;
    let first = store.pick(six, 3, 1)?;
    let second = store.pick(six, 3, 1)?;
    assert!(rt; first.entries == 11 && second.entries == 11);
    Ok(())
}

#[test]
fn a_node_of_four_values_is_found_or_added(rt: HostRuntime) -> Result<(), Fail> {
    let mut store = Store::begin(plan(3, 99)?, Swap, Blank);
    let two = store.add(line(2, 1, 1, 1))?;
    assert!(rt; store.add(line(2, 1, 1, 1))? == two && store.len() == 1);
    assert!(rt; store.add(line(258, 1, 1, 1)).is_err() && store.add(line(4, 1, 1, 1)).is_err());
    assert!(rt; store.add(line(2, 1, 2, 1)).is_err() && store.add(line(3, 1, 1, 0)).is_err());
    assert!(rt; store.len() == 1);
    Ok(())
}

// A set on a peg, over a sweep: its handle and how many nodes are left.
fn swept_on_peg<G: Chain, C: Cache>(
    store: &mut Store<G, C>,
    set: Handle,
    peg: u64,
) -> Result<(Handle, usize), Refusal> {
    let hold = store.hold(set, peg)?;
    let left = store.sweep();
    let held = store.held(&hold);
    store.give_back(hold);
    let nodes = left?;
    Ok((held?, nodes))
}

// Whether a set cannot be put on a peg, by the refusal with this number; by number here too.
fn not_held<G: Chain, C: Cache>(
    store: &mut Store<G, C>,
    set: Handle,
    peg: u64,
    number: u8,
) -> bool {
    match store.hold(set, peg) {
        Ok(hold) => {
            store.give_back(hold);
            false
        }
        Err(refusal) => refusal.number() == number,
    }
}

#[test]
fn a_held_set_is_the_same_set_after_a_sweep(rt: HostRuntime) -> Result<(), Fail> {
    let mut store = Store::begin(plan(3, 99)?, Swap, Slots::new());
    let six = all_six(&mut store)?;
    let picked = store.pick(six, 3, 1)?;
    let (kept, left) = swept_on_peg(&mut store, picked.set, 63)?;
    assert!(rt; left == 2 && store.len() == 2);
    assert!(rt;
        kept == Handle {
            season: 8,
            number: 3
        }
    );
    assert!(rt; store.count(kept)? == 2);
    assert!(rt;
        store.order_at(kept, 0)? == order(3, 2, 1)? || store.order_at(kept, 1)? == order(3, 2, 1)?
    );
    assert!(rt; !store.accepts(picked.set));
    let again = all_six(&mut store)?;
    assert!(rt; store.count(again)? == 6);
    Ok(())
}

#[test]
fn a_sweep_with_empty_pegs_leaves_nothing(rt: HostRuntime) -> Result<(), Fail> {
    let mut store = Store::begin(plan(3, 99)?, Rotation, Slots::new());
    all_six(&mut store)?;
    assert!(rt; store.sweep()? == 0 && store.len() == 0);
    assert!(rt; store.count(store.standing_set())? == 1);
    Ok(())
}

#[test]
fn the_last_season_is_not_swept(rt: HostRuntime) -> Result<(), Fail> {
    let last = Plan::new(3, 9, u32::MAX, 0)?;
    let mut store = Store::begin(last, Swap, Blank);
    assert!(rt; is_declined(store.sweep(), 11));
    Ok(())
}

#[test]
fn pegs_are_asked_in_their_order(rt: HostRuntime) -> Result<(), Fail> {
    let mut store = Store::begin(plan(3, 99)?, Swap, Blank);
    let none = store.empty_set();
    let old = Handle {
        season: 0,
        number: 0,
    };
    assert!(rt; not_held(&mut store, old, 64, 4));
    assert!(rt; not_held(&mut store, none, 64, 8));
    assert!(rt; !not_held(&mut store, none, 0, 9));
    Ok(())
}
