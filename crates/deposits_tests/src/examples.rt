// Sheets, good and damaged.
use caches::{Blank, Cache, Slots};
use deposits::{read, write};
use orders::{Chain, Order, Swap};
use sheets::Part;
use std::test::Fail;
use store::{Handle, Plan, Store};

// The sheet of all orders of three pieces, by swaps.
const SIX: &[u8] = b"chain nodes orders\n1 3 6\nx y lo hi\n2 1 1 1\n3 2 2 2\n3 1 3 2\n";

// A plan in season 7 with mark 5.
fn plan(pieces: u64, capacity: u64) -> Result<Plan, Fail> {
    Ok(Plan::new(pieces, capacity, 7, 5)?)
}

// The order of a row of three.
fn order(a: u8, b: u8, c: u8) -> Result<Order, Fail> {
    Ok(Order::from_row([a, b, c, 0, 0, 0, 0, 0, 0, 0, 0, 0, 0, 0, 0, 0], 3)?)
}

// All orders of three pieces.
fn all_six<G: Chain, C: Cache>(store: &mut Store<G, C>) -> Result<Handle, Fail> {
    let first = store.single(order(2, 1, 3)?)?;
    let second = store.single(order(1, 3, 2)?)?;
    let standing = store.standing_set();
    let two = store.join(standing, first.set)?;
    let three = store.join(two.set, second.set)?;
    let five = store.follow(three.set, three.set)?;
    let six = store.follow(five.set, three.set)?;
    Ok(six.set)
}

// Whether a store of so many pieces and nodes refuses the sheet by this number, with this line and part.
// By number: the numbers are fixed, and files tell refusals by them.
fn refused(
    text: &[u8],
    pieces: u64,
    capacity: u64,
    number: u8,
    line: u64,
    part: Part,
) -> Result<bool, Fail> {
    let mut store = Store::begin(plan(pieces, capacity)?, Swap, Blank);
    Ok(read(&mut store, text).is_err_and(|fault| {
        fault.refusal.number() == number && fault.line == line && fault.part == part
    }))
}

#[test]
fn a_set_is_written_and_read_into_another_store(rt: HostRuntime) -> Result<(), Fail> {
    let mut store = Store::begin(plan(3, 20)?, Swap, Slots::new());
    let six = all_six(&mut store)?;
    let mut page = [7; 59];
    assert!(rt; write(&store, six, &mut page)? == 59);
    assert!(rt; &page[..] == SIX);
    let mut long = [7; 80];
    assert!(rt; write(&store, six, &mut long)? == 59);
    assert!(rt; long[58] == 10 && long[59] == 7);
    let mut other = Store::begin(plan(4, 3)?, Swap, Blank);
    let again = read(&mut other, &page)?;
    assert!(rt; other.count(again)? == 6);
    let mut second = [7; 59];
    assert!(rt; write(&other, again, &mut second)? == 59);
    assert!(rt; &second[..] == SIX);
    Ok(())
}

#[test]
fn a_short_page_is_left_as_it_was(rt: HostRuntime) -> Result<(), Fail> {
    let mut store = Store::begin(plan(3, 20)?, Swap, Blank);
    let six = all_six(&mut store)?;
    let mut page = [7; 58];
    assert!(rt; write(&store, six, &mut page).is_err_and(|refusal| refusal.number() == 13));
    assert!(rt; page[0] == 7);
    Ok(())
}

#[test]
fn damaged_sheets_are_refused(rt: HostRuntime) -> Result<(), Fail> {
    assert!(rt; refused(b"", 3, 20, 14, 1, Part::Line)?);
    assert!(rt;
        refused(
            b"chain nodes orders\n2 0 1\nx y lo hi\n",
            3,
            20,
            15,
            2,
            Part::Sheet
        )?
    );
    assert!(rt;
        refused(
            b"chain nodes orders\n1 0 2\nx y lo hi\n",
            3,
            20,
            18,
            2,
            Part::Sheet
        )?
    );
    assert!(rt;
        refused(
            b"chain nodes orders\n1 1 2\nx y lo hi\n258 1 1 1\n",
            3,
            20,
            16,
            4,
            Part::Line
        )?
    );
    assert!(rt;
        refused(
            b"chain nodes orders\n1 1 2\nx y lo hi\n2 1 1 1\n\n",
            3,
            20,
            14,
            5,
            Part::Line
        )?
    );
    assert!(rt;
        refused(
            b"chain nodes orders\n1 1 2\nx y lo hi\n2 1 1 1",
            3,
            20,
            14,
            4,
            Part::Line
        )?
    );
    assert!(rt;
        refused(
            b"chain nodes orders\n1 2 2\nx y lo hi\n2 1 1 1\n3 1 1 1\n",
            3,
            20,
            17,
            4,
            Part::Sheet
        )?
    );
    assert!(rt; refused(SIX, 3, 2, 7, 6, Part::Store)?);
    Ok(())
}
