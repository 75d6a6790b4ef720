// The filled list on examples.
use crate::list_uses::{placed, two_codes};
use lists::{Filled, NodeLine};
use orders::Refusal;
use std::test::Fail;

const LEAF: NodeLine = NodeLine {
    x: 2,
    y: 1,
    lo: 1,
    hi: 1,
};

#[test]
fn a_record_is_read_and_found_where_it_was_added(rt: HostRuntime) {
    let mut room = [0u64; 4];
    let mut list = Filled::new(&mut room);
    assert_eq!(rt; list.add(30), Ok(0));
    assert_eq!(rt; list.add(40), Ok(1));
    assert_eq!(rt; list.len(), 2);
    assert_eq!(rt; list.read(1), Ok(40));
    assert_eq!(rt; list.find(&40), Some(1));
    assert_eq!(rt; list.find(&50), None);
}

#[test]
fn memory_beyond_the_records_is_neither_read_nor_found(rt: HostRuntime) -> Result<(), Fail> {
    let mut room = [9u64; 4];
    let mut list = Filled::new(&mut room);
    list.add(30)?;
    assert_eq!(rt; list.find(&9), None);
    let refused = list.read(1);
    assert_eq!(rt; refused, Err(Refusal::PastEnd));
    assert_eq!(rt; Refusal::PastEnd.number(), 12);
    Ok(())
}

#[test]
fn a_full_list_refuses_and_keeps_its_records(rt: HostRuntime) -> Result<(), Fail> {
    let mut room = [0u64; 1];
    let mut list = Filled::new(&mut room);
    list.add(30)?;
    assert_eq!(rt; list.add(40), Err(Refusal::NoRoom));
    assert_eq!(rt; Refusal::NoRoom.number(), 7);
    assert_eq!(rt; list.len(), 1);
    assert_eq!(rt; list.read(0), Ok(30));
    Ok(())
}

#[test]
fn a_cleared_list_has_room_again(rt: HostRuntime) -> Result<(), Fail> {
    let mut room = [0u64; 1];
    let mut list = Filled::new(&mut room);
    list.add(30)?;
    list.clear();
    assert_eq!(rt; list.len(), 0);
    assert_eq!(rt; list.add(40), Ok(0));
    Ok(())
}

#[test]
fn the_lender_has_the_records_back(rt: HostRuntime) {
    let mut room = [1u64, 2, 3];
    assert_eq!(rt; two_codes(&mut room, 5, 7), Ok(Some(1)));
    assert_eq!(rt; room[0], 5);
    assert_eq!(rt; room[1], 7);
    assert_eq!(rt; room[2], 3);
}

#[test]
fn a_node_line_that_is_there_is_not_added_again(rt: HostRuntime) {
    let mut room = [LEAF; 2];
    let mut list = Filled::new(&mut room);
    let other = NodeLine { x: 3, ..LEAF };
    assert_eq!(rt; placed(&mut list, LEAF), Ok(0));
    assert_eq!(rt; placed(&mut list, other), Ok(1));
    assert_eq!(rt; placed(&mut list, LEAF), Ok(0));
    assert_eq!(rt; list.len(), 2);
    assert_eq!(rt;
        placed(&mut list, NodeLine { hi: 0, ..LEAF }),
        Err(Refusal::NoRoom)
    );
}

#[test]
fn a_slice_is_added_whole_or_not_at_all(rt: HostRuntime) {
    let mut room = [0u64; 3];
    let mut list = Filled::new(&mut room);
    assert_eq!(rt; list.extend(&[30, 40]), Ok(()));
    assert_eq!(rt; list.extend(&[50, 60]), Err(Refusal::NoRoom));
    assert_eq!(rt; list.len(), 2);
    assert_eq!(rt; list.read(1), Ok(40));
    assert_eq!(rt; list.extend(&[50]), Ok(()));
    assert_eq!(rt; list.read(2), Ok(50));
}

#[test]
fn a_node_line_is_made_of_its_numbers_and_back(rt: HostRuntime) {
    assert!(rt; NodeLine::from([2, 1, 1, 1]) == LEAF);
    let [x, y, lo, hi] = <[u64; 4]>::from(LEAF);
    assert!(rt; x == 2 && y == 1 && lo == 1 && hi == 1);
    assert!(rt; NodeLine::default() == NodeLine::from([0; 4]));
}
