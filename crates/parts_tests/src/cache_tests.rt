// Both caches on examples, and the spread of the slots.
use caches::{Blank, Cache, Slots, Triple};

const SEVEN: Triple = Triple {
    kind: 1,
    first: 7,
    second: 9,
};

#[test]
fn a_blank_cache_remembers_nothing(rt: HostRuntime) {
    let mut cache = Blank;
    cache.tell(SEVEN, 5);
    assert_eq!(rt; cache.ask(SEVEN), None);
    assert_eq!(rt; Blank::SURE, 0);
}

#[test]
fn slots_surely_remember_the_pair_just_told(rt: HostRuntime) {
    let mut cache = Slots::new();
    assert_eq!(rt; cache.ask(SEVEN), None);
    cache.tell(SEVEN, 5);
    assert_eq!(rt; cache.ask(SEVEN), Some(5));
    assert_eq!(rt; Slots::SURE, 1);
}

#[test]
fn a_triple_told_again_has_the_new_answer(rt: HostRuntime) {
    let mut cache = Slots::new();
    cache.tell(SEVEN, 5);
    cache.tell(SEVEN, 6);
    assert_eq!(rt; cache.ask(SEVEN), Some(6));
}

#[test]
fn kind_first_and_second_tell_triples_apart(rt: HostRuntime) {
    let mut cache = Slots::new();
    cache.tell(SEVEN, 5);
    assert_eq!(rt; cache.ask(Triple { kind: 2, ..SEVEN }), None);
    assert_eq!(rt; cache.ask(Triple { first: 9, ..SEVEN }), None);
    assert_eq!(rt; cache.ask(Triple { second: 7, ..SEVEN }), None);
    assert_eq!(rt; cache.ask(SEVEN), Some(5));
}

#[test]
fn emptied_slots_remember_nothing(rt: HostRuntime) {
    let mut cache = Slots::new();
    cache.tell(SEVEN, 5);
    cache.empty();
    assert_eq!(rt; cache.ask(SEVEN), None);
}

// The i-th pair of a square of 64 by 64, as a triple.
fn in_square(kind: u8, i: u32) -> Triple {
    Triple {
        kind,
        first: u64::from(i / 64),
        second: u64::from(i % 64),
    }
}

// The i-th pair of neighbours, as a triple.
fn neighbours(kind: u8, i: u32) -> Triple {
    let first = u64::from(i);
    Triple {
        kind,
        first,
        second: first.wrapping_add(1),
    }
}

// How many of 4,096 told pairs are left, of those that `made` makes. With 512 slots that is how many slots are filled.
fn filled<F: Fn(u32) -> Triple + Drop>(made: F) -> usize
    requires { F.IsAlwaysCallable made }
{
    let mut cache = Slots::new();
    for i in 0..4096 {
        cache.tell(made(i), i);
    }
    (0..4096).filter(|i| cache.ask(made(*i)).is_some()).count()
}

#[test]
fn of_512_slots_4096_pairs_of_small_numbers_fill_at_least_500(rt: HostRuntime) {
    for kind in 0..8 {
        let square = filled(|i| in_square(kind, i));
        let row = filled(|i| neighbours(kind, i));
        assert!(rt; square >= 500 && square <= 512);
        assert!(rt; row >= 500 && row <= 512);
    }
}
