//! The texts of many items on a writer that takes all.
use commonware_utils::TryFromIterator;
use commonware_utils::ordered::{BiMap, Map, Set};
use std::alloc::Global;
use std::fmt::Display;
use std::process::Abort;

/// How many items there are.
const COUNT: u32 = 5_000;

/// `[`, the texts of the numbers below 5,000 joined by `, `, and `]`.
fn numbers(rt: &impl Abort, alloc: Global) -> String<Global> {
    let mut text = format!(in alloc; "[0").expect(rt, "memory");
    for number in 1..COUNT {
        write!(text, ", {number}").expect(rt, "memory");
    }
    write!(text, "]").expect(rt, "memory");
    text
}

/// The same of the numbers, each in a pair with the one that follows it.
fn pairs(rt: &impl Abort, alloc: Global) -> String<Global> {
    let mut text = format!(in alloc; "[(0, 1)").expect(rt, "memory");
    for number in 1..COUNT {
        write!(text, ", ({number}, {})", number + 1).expect(rt, "memory");
    }
    write!(text, "]").expect(rt, "memory");
    text
}

/// A number below 5,000 in a pair with the one that follows it.
fn pair(number: u32) -> (u32, u32) {
    (number, number.wrapping_add(1))
}

/// Whether the value is shown by this text.
fn is_shown<T: Display>(alloc: Global, value: &T, text: &str) -> bool {
    match format!(in alloc; "{value}") {
        Ok(shown) => shown.as_str() == text,
        Err(_) => false,
    }
}

#[test]
fn many_items_are_shown(rt: HostRuntime) {
    let alloc = rt.alloc();
    let set = Set::try_from_iter(alloc, 0..COUNT).expect(&rt, "a set");
    assert!(rt; is_shown(alloc, &set, &numbers(&rt, alloc)));
    let map = Map::try_from_iter(alloc, (0..COUNT).map(pair)).expect(&rt, "a map");
    assert!(rt; is_shown(alloc, &map, &pairs(&rt, alloc)));
    let bimap = BiMap::try_from_iter(alloc, (0..COUNT).map(pair)).expect(&rt, "a bimap");
    assert!(rt; is_shown(alloc, &bimap, &pairs(&rt, alloc)));
}
