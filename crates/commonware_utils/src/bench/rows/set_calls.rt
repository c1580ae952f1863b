//! Sets: look-ups, walks, texts and sizes.
use crate::bench::rows::sets::{set_of, with_empty};
use crate::bench::{is_debugged_as, is_shown_as};
use crate::ordered::Set;
use crate::{Participant, TryFromIterator};
use std::alloc::Global;
use std::fmt;
use std::process::Abort;

/// Items, and their places in {1, 3, 5, 9}.
static PLACES: [(u8, Option<usize>); 6] = [
    (1, Some(0)),
    (9, Some(3)),
    (5, Some(2)),
    (4, None),
    (10, None),
    (0, None),
];

/// {1, 3, 5, 9}
fn odds(rt: &impl Abort, alloc: Global) -> Set<u8, Global> {
    Set::from_iter_dedup(alloc, [1u8, 3, 5, 9]).expect(rt, "memory")
}

#[test]
fn equal_items_are_found(rt: HostRuntime) {
    let set = odds(&rt, rt.alloc());
    for (item, place) in &PLACES {
        assert!(rt; set.position(item) == *place && set.contains(item) == place.is_some());
    }
    let none: Set<u8, Global> = Set::empty(rt.alloc());
    assert!(rt; none.position(&0) == None && !none.contains(&0));
}

/// Whether the set is {1, 3, 5, 9} by its ranges and its positions.
fn has_odds(set: &Set<u8, Global>) -> bool {
    set.len() == 4
        && set.slice(1..3) == [3u8, 5].as_slice()
        && set.slice(2..2) == [0u8; 0].as_slice()
        && set.slice(0..4) == set.as_slice()
        && set[0] == 1
        && set[2] == 5
        && set[3] == 9
}

#[test]
fn ranges_and_positions_are_read(rt: HostRuntime) {
    assert!(rt; has_odds(&odds(&rt, rt.alloc())));
}

/// Steps over {1, 3, 5}: whether from the back, the item that comes, and how many are left.
static STEPS: [(bool, Option<u8>, usize); 5] = [
    (true, Some(5), 2),
    (false, Some(1), 1),
    (false, Some(3), 0),
    (true, None, 0),
    (false, None, 0),
];

/// Whether a walk over the set, from both ends, takes the steps.
fn is_walked(set: &Set<u8, Global>) -> bool {
    let mut lent = set.into_iter();
    if lent.len() != 3 {
        return false;
    }
    for (from_back, expected, left) in &STEPS {
        let item = if *from_back {
            lent.next_back()
        } else {
            lent.next()
        };
        if item != expected.as_ref() || lent.len() != *left {
            return false;
        }
    }
    true
}

#[test]
fn a_set_is_walked_from_both_ends(rt: HostRuntime) {
    let set = Set::from_iter_dedup(rt.alloc(), [5u8, 1, 3]).expect(&rt, "memory");
    assert!(rt; is_walked(&set));
}

#[test]
fn a_set_is_given_away_from_both_ends(rt: HostRuntime) {
    let set = Set::from_iter_dedup(rt.alloc(), [5u8, 1, 3]).expect(&rt, "memory");
    let mut given = set.into_iter();
    assert!(rt; given.len() == 3);
    for (from_back, expected, left) in &STEPS {
        let item = if *from_back {
            given.next_back()
        } else {
            given.next()
        };
        assert!(rt; item == *expected && given.len() == *left);
    }
}

/// Numbers, some of them more than once.
static NUMBERS: [u32; 12] = [1, 3, 2, 5, 4, 3, 1, 7, 9, 6, 8, 4];

/// The same in order, and each once.
static IN_ORDER: [u32; 9] = [1, 2, 3, 4, 5, 6, 7, 8, 9];

/// Whether the items that the set's iterator gives are those in order.
fn gives_items_in_order(rt: &impl Abort, alloc: Global, sorted: &Set<u32, Global>) -> bool {
    let walked: Vec<u32> = sorted.iter().copied().collect(alloc).expect(rt, "memory");
    walked.as_slice() == IN_ORDER.as_slice()
}

/// Whether the set has the items in order, each at its position.
fn has_items_in_order(sorted: &Set<u32, Global>) -> bool {
    sorted.as_slice() == IN_ORDER.as_slice()
        && sorted.len() == 9
        && !sorted.is_empty()
        && sorted.get(0) == Some(&1)
        && sorted.get(8) == Some(&9)
        && sorted.get(9) == None
}

/// The sum of the items that a loop over the set borrows.
fn sum_of(sorted: &Set<u32, Global>) -> u32 {
    let mut sum = 0u32;
    for item in sorted {
        sum = sum.saturating_add(*item);
    }
    sum
}

#[test]
fn test_sorted_unique_construct_unseal(rt: HostRuntime) {
    let sorted = Set::from_iter_dedup(rt.alloc(), NUMBERS.iter().copied()).expect(&rt, "memory");
    assert!(rt;
        gives_items_in_order(&rt, rt.alloc(), &sorted)
            && has_items_in_order(&sorted)
            && sum_of(&sorted) == 45
    );
    let unsealed: Vec<u32> = sorted.into();
    assert!(rt; unsealed.as_slice() == IN_ORDER.as_slice());
}

/// A number whose text has a name before it.
#[derive(PartialEq, Eq, PartialOrd, Ord, Drop)]
struct Example(u8);

impl fmt::Display for Example {
    fn fmt<W: fmt::Write>(&self, f: &mut fmt::Formatter<W>) -> fmt::Result {
        let number = self.0;
        write!(f, "ex({number})")
    }
}

/// The set of the examples of these numbers.
fn examples(rt: &impl Abort, alloc: Global, numbers: &[u8]) -> Set<Example, Global> {
    let mut items = Vec::new(alloc);
    for number in numbers {
        items.push(Example(*number)).expect(rt, "memory");
    }
    Set::try_from_iter(alloc, items).expect(rt, "memory")
}

#[test]
fn test_sorted_unique_display(rt: HostRuntime) {
    let alloc = rt.alloc();
    let text = "[ex(1), ex(2), ex(3), ex(4), ex(5), ex(6), ex(7), ex(8), ex(9)]";
    let sorted = examples(&rt, alloc, &[1, 2, 3, 4, 5, 6, 7, 8, 9]);
    assert!(rt; is_shown_as(alloc, &sorted, text));
    let three = examples(&rt, alloc, &[1, 2, 3]);
    assert!(rt; is_shown_as(alloc, &three, "[ex(1), ex(2), ex(3)]"));
}

/// Whether the set, which is empty, has the texts of one.
fn has_empty_texts(alloc: Global, none: &Set<u8, Global>) -> bool {
    is_shown_as(alloc, none, "[]") && is_debugged_as(alloc, none, "Set([])")
}

/// Whether a set of sets of participants has its text.
fn nest_has_text(rt: &impl Abort, alloc: Global) -> bool {
    let one = Set::from_iter_dedup(alloc, [Participant::new(1000)]).expect(rt, "memory");
    is_shown_as(alloc, &with_empty(rt, alloc, one), "[[], [1000]]")
}

#[test]
fn sets_have_texts(rt: HostRuntime) {
    let alloc = rt.alloc();
    assert!(rt; has_empty_texts(alloc, &Set::empty(alloc)));
    assert!(rt; is_debugged_as(alloc, &set_of(&rt, alloc, &[2, 1]), "Set([1, 2])"));
    assert!(rt; nest_has_text(&rt, alloc));
}

#[test]
fn sizes_are_bounded(rt: HostRuntime) {
    assert!(rt;
        Set::<u8, Global>::max_encode_size(0) == 1
            && Set::<u8, Global>::max_encode_size(3) == 4
            && Set::<u8, Global>::max_encode_size(200) == 202
            && Set::<Participant, Global>::max_encode_size(128) == 642
    );
}
