//! Sets of many items: what is built, and what is refused.
ghost use Rattle.commonware_ordered.specs.Whole.{IsWholeSet};

use crate::ordered::{Error, Set};
use crate::{TryCollect, TryFromIterator};
use std::alloc::{Allocator, Global};
use std::process::Abort;

/// A list with a repeat, a repeat before more items, equal neighbours alone, one item, and a list
/// without a repeat.
static LISTS: [(&[u8], Option<&[u8]>); 6] = [
    (&[3, 1, 2, 2], None),
    (&[7, 7, 5, 1, 9, 3], None),
    (&[4, 4], None),
    (&[9], Some(&[9])),
    (&[3, 1, 2], Some(&[1, 2, 3])),
    (&[], Some(&[])),
];

/// Whether the result is the set of these items, or, for `None`, that two are equal.
fn answers(answer: Result<Set<u8, Global>, Error>, items: Option<&[u8]>) -> bool {
    match (answer, items) {
        (Ok(set), Some(items)) => set.as_slice() == items,
        (Err(Error::DuplicateKey), None) => true,
        _ => false,
    }
}

/// Whether each builder that borrows the list, or takes its items one by one, answers so.
fn builders_answer(alloc: Global, list: &[u8], items: Option<&[u8]>) -> bool {
    answers(Set::try_from_iter(alloc, list.iter().copied()), items)
        && answers(Set::try_from_slice(alloc, list), items)
        && answers(TryCollect::try_collect(list.iter().copied(), alloc), items)
}

#[test]
fn repeats_are_refused_by_each_builder(rt: HostRuntime) {
    let alloc = rt.alloc();
    for (list, items) in &LISTS {
        let whole = Vec::from_slice(alloc, list).expect(&rt, "memory");
        assert!(rt; answers(Set::try_from_vec(whole), *items));
        assert!(rt; builders_answer(alloc, list, *items));
    }
}

/// Whether an array, and a reference to it, give the set of these items.
fn arrays_make<const N: usize>(alloc: Global, list: [u8; N], items: Option<&[u8]>) -> bool {
    answers(Set::try_from_array_ref(alloc, &list), items)
        && answers(Set::try_from_array(alloc, list), items)
}

#[test]
fn arrays_are_cloned_into_sets(rt: HostRuntime) {
    assert!(rt;
        arrays_make(rt.alloc(), [3, 1, 2, 2], None)
            && arrays_make(rt.alloc(), [3, 1, 2], Some(&[1, 2, 3]))
            && arrays_make(rt.alloc(), [], Some(&[]))
    );
}

/// Sets of bytes.
type Sets = Vec<Set<u8, Global>, Global>;

/// Adds the set of these items at the end.
fn push_set(rt: &impl Abort, sets: &mut Sets, items: &[u8]) {
    let set = Set::try_from_slice(*sets.allocator(), items).expect(rt, "memory");
    sets.push(set).expect(rt, "memory");
}

/// Whether the set of clones of these sets is {{1}, {1, 2}}.
fn make_nest(rt: &impl Abort, alloc: Global, sets: &[Set<u8, Global>]) -> bool {
    let nest = Set::try_from_slice(alloc, sets).expect(rt, "memory");
    nest.len() == 2
        && nest[0].as_slice() == [1].as_slice()
        && nest[1].as_slice() == [1, 2].as_slice()
}

#[test]
fn sets_of_sets_are_built(rt: HostRuntime) {
    let alloc = rt.alloc();
    let mut sets = Vec::new(alloc);
    push_set(&rt, &mut sets, &[2, 1]);
    push_set(&rt, &mut sets, &[1]);
    assert!(rt; make_nest(&rt, alloc, sets.as_slice()));
    push_set(&rt, &mut sets, &[1, 2]);
    assert!(rt; Set::try_from_iter(alloc, sets).err() == Some(Error::DuplicateKey));
}

#[test]
fn test_set_from_iter_dedup(rt: HostRuntime) {
    let set = Set::from_iter_dedup(rt.alloc(), [3u8, 1, 2, 2]).expect(&rt, "memory");
    let items: Vec<u8> = set
        .iter()
        .copied()
        .collect(rt.alloc())
        .expect(&rt, "memory");
    assert!(rt; items.as_slice() == [1, 2, 3].as_slice());
}

#[test]
fn test_set_try_from_duplicate(rt: HostRuntime) {
    let items = vec![in rt.alloc(); 3u8, 1, 2, 2].expect(&rt, "memory");
    assert!(rt; Set::try_from_vec(items).err() == Some(Error::DuplicateKey));
}

/// What the builder returns for the items of a list: what `try_from_vec` returns for it, however
/// far it reads them.
fn try_from_items<T: Ord + Drop, A: Allocator + Copy>(
    alloc: A,
    items: Vec<T, A>,
) -> Result<Set<T, A>, Error>
    ensures { IsWholeSet T.eq T.cmp items.items result }
{
    Set::try_from_iter(alloc, items)
}

#[test]
fn test_set_try_from_iter_duplicate(rt: HostRuntime) {
    let items = vec![in rt.alloc(); 3u8, 1, 2, 2].expect(&rt, "memory");
    assert!(rt; try_from_items(rt.alloc(), items).err() == Some(Error::DuplicateKey));
}
