//! Items that are inserted one at a time at their places in their order.
ghost use Rattle.std.specs.Prelude.{◌≡◌, ◌⊎◌, ◌<◌, ◌≤◌, ◌++◌, ◌∷◌, [], IfOk, OnErr, OnOk, length, true, vec_capacity, vec_len};
ghost use Rattle.std.specs.List.{AllByRecursion, list_any};
ghost use Rattle.std.specs.List.Sorted.{IsStrictlySortedBy};
ghost use Rattle.std.specs.Ordering.{MatchOrdering, eq_by_cmp};
ghost use Rattle.std.specs.declared.cmp.Ordering.TheVariants.{Less};
ghost use Rattle.commonware_ordered.specs.Put.{IsPut};
ghost use Rattle.commonware_ordered.specs.Strict.{IsStrict};

use std::alloc::{AllocError, Allocator};
use std::cmp::Ordering;
use std::collections::BTreeSet;

/// The most items, or pairs, for which room is reserved before the first has come: a few pages,
/// whatever an iterator promises.
pub const MOST_ROOM: usize = 4096;

/// Inserts an item at its place among those of a run and of a tree, unless an equal one is there,
/// and returns whether it did. Items are in the run while each is greater than the last, which
/// takes constant time an item; the first lesser one moves them all into the tree.
///
/// The first item of a run gets room for some of the `coming` items, for no more than a few pages
/// of them: nothing is allocated before there is an item.
///
/// The run goes in and comes back by value, so that a loop keeps its length in a register.
#[inline(always)]
pub(crate) fn keep<T: Ord + Drop, A: Allocator + Copy>(
    run: Vec<T, A>,
    tree: &mut BTreeSet<T, A>,
    item: T,
    coming: usize,
) -> Result<(Vec<T, A>, bool), AllocError>
    requires strict { IsStrictlySortedBy T.cmp run.items }
    requires apart { (run.items ≡ []) ⊎ (tree.old.keys ≡ []) }
    ensures put { IfOk result (λ r.
        IsPut T.cmp (run.items ++ tree.old.keys) item r.1 (r.0.items ++ tree.new.keys)) }
    ensures strict { IfOk result (λ r. IsStrictlySortedBy T.cmp r.0.items) }
    ensures apart { IfOk result (λ r. (r.0.items ≡ []) ⊎ (tree.new.keys ≡ [])) }
{
    if !tree.is_empty() {
        let new = put(tree, item)?;
        return Ok((run, new));
    }
    match last_to(&run, &item) {
        Ordering::Less => Ok((pushed(run, item, coming)?, true)),
        Ordering::Equal => Ok((run, false)),
        Ordering::Greater => {
            let none = Vec::new(*run.allocator());
            move_into(run, tree)?;
            let new = put(tree, item)?;
            Ok((none, new))
        }
    }
}

/// Returns the items of a run and of a tree in order.
pub(crate) fn all_kept<T: Ord + Drop, A: Allocator + Copy>(
    run: Vec<T, A>,
    tree: BTreeSet<T, A>,
) -> Result<Vec<T, A>, AllocError>
    requires strict { IsStrictlySortedBy T.cmp run.items }
    requires apart { (run.items ≡ []) ⊎ (tree.keys ≡ []) }
    ensures items { IfOk result (λ items. items.items ≡ run.items ++ tree.keys) }
    ensures strict { IfOk result (λ items. IsStrict T.cmp items.items) }
    ensures nothing { OnErr result (1 ≤ length tree.keys) }
{
    if tree.is_empty() {
        return Ok(run);
    }
    let mut items = run;
    items.reserve(tree.len())?;
    for item in tree {
        items.push(item)?;
    }
    Ok(items)
}

/// Compares the last item of a run with an item; `Less` where the run is empty.
#[inline(always)]
fn last_to<T: Ord>(run: &[T], item: &T) -> Ordering
    requires { IsStrictlySortedBy T.cmp run.now }
    ensures { MatchOrdering result
        (AllByRecursion (λ y. T.cmp y item.now ≡ Less) run.now)
        (list_any (eq_by_cmp T.cmp item.now) run.now ≡ true)
        (Unit {0}) }
{
    match run.last() {
        Some(last) => last.cmp(item),
        None => Ordering::Less,
    }
}

/// Returns the run with another item last.
#[inline(always)]
fn pushed<T: Drop, A: Allocator + Copy>(
    run: Vec<T, A>,
    item: T,
    coming: usize,
) -> Result<Vec<T, A>, AllocError>
    ensures { IfOk result (λ v. v.items ≡ run.items ++ item ∷ []) }
{
    let mut run = if run.len() < run.capacity() {
        run
    } else {
        with_more(run, coming)?
    };
    run.push_reserved(item);
    Ok(run)
}

/// Returns the list with room for another item, and an empty one with room for some of those that
/// are to come.
#[cold]
#[inline(never)]
fn with_more<T: Drop, A: Allocator + Copy>(
    full: Vec<T, A>,
    coming: usize,
) -> Result<Vec<T, A>, AllocError>
    ensures items { IfOk result (λ v. v.items ≡ full.items) }
    ensures room { IfOk result (λ v. vec_len v < vec_capacity v) }
{
    if full.is_empty() {
        return Vec::with_capacity(*full.allocator(), coming.min(MOST_ROOM).max(1));
    }
    let mut full = full;
    full.reserve(1)?;
    Ok(full)
}

/// Inserts an item at its place unless an equal one is there, and returns whether it did.
#[inline(never)]
fn put<T: Ord + Drop, A: Allocator + Copy>(
    tree: &mut BTreeSet<T, A>,
    item: T,
) -> Result<bool, AllocError>
    ensures { IfOk result (λ new. IsPut T.cmp tree.old.keys item new tree.new.keys) }
{
    Ok(tree.insert(item)?)
}

/// Moves the items of a run into a tree that has none.
#[cold]
#[inline(never)]
fn move_into<T: Ord + Drop, A: Allocator + Copy>(
    run: Vec<T, A>,
    tree: &mut BTreeSet<T, A>,
) -> Result<(), AllocError>
    requires strict { IsStrictlySortedBy T.cmp run.items }
    requires empty { tree.old.keys ≡ [] }
    ensures { OnOk result (tree.new.keys ≡ run.items) }
{
    for item in run {
        put(tree, item)?;
    }
    Ok(())
}
