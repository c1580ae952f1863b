//! Signers walked in place, index by index.
ghost use Rattle.std.specs.Prelude.{◌≡◌, ◌<◌, ◌≤◌, ◌^◌, ◌+◌, ◌++◌, ℕ, List, SomeIff, [], ◌∷◌, length};
ghost use Rattle.std.specs.Ordering.{MatchOrdering};
ghost use Rattle.committee_certificates.specs.Cursors.{GoesOnWith, IsAt};
ghost use Rattle.committee_certificates.specs.InPlace.{AreSignersAt, AreWrittenBoth, sum_at, written};
ghost use Rattle.committee_certificates.specs.Signers.{AreMembers};
ghost use Rattle.committee_certificates.specs.WalkCosts.{IsWalkedToAnEnd};

use crate::ascent::{Ascent, write_common};
use crate::in_place::SignersAt;
use commonware_base::codec::{Source, read_varint};
use commonware_ordered::{Counter, Uncounted};
use std::cmp::Ordering;

/// A place among signers.
#[derive(Clone, Copy)]
struct Cursor<'a> {
    /// How many indices are left, the one at this place among them.
    left: usize,
    /// The index at this place, where one is left.
    index: u32,
    /// Where the index after it begins.
    next: Source<'a>,
}

impl SignersAt<'_> {
    /// Writes the indices to the start of the room, in order, as many as it has places for.
    pub fn write_indices(&self, out: &mut [u32])
        ensures { (indices : List ℕ) → AreSignersAt self.now indices
            → out.new ≡ written indices out.old }
    {
        let mut cursor = first_place(self);
        let mut count = 0;
        while cursor.left > 0 {
            put_at(cursor.index, count, out);
            count += 1;
            cursor = next_place(&cursor);
        }
    }

    /// Returns the sum of the numbers at the indices of the signers, or `None` where an index is at
    /// or past their length, or the sum is past `u64::MAX`.
    ///
    /// Of the signers 0 and 2 and the numbers 40, 30 and 20 it is 60.
    pub fn sum_of(&self, numbers: &[u64]) -> Option<u64>
        ensures { (indices : List ℕ) → AreSignersAt self.now indices → SomeIff result
            (AreMembers (length numbers.now) indices × (sum_at numbers.now indices < 2 ^ 64))
            (sum_at numbers.now indices) }
    {
        let mut cursor = first_place(self);
        let mut sum: u64 = 0;
        while cursor.left > 0 {
            let number = numbers.get(cursor.index as usize)?;
            sum = sum.checked_add(*number)?;
            cursor = next_place(&cursor);
        }
        Some(sum)
    }
}

/// Writes the indices of those that are among both signers to the start of the room, in order, as
/// many as it has places for, and returns how many there are. Both are walked once, side by side.
pub fn write_both(first: &SignersAt<'_>, second: &SignersAt<'_>, out: &mut [u32]) -> usize
    ensures { (one two : List ℕ) → AreSignersAt first.now one → AreSignersAt second.now two
        → AreWrittenBoth one two result out.old out.new }
{
    write_both_counted(first, second, out, &mut Uncounted)
}

/// Returns and writes what `write_both` does, and counts how often it compares an index with one of
/// the other signers: at most as often as there are signers, where those among both are counted
/// once, and at least as often as one of the two has signers.
pub fn write_both_counted<C: Counter>(
    first: &SignersAt<'_>,
    second: &SignersAt<'_>,
    out: &mut [u32],
    count: &mut C,
) -> usize
    ensures both { (one two : List ℕ) → AreSignersAt first.now one → AreSignersAt second.now two
        → AreWrittenBoth one two result out.old out.new }
    ensures cost { (one two : List ℕ) → AreSignersAt first.now one → AreSignersAt second.now two
        → C.counted count.new + result ≤ C.counted count.old + length one + length two }
    ensures least { (one two : List ℕ) → AreSignersAt first.now one → AreSignersAt second.now two
        → IsWalkedToAnEnd C.step (length one) (length two)
        (C.counted count.old) (C.counted count.new) }
{
    write_common(first_place(first), first_place(second), out, count)
}

impl<'a, C: Counter> Ascent<C> for Cursor<'a> {
    type Number = u32;

    ghost left = { λ cursor. cursor.left };

    ghost index = { λ cursor. cursor.index };

    ghost is_at = { IsAt };

    ghost indices = { λ numbers. numbers };

    #[inline(always)]
    fn is_over(&self) -> bool {
        self.left == 0
    }

    #[inline(always)]
    fn order(&self, other: &Self, count: &mut C) -> Ordering {
        count.tick();
        index_order(self.index, other.index)
    }

    #[inline(always)]
    fn next(&self) -> Self {
        next_place(self)
    }

    #[inline(always)]
    fn put(&self, place: usize, out: &mut [u32]) {
        put_at(self.index, place, out);
    }

    ghost at_end = { λ _ none. none };

    ghost at_index = { λ _ _ _ at. (at.0, at.1) };
}

/// Returns the order of two indices. A compiler folds two `<` with the tests of their order, where
/// it makes more of a `cmp`.
#[inline(always)]
fn index_order(one: u32, other: u32) -> Ordering
    ensures { MatchOrdering result (one < other) (one ≡ other) (other < one) }
{
    if one < other {
        Ordering::Less
    } else if other < one {
        Ordering::Greater
    } else {
        Ordering::Equal
    }
}

/// Returns the place of the first signer.
#[inline(always)]
fn first_place<'a>(signers: &SignersAt<'a>) -> Cursor<'a>
    ensures fewer { result.left ≤ signers.now.count }
    ensures at { (indices : List ℕ) → AreSignersAt signers.now indices → IsAt result indices }
{
    place_of(&signers.start, signers.count as usize)
}

/// Returns the place after this one, which has an index.
#[inline(always)]
fn next_place<'a>(cursor: &Cursor<'a>) -> Cursor<'a>
    requires { 0 < cursor.now.left }
    ensures fewer { result.left < cursor.now.left }
    ensures at { (index : ℕ) (indices : List ℕ) → IsAt cursor.now (index ∷ indices)
        → IsAt result indices }
{
    place_of(&cursor.next, cursor.left - 1)
}

/// Returns the place of the first of `left` indices that come next in a source; where it has none,
/// a place where none is left.
#[inline(always)]
fn place_of<'a>(source: &Source<'a>, left: usize) -> Cursor<'a>
    ensures fewer { result.left ≤ left }
    ensures at { (indices : List ℕ) → GoesOnWith source.now indices → left ≡ length indices
        → IsAt result indices }
{
    if left == 0 {
        return past_all(source);
    }
    let mut next = *source;
    match read_varint(&mut next) {
        Ok(index) => Cursor { left, index, next },
        Err(_) => past_all(source),
    }
}

/// Returns a place where no index is left.
#[inline(always)]
fn past_all<'a>(source: &Source<'a>) -> Cursor<'a>
    ensures { result.left ≡ 0 }
{
    Cursor {
        left: 0,
        index: 0,
        next: *source,
    }
}

/// Writes the index to a place of the room, where it has that place.
#[inline(always)]
fn put_at(index: u32, place: usize, out: &mut [u32])
    ensures { (before room : List ℕ) → place ≡ length before → out.old ≡ written before room
        → out.new ≡ written (before ++ index ∷ []) room }
{
    if place < out.len() {
        out[place] = index;
    }
}
