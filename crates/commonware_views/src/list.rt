//! Byte sequences of one size that follow one another.
ghost use Rattle.std.specs.Prelude.{◌≡◌, ◌≢◌, ◌↔◌, ◌+◌, ◌*◌, ◌%◌, ◌<◌, ◌≤◌, ◌==◌, ℕ, IfErr, IfNone, IfOk, IfSome, IsOk, IsTrue, List, OnErr, Some, drop, length, take};
ghost use Rattle.std.specs.List.{flat_map, slice_get};
ghost use Rattle.std.specs.declared.result.Result.TheVariants.{Ok};
ghost use Rattle.std.specs.Iterator.{YieldsFirstRef};
ghost use Rattle.std.specs.Option.{option_copied};
ghost use Rattle.commonware_base.specs.Lists.{list_enc};
ghost use Rattle.commonware_base.specs.Refusal.{Refuses};
ghost use Rattle.commonware_base.specs.Source.{rest_of, Consumes};
ghost use Rattle.commonware_ordered.specs.Strict.{IsLessThanNext, IsStrict};
ghost use Rattle.commonware_sequence.specs.FixedBytes.{bytes_cmp, own_bytes};
ghost use Rattle.commonware_ordered.specs.Costs.{IsWholeOrderCost};
ghost use Rattle.commonware_views.specs.Costs.{IsHalvingCost, IsLookUpCounted};
ghost use Rattle.commonware_views.specs.Lists.{AreItemsOf, IsGapFor, IsListOf, IsNotWhole, list_fault};

use crate::counted::{Keys, PrefixedKey};
use crate::items::Items;
use crate::order::are_strict;
use crate::search::place_of;
use commonware_base::codec::{Error, RangeCfg, Source, read_varint};
use commonware_ordered::{Counter, Uncounted};
use std::marker::Model;

/// Byte sequences of one size, the items, which stay where the input has them. They are seen as
/// the list of them.
///
/// Read from `02 aa bb cc dd ee` as a list of items of two bytes, it has the items `aa bb` and
/// `cc dd`, and `ee` is left.
#[derive(Debug, Drop)]
pub struct ListView<'a> {
    size: usize,
    count: usize,
    bytes: &'a [u8],
}

impl<'a> Model for ListView<'a> {
    ghost use Rattle.std.specs.Prelude.{◌≡◌, ◌*◌, ℕ, List, length};
    ghost use Rattle.std.specs.Simd.{first_chunks};

    ghost Value = { List (List ℕ) };

    ghost view = { λ v. first_chunks v.size v.count v.bytes.now };

    ghost invariant = { λ v. length v.bytes.now ≡ v.count * v.size };
}

/// Why bytes are not a list of items of one size, one after another.
#[derive(Clone, Copy, Debug, PartialEq, Eq, thiserror::Error)]
pub enum NotWhole {
    /// Items of no bytes: how many there are can't be told.
    #[error("items of no bytes")]
    NoSize,
    /// How many bytes are left after the last whole item.
    #[error("{0} bytes after the last whole item")]
    LeftOver(usize),
}

impl<'a> ListView<'a> {
    /// Returns the items of `size` bytes that these bytes are, one after another; or why they are
    /// no such items. `aa bb cc dd` are two items of two bytes, one item of four, and no items of
    /// three: `LeftOver(1)`.
    pub fn new(size: usize, bytes: &'a [u8]) -> Result<Self, NotWhole>
        ensures items { IfOk result (AreItemsOf size bytes.now) }
        ensures whole { IfOk result (λ _. size ≢ 0) }
        ensures refused { IfErr result (IsNotWhole size bytes.now) }
    {
        if size == 0 {
            return Err(NotWhole::NoSize);
        }
        let over = bytes.len() % size;
        if over > 0 {
            return Err(NotWhole::LeftOver(over));
        }
        let count = bytes.len() / size;
        Ok(ListView { size, count, bytes })
    }

    /// Finds the list of items of `size` bytes that comes next in a source, of as many as the range
    /// allows, as `Vec<FixedBytes<size>>` is decoded: it accepts the same inputs, and returns the
    /// same errors but `Memory`, since nothing is allocated. After an error the source is where it
    /// was.
    #[inline(always)]
    pub fn read(src: &mut Source<'a>, size: usize, range: RangeCfg<usize>) -> Result<Self, Error>
        ensures accepted { IfOk result (λ items.
            IsListOf size range (rest_of src.old) items (rest_of src.new)) }
        ensures consumed { IfOk result (λ items.
            Consumes src.old src.new (list_enc own_bytes items)) }
        ensures refused { IfErr result
            (Refuses (list_fault size range (rest_of src.old)) (Unit {0})) }
        ensures exactly { IsOk result ↔ ((items : List (List ℕ)) × (rest : List ℕ)
            × IsListOf size range (rest_of src.old) items rest) }
        ensures stays { OnErr result (src.new ≡ src.old) }
    {
        next_list(src, size, range)
    }

    /// Returns how many items there are.
    #[inline(always)]
    pub fn len(&self) -> usize
        ensures { result ≡ length self.now }
    {
        self.count
    }

    /// Whether there are no items.
    pub fn is_empty(&self) -> bool
        ensures { result ≡ (length self.now == 0) }
    {
        self.len() == 0
    }

    /// Returns the bytes of all items, one after another.
    #[inline(always)]
    pub fn as_bytes(&self) -> &'a [u8]
        ensures { result.now ≡ flat_map own_bytes self.now }
    {
        self.bytes
    }

    /// Returns the item at a position, or `None` past the last.
    #[inline(always)]
    pub fn get(&self, index: usize) -> Option<&'a [u8]>
        ensures { option_copied result ≡ slice_get self.now index }
    {
        if index >= self.count {
            return None;
        }
        Some(item_at(self.bytes, self.size, index))
    }

    /// Returns an iterator over the items in order.
    pub fn iter(&self) -> Items<'a>
        ensures { result ≡ self.now }
    {
        Items::new(ListView {
            size: self.size,
            count: self.count,
            bytes: self.bytes,
        })
    }

    /// Takes the first item from the list, or nothing where there are no items.
    #[inline(always)]
    pub(crate) fn take_first(&mut self) -> Option<&'a [u8]>
        ensures { YieldsFirstRef (λ items. items) self.old result self.new }
    {
        if self.count == 0 {
            return None;
        }
        let (first, rest) = self.bytes.split_at(self.size);
        *self = ListView {
            size: self.size,
            count: self.count - 1,
            bytes: rest,
        };
        Some(first)
    }

    /// Whether the items are strictly increasing: each is less than the next. Each is compared with
    /// the next, in order, up to the first that isn't less; the first two that share eight bytes
    /// are compared twice.
    #[inline(always)]
    pub(crate) fn is_strict<C: Counter>(&self, counter: &mut C) -> bool
        ensures strict { IsTrue result ↔ IsStrict bytes_cmp self.now }
        ensures cost { C.counted counter.new ≤ C.counted counter.old + length self.now }
        ensures stops { (k : ℕ) → k + 1 < length self.now
            → ¬ IsLessThanNext bytes_cmp self.now k
            → C.counted counter.new ≤ C.counted counter.old + k + 2 }
        ensures least { IsTrue result → IsWholeOrderCost C.step (length self.now)
            (C.counted counter.old) (C.counted counter.new) }
    {
        are_strict(self, counter)
    }

    /// Looks an item up by halving the list: `Ok` has the position of one that is the key, and
    /// `Err` a gap between two neighbours of which the first is less than the key and the second is
    /// greater. Where the list is strictly increasing there is a gap exactly where no item is the
    /// key. It takes every list, and a key of any size, and makes as many comparisons as
    /// `binary_search_counted`.
    #[inline(always)]
    pub fn binary_search(&self, key: &[u8]) -> Result<usize, usize>
        ensures found { IfOk result (λ p. slice_get self.now p ≡ Some key.now) }
        ensures absent { IfErr result (IsGapFor key.now self.now) }
        ensures exactly { IsStrict bytes_cmp self.now → (p : ℕ)
            → (result ≡ Ok p) ↔ (slice_get self.now p ≡ Some key.now) }
    {
        self.binary_search_counted(key, &mut Uncounted)
    }

    /// Returns what `binary_search` does, and counts how many items it compares with the key: of
    /// fewer than 2^k items at most k, whatever they are, and at least one where there is an item.
    /// A comparison looks at each word of eight bytes at most once, but for the last word of two
    /// equal items.
    #[inline(always)]
    pub fn binary_search_counted<C: Counter>(
        &self,
        key: &[u8],
        counter: &mut C,
    ) -> Result<usize, usize>
        ensures found { IfOk result (λ p. slice_get self.now p ≡ Some key.now) }
        ensures absent { IfErr result (IsGapFor key.now self.now) }
        ensures exactly { IsStrict bytes_cmp self.now → (p : ℕ)
            → (result ≡ Ok p) ↔ (slice_get self.now p ≡ Some key.now) }
        ensures cost { IsHalvingCost (length self.now)
            (C.counted counter.old) (C.counted counter.new) }
        ensures least { IsLookUpCounted C.step (length self.now)
            (C.counted counter.old) (C.counted counter.new) }
    {
        place_of(self, &PrefixedKey::new(key), counter)
    }
}

impl<'a, C: Counter> Keys<C> for ListView<'a> {
    type Key = PrefixedKey<'a>;

    ghost keys = { λ items. items };

    #[inline(always)]
    fn count(&self) -> usize {
        self.len()
    }

    #[inline(always)]
    fn key_at(&self, place: usize) -> PrefixedKey<'a> {
        PrefixedKey::new(item_at(self.bytes, self.size, place))
    }
}

/// Finds the list that comes next in a source, as `ListView::read` does.
#[inline(always)]
fn next_list<'a>(
    src: &mut Source<'a>,
    size: usize,
    range: RangeCfg<usize>,
) -> Result<ListView<'a>, Error>
    ensures accepted { IfOk result (λ items.
        IsListOf size range (rest_of src.old) items (rest_of src.new)) }
    ensures consumed { IfOk result (λ items.
        Consumes src.old src.new (list_enc own_bytes items)) }
    ensures refused { IfErr result (Refuses (list_fault size range (rest_of src.old)) (Unit {0})) }
    ensures stays { OnErr result (src.new ≡ src.old) }
{
    let mut here = *src;
    let count = read_varint(&mut here)? as usize;
    if !range.contains(&count) {
        return Err(Error::InvalidLength(count));
    }
    let Some(bytes) = next_bytes(&here, size, count) else {
        return Err(Error::EndOfBuffer);
    };
    here.advance(bytes.len());
    *src = here;
    Ok(ListView { size, count, bytes })
}

/// Returns the bytes of the next `count` items of a source, in place, or `None` where fewer are
/// left.
#[inline(always)]
fn next_bytes<'a>(src: &Source<'a>, size: usize, count: usize) -> Option<&'a [u8]>
    ensures bytes { IfSome result (λ bytes. bytes.now ≡ take (count * size) (rest_of src.now)) }
    ensures enough { IfSome result (λ _. count * size ≤ length (rest_of src.now)) }
    ensures none { IfNone result (length (rest_of src.now) < count * size) }
{
    let left = src.remaining();
    let room = count.checked_mul(size)?;
    if left < room {
        return None;
    }
    Some(&src.rest()[..room])
}

/// Returns the item at a position, which is inside.
#[inline(always)]
pub(crate) fn item_at(bytes: &[u8], size: usize, index: usize) -> &[u8]
    requires { index * size + size ≤ length bytes.now }
    ensures { result.now ≡ take size (drop (index * size) bytes.now) }
{
    let at = index * size;
    &bytes[at..at + size]
}
