//! A set of keys of one size, in place.
ghost use Rattle.std.specs.Prelude.{◌≡◌, ◌↔◌, ◌+◌, ◌≤◌, ◌==◌, ℕ, Some, IfErr, IfOk, IsOk, IsTrue, List, OnErr, length};
ghost use Rattle.std.specs.List.{Contains, flat_map, slice_get};
ghost use Rattle.std.specs.Option.{option_copied};
ghost use Rattle.commonware_base.specs.Fault.{Fault};
ghost use Rattle.commonware_base.specs.Lists.{list_enc};
ghost use Rattle.commonware_base.specs.Range.{Within};
ghost use Rattle.commonware_base.specs.Refusal.{Refuses};
ghost use Rattle.commonware_base.specs.Source.{rest_of, Consumes};
ghost use Rattle.commonware_ordered.specs.Strict.{IsStrict};
ghost use Rattle.commonware_sequence.specs.FixedBytes.{bytes_cmp, own_bytes};
ghost use Rattle.commonware_views.specs.Costs.{IsHalvingCost, IsLookUpCounted};
ghost use Rattle.commonware_ordered.specs.Costs.{IsWholeOrderCost, StatesLength};
ghost use Rattle.commonware_views.specs.Lists.{list_fault};
ghost use Rattle.commonware_views.specs.Sets.{IsKeySetOf, IsOutOfOrderAt, key_set_fault};

use crate::items::Items;
use crate::list::ListView;
use commonware_base::codec::{Error, RangeCfg, Source};
use commonware_ordered::{Counter, Uncounted};
use std::marker::Model;

/// Keys of one size in strictly increasing order, which stay where the input has them. They are
/// seen as the list of them, as a `Set` is.
///
/// Read from `02 aa bb cc dd ee` as a set of keys of two bytes, it has the keys `aa bb` and
/// `cc dd`, and `ee` is left; `02 cc dd aa bb` is refused.
#[derive(Debug, Drop)]
pub struct SetView<'a> {
    keys: ListView<'a>,
}

impl<'a> Model for SetView<'a> {
    ghost use Rattle.std.specs.Prelude.{ℕ, List};
    ghost use Rattle.commonware_ordered.specs.Strict.{IsStrict};
    ghost use Rattle.commonware_sequence.specs.FixedBytes.{bytes_cmp};

    ghost Value = { List (List ℕ) };

    ghost view = { λ v. v.keys };

    ghost invariant = { λ v. IsStrict bytes_cmp v.keys };
}

impl<'a> SetView<'a> {
    /// Finds the set of keys of `size` bytes that comes next in a source, of as many as the range
    /// allows, as `Set<FixedBytes<size>>` is decoded: it accepts the same inputs, and returns the
    /// same errors but `Memory`, since nothing is allocated. After an error the source is where it
    /// was.
    #[inline(always)]
    pub fn read(src: &mut Source<'a>, size: usize, range: RangeCfg<usize>) -> Result<Self, Error>
        ensures accepted { IfOk result (λ keys.
            IsKeySetOf size range (rest_of src.old) keys (rest_of src.new)) }
        ensures consumed { IfOk result (λ keys.
            Consumes src.old src.new (list_enc own_bytes keys)) }
        ensures refused { IfErr result
            (Refuses (key_set_fault size range (rest_of src.old)) (Unit {0})) }
        ensures exactly { IsOk result ↔ ((keys : List (List ℕ)) × (rest : List ℕ)
            × IsKeySetOf size range (rest_of src.old) keys rest) }
        ensures stays { OnErr result (src.new ≡ src.old) }
    {
        SetView::read_counted(src, size, range, &mut Uncounted)
    }

    /// Finds what `read` does, and counts how many keys it compares with the next: whatever the
    /// input, at most as many as the most keys that the range allows, and as the length that the
    /// input states; none where no whole list is read. It stops at the first key that isn't less
    /// than the next: where this is at place k, it compares at most k + 2 times. In a set that it
    /// returns each key was compared with the next, and counted.
    #[inline(always)]
    pub fn read_counted<C: Counter>(
        src: &mut Source<'a>,
        size: usize,
        range: RangeCfg<usize>,
        counter: &mut C,
    ) -> Result<Self, Error>
        ensures accepted { IfOk result (λ keys.
            IsKeySetOf size range (rest_of src.old) keys (rest_of src.new)) }
        ensures consumed { IfOk result (λ keys.
            Consumes src.old src.new (list_enc own_bytes keys)) }
        ensures refused { IfErr result
            (Refuses (key_set_fault size range (rest_of src.old)) (Unit {0})) }
        ensures exactly { IsOk result ↔ ((keys : List (List ℕ)) × (rest : List ℕ)
            × IsKeySetOf size range (rest_of src.old) keys rest) }
        ensures stays { OnErr result (src.new ≡ src.old) }
        ensures cost { (most : ℕ) → ((n : ℕ) → Within range n → n ≤ most)
            → C.counted counter.new ≤ C.counted counter.old + most }
        ensures cost_stated { (n : ℕ) → StatesLength (rest_of src.old) n
            → C.counted counter.new ≤ C.counted counter.old + n }
        ensures cost_unread { (fault : Fault) → list_fault size range (rest_of src.old) fault
            → C.counted counter.new ≡ C.counted counter.old }
        ensures stops { (k : ℕ) → IsOutOfOrderAt size range (rest_of src.old) k
            → C.counted counter.new ≤ C.counted counter.old + k + 2 }
        ensures least { IfOk result (λ keys. IsWholeOrderCost C.step (length keys)
            (C.counted counter.old) (C.counted counter.new)) }
    {
        next_keys(src, size, range, counter)
    }

    /// Returns how many keys there are.
    #[inline(always)]
    pub fn len(&self) -> usize
        ensures { result ≡ length self.now }
    {
        self.keys.len()
    }

    /// Whether there are no keys.
    pub fn is_empty(&self) -> bool
        ensures { result ≡ (length self.now == 0) }
    {
        self.keys.is_empty()
    }

    /// Returns the keys as a list.
    #[inline(always)]
    pub fn as_list(&self) -> &ListView<'a>
        ensures keys { result.now ≡ self.now }
        ensures strict { IsStrict bytes_cmp self.now }
    {
        &self.keys
    }

    /// Returns the bytes of all keys, one after another.
    #[inline(always)]
    pub fn as_bytes(&self) -> &'a [u8]
        ensures { result.now ≡ flat_map own_bytes self.now }
    {
        self.keys.as_bytes()
    }

    /// Returns the key at a position, or `None` past the last.
    #[inline(always)]
    pub fn get(&self, index: usize) -> Option<&'a [u8]>
        ensures { option_copied result ≡ slice_get self.now index }
    {
        self.keys.get(index)
    }

    /// Returns an iterator over the keys in order.
    pub fn iter(&self) -> Items<'a>
        ensures { result ≡ self.now }
    {
        self.keys.iter()
    }

    /// Returns the position of a key, or `None` where it isn't in the set, as one of another size
    /// never is. It makes as many comparisons as `position_counted`.
    #[inline(always)]
    pub fn position(&self, key: &[u8]) -> Option<usize>
        ensures { (p : ℕ) → (result ≡ Some p) ↔ (slice_get self.now p ≡ Some key.now) }
    {
        self.position_counted(key, &mut Uncounted)
    }

    /// Returns what `position` does, and counts how many keys it compares with the given one: of
    /// fewer than 2^k keys at most k, and at least one where there is a key.
    #[inline(always)]
    pub fn position_counted<C: Counter>(&self, key: &[u8], counter: &mut C) -> Option<usize>
        ensures place { (p : ℕ) → (result ≡ Some p) ↔ (slice_get self.now p ≡ Some key.now) }
        ensures cost { IsHalvingCost (length self.now)
            (C.counted counter.old) (C.counted counter.new) }
        ensures least { IsLookUpCounted C.step (length self.now)
            (C.counted counter.old) (C.counted counter.new) }
    {
        self.keys.binary_search_counted(key, counter).ok()
    }

    /// Whether a key is in the set.
    #[inline(always)]
    pub fn contains(&self, key: &[u8]) -> bool
        ensures { IsTrue result ↔ Contains self.now key.now }
    {
        self.position(key).is_some()
    }
}

/// Finds the set that comes next in a source, as `SetView::read` does.
#[inline(always)]
fn next_keys<'a, C: Counter>(
    src: &mut Source<'a>,
    size: usize,
    range: RangeCfg<usize>,
    counter: &mut C,
) -> Result<SetView<'a>, Error>
    ensures accepted { IfOk result (λ keys.
        IsKeySetOf size range (rest_of src.old) keys (rest_of src.new)) }
    ensures consumed { IfOk result (λ keys.
        Consumes src.old src.new (list_enc own_bytes keys)) }
    ensures refused { IfErr result
        (Refuses (key_set_fault size range (rest_of src.old)) (Unit {0})) }
    ensures stays { OnErr result (src.new ≡ src.old) }
    ensures cost { (most : ℕ) → ((n : ℕ) → Within range n → n ≤ most)
        → C.counted counter.new ≤ C.counted counter.old + most }
    ensures cost_stated { (n : ℕ) → StatesLength (rest_of src.old) n
        → C.counted counter.new ≤ C.counted counter.old + n }
    ensures cost_unread { (fault : Fault) → list_fault size range (rest_of src.old) fault
        → C.counted counter.new ≡ C.counted counter.old }
    ensures stops { (k : ℕ) → IsOutOfOrderAt size range (rest_of src.old) k
        → C.counted counter.new ≤ C.counted counter.old + k + 2 }
    ensures least { IfOk result (λ keys. IsWholeOrderCost C.step (length keys)
        (C.counted counter.old) (C.counted counter.new)) }
{
    let mut here = *src;
    let keys = ListView::read(&mut here, size, range)?;
    if !keys.is_strict(counter) {
        return Err(Error::Invalid("Set", "items must be sorted and unique"));
    }
    *src = here;
    Ok(SetView { keys })
}
