//! A map of keys and values, each of one size, in place.
ghost use Rattle.std.specs.Prelude.{◌≡◌, ◌↔◌, ◌+◌, ◌≤◌, ◌==◌, ℕ, Some, IfErr, IfOk, IsOk, List, OnErr, length};
ghost use Rattle.std.specs.List.{slice_get};
ghost use Rattle.std.specs.Map.{keys_of, values_of};
ghost use Rattle.std.specs.Option.{option_copied};
ghost use Rattle.commonware_base.specs.Fault.{Fault};
ghost use Rattle.commonware_base.specs.Range.{Within};
ghost use Rattle.commonware_base.specs.Refusal.{Refuses};
ghost use Rattle.commonware_base.specs.Source.{rest_of, Consumes};
ghost use Rattle.commonware_map.specs.Maps.{map_enc};
ghost use Rattle.commonware_sequence.specs.FixedBytes.{own_bytes};
ghost use Rattle.commonware_views.specs.Costs.{IsHalvingCost, IsLookUpCounted};
ghost use Rattle.commonware_ordered.specs.Costs.{IsWholeOrderCost, StatesLength};
ghost use Rattle.commonware_views.specs.Lists.{list_fault};
ghost use Rattle.commonware_views.specs.Maps.{IsSizedMapOf, sized_map_fault};
ghost use Rattle.commonware_views.specs.Sets.{IsOutOfOrderAt};

use crate::list::ListView;
use crate::set::SetView;
use commonware_base::codec::{Error, RangeCfg, Source};
use commonware_ordered::{Counter, Uncounted};
use std::marker::Model;

/// Keys of one size in strictly increasing order, and a value of another size for each, which stay
/// where the input has them. They are seen as the list of pairs, as a `Map` is.
///
/// Read from `02 aa bb 02 01 02 03 04` as a map from keys of one byte to values of two, it has the
/// value `01 02` for `aa` and `03 04` for `bb`.
#[derive(Debug, Drop)]
pub struct MapView<'a> {
    keys: SetView<'a>,
    values: ListView<'a>,
}

impl<'a> Model for MapView<'a> {
    ghost use Rattle.std.specs.Prelude.{◌≡◌, ℕ, List, length, zip};

    ghost Value = { List (List ℕ × List ℕ) };

    ghost view = { λ v. zip v.keys v.values };

    ghost invariant = { λ v. length v.values ≡ length v.keys };
}

impl<'a> MapView<'a> {
    /// Finds the map of keys of `key_size` bytes and values of `value_size` that comes next in a
    /// source, of as many pairs as the range allows, as `Map<FixedBytes<key_size>,
    /// FixedBytes<value_size>>` is decoded: it accepts the same inputs, and returns the same errors
    /// but `Memory`, since nothing is allocated. After an error the source is where it was.
    pub fn read(
        src: &mut Source<'a>,
        key_size: usize,
        value_size: usize,
        range: RangeCfg<usize>,
    ) -> Result<Self, Error>
        ensures accepted { IfOk result (λ pairs.
            IsSizedMapOf key_size value_size range (rest_of src.old) pairs (rest_of src.new)) }
        ensures consumed { IfOk result (λ pairs.
            Consumes src.old src.new (map_enc own_bytes own_bytes pairs)) }
        ensures refused { IfErr result (Refuses
            (sized_map_fault key_size value_size range (rest_of src.old)) (Unit {0})) }
        ensures exactly { IsOk result ↔ ((pairs : List (List ℕ × List ℕ)) × (rest : List ℕ)
            × IsSizedMapOf key_size value_size range (rest_of src.old) pairs rest) }
        ensures stays { OnErr result (src.new ≡ src.old) }
    {
        MapView::read_counted(src, key_size, value_size, range, &mut Uncounted)
    }

    /// Finds what `read` does, and counts how many keys it compares with the next: whatever the
    /// input, at most as many as the most pairs that the range allows, and as the length that the
    /// input states first; none where no whole list of keys is read. It stops at the first key that
    /// isn't less than the next: where this is at place k, it compares at most k + 2 times. In a
    /// map that it returns each key was compared with the next, and counted.
    pub fn read_counted<C: Counter>(
        src: &mut Source<'a>,
        key_size: usize,
        value_size: usize,
        range: RangeCfg<usize>,
        counter: &mut C,
    ) -> Result<Self, Error>
        ensures accepted { IfOk result (λ pairs.
            IsSizedMapOf key_size value_size range (rest_of src.old) pairs (rest_of src.new)) }
        ensures consumed { IfOk result (λ pairs.
            Consumes src.old src.new (map_enc own_bytes own_bytes pairs)) }
        ensures refused { IfErr result (Refuses
            (sized_map_fault key_size value_size range (rest_of src.old)) (Unit {0})) }
        ensures exactly { IsOk result ↔ ((pairs : List (List ℕ × List ℕ)) × (rest : List ℕ)
            × IsSizedMapOf key_size value_size range (rest_of src.old) pairs rest) }
        ensures stays { OnErr result (src.new ≡ src.old) }
        ensures cost { (most : ℕ) → ((n : ℕ) → Within range n → n ≤ most)
            → C.counted counter.new ≤ C.counted counter.old + most }
        ensures cost_stated { (n : ℕ) → StatesLength (rest_of src.old) n
            → C.counted counter.new ≤ C.counted counter.old + n }
        ensures cost_unread { (fault : Fault) → list_fault key_size range (rest_of src.old) fault
            → C.counted counter.new ≡ C.counted counter.old }
        ensures stops { (k : ℕ) → IsOutOfOrderAt key_size range (rest_of src.old) k
            → C.counted counter.new ≤ C.counted counter.old + k + 2 }
        ensures least { IfOk result (λ pairs. IsWholeOrderCost C.step (length pairs)
            (C.counted counter.old) (C.counted counter.new)) }
    {
        next_pairs(src, key_size, value_size, range, counter)
    }

    /// Returns how many pairs there are.
    pub fn len(&self) -> usize
        ensures { result ≡ length self.now }
    {
        self.keys.len()
    }

    /// Whether there are no pairs.
    pub fn is_empty(&self) -> bool
        ensures { result ≡ (length self.now == 0) }
    {
        self.len() == 0
    }

    /// Returns the keys.
    pub fn keys(&self) -> &SetView<'a>
        ensures { result.now ≡ keys_of self.now }
    {
        &self.keys
    }

    /// Returns the values in the order of their keys.
    pub fn values(&self) -> &ListView<'a>
        ensures { result.now ≡ values_of self.now }
    {
        &self.values
    }

    /// Returns the key at a position, or `None` past the last.
    pub fn get(&self, index: usize) -> Option<&'a [u8]>
        ensures { option_copied result ≡ slice_get (keys_of self.now) index }
    {
        self.keys().get(index)
    }

    /// Returns the value at a position, or `None` past the last.
    pub fn value(&self, index: usize) -> Option<&'a [u8]>
        ensures { option_copied result ≡ slice_get (values_of self.now) index }
    {
        self.values().get(index)
    }

    /// Returns the position of a key, or `None` where the map has no value for it. It makes as many
    /// comparisons as `position_counted`.
    pub fn position(&self, key: &[u8]) -> Option<usize>
        ensures { (p : ℕ)
            → (result ≡ Some p) ↔ (slice_get (keys_of self.now) p ≡ Some key.now) }
    {
        self.position_counted(key, &mut Uncounted)
    }

    /// Returns what `position` does, and counts how many keys it compares with the given one: of
    /// fewer than 2^k keys at most k, and at least one where there is a key.
    pub fn position_counted<C: Counter>(&self, key: &[u8], counter: &mut C) -> Option<usize>
        ensures place { (p : ℕ)
            → (result ≡ Some p) ↔ (slice_get (keys_of self.now) p ≡ Some key.now) }
        ensures cost { IsHalvingCost (length self.now)
            (C.counted counter.old) (C.counted counter.new) }
        ensures least { IsLookUpCounted C.step (length self.now)
            (C.counted counter.old) (C.counted counter.new) }
    {
        self.keys().position_counted(key, counter)
    }

    /// Returns the value of a key, or `None` where the map has none for it. It makes as many
    /// comparisons as `get_value_counted`.
    pub fn get_value(&self, key: &[u8]) -> Option<&'a [u8]>
        ensures { (value : List ℕ) → (option_copied result ≡ Some value)
            ↔ ((p : ℕ) × (slice_get self.now p ≡ Some (key.now, value))) }
    {
        self.get_value_counted(key, &mut Uncounted)
    }

    /// Returns what `get_value` does, and counts how many keys it compares with the given one: of
    /// fewer than 2^k keys at most k, and at least one where there is a key.
    pub fn get_value_counted<C: Counter>(&self, key: &[u8], counter: &mut C) -> Option<&'a [u8]>
        ensures value { (value : List ℕ) → (option_copied result ≡ Some value)
            ↔ ((p : ℕ) × (slice_get self.now p ≡ Some (key.now, value))) }
        ensures cost { IsHalvingCost (length self.now)
            (C.counted counter.old) (C.counted counter.new) }
        ensures least { IsLookUpCounted C.step (length self.now)
            (C.counted counter.old) (C.counted counter.new) }
    {
        self.value(self.position_counted(key, counter)?)
    }
}

/// Finds the map that comes next in a source, as `MapView::read` does.
fn next_pairs<'a, C: Counter>(
    src: &mut Source<'a>,
    key_size: usize,
    value_size: usize,
    range: RangeCfg<usize>,
    counter: &mut C,
) -> Result<MapView<'a>, Error>
    ensures accepted { IfOk result (λ pairs.
        IsSizedMapOf key_size value_size range (rest_of src.old) pairs (rest_of src.new)) }
    ensures consumed { IfOk result (λ pairs.
        Consumes src.old src.new (map_enc own_bytes own_bytes pairs)) }
    ensures refused { IfErr result
        (Refuses (sized_map_fault key_size value_size range (rest_of src.old)) (Unit {0})) }
    ensures stays { OnErr result (src.new ≡ src.old) }
    ensures cost { (most : ℕ) → ((n : ℕ) → Within range n → n ≤ most)
        → C.counted counter.new ≤ C.counted counter.old + most }
    ensures cost_stated { (n : ℕ) → StatesLength (rest_of src.old) n
        → C.counted counter.new ≤ C.counted counter.old + n }
    ensures cost_unread { (fault : Fault) → list_fault key_size range (rest_of src.old) fault
        → C.counted counter.new ≡ C.counted counter.old }
    ensures stops { (k : ℕ) → IsOutOfOrderAt key_size range (rest_of src.old) k
        → C.counted counter.new ≤ C.counted counter.old + k + 2 }
    ensures least { IfOk result (λ pairs. IsWholeOrderCost C.step (length pairs)
        (C.counted counter.old) (C.counted counter.new)) }
{
    let mut here = *src;
    let keys = SetView::read_counted(&mut here, key_size, range, counter)?;
    let values = ListView::read(&mut here, value_size, RangeCfg::exact(keys.len()))?;
    *src = here;
    Ok(MapView { keys, values })
}
