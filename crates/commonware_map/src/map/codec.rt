//! The encoding of a map: the list of its keys, and then the list of its values, each with its
//! length.
ghost use Rattle.std.specs.Prelude.{◌≡◌, ◌<◌, ◌≤◌, ◌^◌, ℕ, List, IfErr, IfOk, OnErr, length};
ghost use Rattle.std.specs.List.{AllByRecursion};
ghost use Rattle.std.specs.Map.{keys_of, values_of};
ghost use Rattle.commonware_base.specs.Fault.{Fault};
ghost use Rattle.commonware_base.specs.Lists.{IsListMemoryFree};
ghost use Rattle.commonware_base.specs.Range.{Within};
ghost use Rattle.commonware_base.specs.Refusal.{Refuses};
ghost use Rattle.commonware_base.specs.Sequence.{sequence_case};
ghost use Rattle.commonware_base.specs.Source.{rest_of, Consumes};
ghost use Rattle.commonware_base.specs.Text.{Accepts};
ghost use Rattle.commonware_map.specs.laws.MapLaws.{map_bytes, map_canonical, map_laws, map_prefix_free};
ghost use Rattle.commonware_map.specs.Maps.{map_enc, map_size_bound, IsAllowedMap, IsWritableMap, MapFault};
ghost use Rattle.commonware_ordered.specs.Costs.{IsOrderCost, IsReadCost, IsWholeOrderCost, StatesLength};
ghost use Rattle.commonware_ordered.specs.Sets.{IsWritableSet};

use super::Map;
use crate::values::read_values;
use commonware_base::codec::{
    Canonical, EncodeSize, Error, MaxEncodeSize, RangeCfg, Read, Source, UInt, Write,
};
use commonware_ordered::{CountedOrd, Counter, Set, Uncounted, read_set_counted};
use std::alloc::{AllocError, Allocator};

impl<K: Ord + EncodeSize, V: EncodeSize, A: Allocator> EncodeSize for Map<K, V, A> {
    ghost enc = { map_enc K.enc V.enc };

    ghost writable = { IsWritableMap K.writable K.cmp V.writable };

    ghost prefix_free = { map_prefix_free K.enc K.writable K.cmp K.prefix_free
        V.enc V.writable V.prefix_free };

    ghost text_of_bytes = { map_bytes K.enc K.writable K.cmp K.prefix_free V.enc V.writable
        K.text_of_bytes V.text_of_bytes };

    fn encode_size(&self) -> usize {
        self.keys.encode_size() + self.values.encode_size()
    }

    fn is_writable(&self) -> bool {
        self.keys.is_writable() && self.values.is_writable()
    }
}

impl<K: Ord + Write<A>, V: Write<A>, A: Allocator> Write<A> for Map<K, V, A> {
    fn write(&self, sink: &mut Vec<u8, A>) -> Result<(), AllocError> {
        let start = sink.len();
        self.keys.write(sink)?;
        match self.values.write(sink) {
            Ok(()) => Ok(()),
            Err(error) => {
                sink.truncate(start);
                Err(error)
            }
        }
    }
}

impl<K: Ord + Canonical + Read<A> + Drop, V: Read<A> + Drop, A: Allocator + Copy> Read<A>
    for Map<K, V, A> {
    type Cfg = (RangeCfg<usize>, K::Cfg, V::Cfg);

    ghost allowed = { λ c. IsAllowedMap c.0 (K.allowed c.1) (V.allowed c.2) };

    ghost fault = { λ c. MapFault K.enc K.writable K.cmp (K.allowed c.1) (K.fault c.1)
        V.enc V.writable (V.allowed c.2) (V.fault c.2) c.0 };

    ghost memory_free = { λ c. IsListMemoryFree (K.fault c.1) (K.memory_free c.1) c.0 };

    ghost read_laws = { λ alloc c. map_laws K.enc K.writable K.cmp K.prefix_free
        V.enc V.writable V.prefix_free K.eq K.total K.matches_eq K.canonical
        c.0 (K.allowed c.1) (K.fault c.1) (V.allowed c.2) (V.fault c.2)
        (K.read_laws alloc c.1) (V.read_laws alloc c.2) };

    /// Decodes the keys as a set, and then the values as a list of as many.
    fn read_cfg(alloc: A, src: &mut Source<'_>, cfg: &Self::Cfg) -> Result<Map<K, V, A>, Error> {
        read_map_counted(alloc, src, cfg.0, &cfg.1, &cfg.2, &mut Uncounted)
    }
}

/// Decodes a map under a range for its length and a configuration each for its keys and values, as
/// `Map::read_cfg` does, and counts its comparisons of keys: whatever the input, none, or fewer
/// than the length that the input states and than the most pairs that the range allows; and none
/// after the first key that isn't less than the next. In a map that it returns each key was
/// compared with the next, and counted.
pub fn read_map_counted<
    K: CountedOrd<C> + Read<A> + Drop,
    V: Read<A> + Drop,
    A: Allocator + Copy,
    C: Counter,
>(
    alloc: A,
    src: &mut Source<'_>,
    range: RangeCfg<usize>,
    key: &K::Cfg,
    value: &V::Cfg,
    count: &mut C,
) -> Result<Map<K, V, A>, Error>
    ensures accepted { IfOk result (λ m. Accepts (map_enc K.enc V.enc)
        (IsWritableMap K.writable K.order V.writable)
        (IsAllowedMap range (K.allowed key.now) (V.allowed value.now))
        (rest_of src.old) m (rest_of src.new)) }
    ensures consumed { IfOk result (λ m. Consumes src.old src.new (map_enc K.enc V.enc m)) }
    ensures refused { let text = rest_of src.old in IfErr result (Refuses
        (MapFault K.enc K.writable K.order (K.allowed key.now) (K.fault key.now)
        V.enc V.writable (V.allowed value.now) (V.fault value.now) range text)
        (IsListMemoryFree (K.fault key.now) (K.memory_free key.now) range text)) }
    ensures stays { OnErr result (src.new ≡ src.old) }
    ensures cost { (most : ℕ) → ((n : ℕ) → Within range n → n ≤ most)
        → IsOrderCost most (C.counted count.old) (C.counted count.new) }
    ensures cost_ok { IfOk result (λ m.
        IsOrderCost (length m) (C.counted count.old) (C.counted count.new)) }
    ensures stops { IsReadCost K.enc K.order (rest_of src.old)
        (C.counted count.old) (C.counted count.new) }
    ensures stated { (n : ℕ) → StatesLength (rest_of src.old) n
        → IsOrderCost n (C.counted count.old) (C.counted count.new) }
    ensures least { IfOk result (λ m.
        IsWholeOrderCost C.step (length m) (C.counted count.old) (C.counted count.new)) }
{
    let mut here = *src;
    let keys = read_set_counted::<K, A, C>(alloc, &mut here, range, key, count)?;
    let values = read_values::<V, A>(alloc, &mut here, keys.len(), value)?;
    *src = here;
    Ok(Map { keys, values })
}

impl<K: Ord + Canonical, V: Canonical, A: Allocator> Canonical for Map<K, V, A> {
    ghost canonical = { map_canonical K.enc K.writable K.cmp K.prefix_free
        V.enc V.writable V.prefix_free K.eq K.total K.matches_eq K.canonical
        V.eq V.canonical };
}

impl<K: Ord + MaxEncodeSize, V, A: Allocator> Map<K, V, A> {
    /// Returns the most bytes that the encoding of a map of at most `len` pairs can have, where
    /// each value takes at most `value` bytes: the size of `len` as a varint, twice, and `len`
    /// times the bound of a key and that of a value. It requires that `len` is at most 4294967295,
    /// and that the result fits a `usize`.
    /// ```
    /// assert!(rt; Map::<u8, u8, Global>::max_encode_size(10, 1) == 22);
    /// ```
    pub fn max_encode_size(len: usize, value: usize) -> usize
        requires short { len < 2 ^ 32 }
        requires fits { map_size_bound len K.MAX_ENCODE_SIZE value < 2 ^ 64 }
        ensures size { result ≡ map_size_bound len K.MAX_ENCODE_SIZE value }
        ensures enough { (enc : V → List ℕ) (m : List (K × V))
            → IsWritableSet K.writable K.cmp (keys_of m)
            → AllByRecursion (λ v. length (enc v) ≤ value) (values_of m)
            → length m ≤ len → length (map_enc K.enc enc m) ≤ result }
    {
        Set::<K, A>::max_encode_size(len) + (UInt(len as u32).encode_size() + len * value)
    }
}

/// The error cases in which an input is no map exclude one another: no input has a fault of the
/// keys and one of the values.
pub fn map_fault_law<K: Ord + Canonical + Read<A>, V: Read<A>, A: Allocator>(
    alloc: A,
    range: RangeCfg<usize>,
    key: &K::Cfg,
    value: &V::Cfg,
)
    ensures { (s : List ℕ) (f g : Fault)
        (v : MapFault K.enc K.writable K.cmp (K.allowed key.now) (K.fault key.now)
        V.enc V.writable (V.allowed value.now) (V.fault value.now) range s f)
        (w : MapFault K.enc K.writable K.cmp (K.allowed key.now) (K.fault key.now)
        V.enc V.writable (V.allowed value.now) (V.fault value.now) range s g)
        → sequence_case v ≡ sequence_case w }
{
    // They are named so that no parameter is unused: only the contract speaks of them.
    let _ = (alloc, range);
}
