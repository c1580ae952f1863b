//! A map whose values are pairwise unequal.
ghost use Rattle.std.specs.Prelude.{◌≡◌, ◌↔◌, ◌<◌, ◌≤◌, ◌^◌, ◌==◌, [], IfOk, IsOk, IsSomeAnd, MatchResult, OnErr, Some, length, true, ℕ};
ghost use Rattle.std.specs.Iterator.Adapters.{IterYieldsInOrder, IterYieldsInReverse};
ghost use Rattle.std.specs.Map.{keys_of, lookup, values_of};
ghost use Rattle.std.specs.Map.Iter.{ShowsInOrder, ShowsInReverse, deref_pair};
ghost use Rattle.std.specs.Option.{option_copied};
ghost use Rattle.std.specs.Slice.{IsItemAt};
ghost use Rattle.std.specs.Slice.Iter.{iter_rest};
ghost use Rattle.commonware_ordered.specs.Costs.{IsLookUpCost};
ghost use Rattle.commonware_ordered.specs.Strict.{HasEqualAt, IsPlaceOf, IsStrict};
ghost use Rattle.commonware_ordered.specs.Whole.{HasEqualItems, MatchError};
ghost use Rattle.commonware_bimap.specs.Swapped.{swapped};
ghost use Rattle.commonware_bimap.specs.WholeBiMaps.{HasEqualValues};

mod builders;
mod codec;
mod compare;
mod display;
mod iterators;
mod refs;

pub use codec::bimap_fault_law;
use commonware_map::{Map, Pairs, has_equal_values};
use commonware_ordered::{CountedOrd, Counter, Error, Order, Set, Uncounted};
use std::alloc::{AllocError, Allocator};
use std::hash::Hash;
use std::marker::Model;
use std::slice;

/// Strictly increasing keys, so each once, and a value for each, no two of which are equal.
///
/// The bimap of the pairs `(2, 10)` and `(1, 20)` has the key 2 for the value 10. Of bytes, it is
/// encoded as `02 01 02 02 14 0a`.
#[derive(Drop)]
pub struct BiMap<K: Order, V: Eq + Hash, A: Allocator> {
    map: Map<K, V, A>,
}

impl<K: Order, V: Eq + Hash, A: Allocator> Model for BiMap<K, V, A> {
    ghost use Rattle.std.specs.Prelude.{List};
    ghost use Rattle.std.specs.Map.{values_of};
    ghost use Rattle.commonware_ordered.specs.Whole.{HasEqualItems};

    ghost Value = { List (K × V) };

    ghost view = { λ b. b.map };

    ghost invariant = { λ b. ¬ HasEqualItems V.eq (values_of b.map) };
}

impl<K: Ord, V: Eq + Hash, A: Allocator + Copy> BiMap<K, V, A> {
    /// Returns the bimap without pairs. It allocates nothing.
    /// ```
    /// let none: BiMap<u8, u8, Global> = BiMap::empty(alloc);
    /// assert!(rt; none.is_empty());
    /// ```
    pub fn empty(alloc: A) -> Self
        ensures { result ≡ [] }
    {
        BiMap {
            map: Map::empty(alloc),
        }
    }
}

impl<K: Ord + Drop, V: Eq + Hash + Drop, A: Allocator + Copy> BiMap<K, V, A> {
    /// Returns the bimap of the pairs of a map, or `DuplicateValue` where two of its values are
    /// equal. Each value is looked up among those before it in a hash set: linear time, unless
    /// hashes collide, and memory for a reference to each value. After an allocation failure it
    /// returns `Memory`. For a map without pairs it allocates nothing and returns no error.
    /// ```
    /// let map = Map::try_from_array(alloc, [(2u8, 20u8), (1, 10)])?;
    /// let pairs = BiMap::try_from_map(map)?.into_pairs()?;
    /// assert!(rt; pairs.as_slice() == [(1u8, 10u8), (2, 20)].as_slice());
    /// ```
    pub fn try_from_map(map: Map<K, V, A>) -> Result<Self, Error>
        ensures whole { MatchResult result
            (λ b. (b ≡ map) × (¬ HasEqualValues V.eq map))
            (λ error. MatchError error ⊥ (HasEqualValues V.eq map) (1 ≤ length map)) }
        ensures empty { map ≡ [] → IsOk result }
    {
        if has_equal_values(*map.allocator(), map.values())? {
            Err(Error::DuplicateValue)
        } else {
            Ok(BiMap { map })
        }
    }

    /// Returns all pairs in the order of their keys. Of no pairs it allocates nothing.
    /// ```
    /// let map = Map::try_from_array(alloc, [(2u8, 20u8), (1, 10)])?;
    /// let pairs = BiMap::try_from_map(map)?.into_pairs()?;
    /// assert!(rt; pairs.as_slice() == [(1u8, 10u8), (2, 20)].as_slice());
    /// ```
    pub fn into_pairs(self) -> Result<Vec<(K, V), A>, AllocError>
        ensures pairs { IfOk result (λ pairs. pairs.items ≡ self) }
        ensures nothing { OnErr result (1 ≤ length self) }
    {
        let BiMap { map } = self;
        map.into_pairs()
    }
}

impl<K: Order, V: Eq + Hash, A: Allocator> BiMap<K, V, A> {
    /// Returns how many pairs there are.
    /// ```
    /// let bimap = BiMap::try_from_array(alloc, [(2u8, 20u8), (1, 10)])?;
    /// assert!(rt; bimap.len() == 2);
    /// ```
    pub fn len(&self) -> usize
        ensures len { result ≡ length self.now }
        ensures strict { IsStrict K.order (keys_of self.now) }
        ensures distinct { ¬ HasEqualValues V.eq self.now }
    {
        self.map.len()
    }

    /// Whether there are no pairs.
    /// ```
    /// let bimap = BiMap::try_from_array(alloc, [(2u8, 20u8), (1, 10)])?;
    /// assert!(rt; !bimap.is_empty());
    /// ```
    pub fn is_empty(&self) -> bool
        ensures { result ≡ (length self.now == 0) }
    {
        self.map.is_empty()
    }

    /// Returns the keys.
    /// ```
    /// let bimap = BiMap::try_from_array(alloc, [(2u8, 20u8), (1, 10)])?;
    /// assert!(rt; bimap.keys().as_slice() == [1u8, 2].as_slice());
    /// ```
    pub fn keys(&self) -> &Set<K, A>
        ensures { result.now ≡ keys_of self.now }
    {
        self.map.keys()
    }

    /// Returns the values in the order of their keys. No two are equal.
    /// ```
    /// let bimap = BiMap::try_from_array(alloc, [(2u8, 20u8), (1, 10)])?;
    /// assert!(rt; bimap.values() == [10u8, 20].as_slice());
    /// ```
    pub fn values(&self) -> &[V]
        ensures values { result.now ≡ values_of self.now }
        ensures distinct { ¬ HasEqualValues V.eq self.now }
    {
        self.map.values()
    }

    /// Returns the key at a position, or `None` past the last.
    /// ```
    /// let bimap = BiMap::try_from_array(alloc, [(2u8, 20u8), (1, 10)])?;
    /// assert!(rt; bimap.get(1) == Some(&2) && bimap.get(2) == None);
    /// ```
    pub fn get(&self, index: usize) -> Option<&K>
        ensures { IsItemAt (keys_of self.now) index result }
    {
        self.map.get(index)
    }

    /// Returns an iterator over the keys in order, from both ends.
    /// ```
    /// let bimap = BiMap::try_from_array(alloc, [(2u8, 20u8), (1, 10)])?;
    /// assert!(rt; bimap.iter().eq([1u8, 2].iter()));
    /// ```
    pub fn iter(&self) -> slice::Iter<'_, K>
        ensures rest { iter_rest result ≡ keys_of self.now }
        ensures bound { length (iter_rest result) < 2 ^ 64 }
        ensures runs { IterYieldsInOrder K }
        ensures runs_back { IterYieldsInReverse K }
    {
        self.map.iter()
    }

    /// Returns the pairs in the order of their keys, from both ends, with the exact number left.
    /// ```
    /// let bimap = BiMap::try_from_array(alloc, [(2u8, 20u8), (1, 10)])?;
    /// let mut sum = 0u64;
    /// for (key, value) in bimap.iter_pairs() {
    ///     sum = sum.wrapping_add(u64::from(*key) * u64::from(*value));
    /// }
    /// assert!(rt; sum == 50);
    /// ```
    pub fn iter_pairs(&self) -> Pairs<'_, K, V>
        ensures pairs { result ≡ self.now }
        ensures bound { length self.now < 2 ^ 64 }
        ensures runs { ShowsInOrder (deref_pair {K = K} {X = V}) }
        ensures runs_back { ShowsInReverse (deref_pair {K = K} {X = V}) }
    {
        self.map.iter_pairs()
    }

    /// Returns the value at a position, or `None` past the last.
    /// ```
    /// let bimap = BiMap::try_from_array(alloc, [(2u8, 20u8), (1, 10)])?;
    /// assert!(rt; bimap.value(1) == Some(&20) && bimap.value(2) == None);
    /// ```
    pub fn value(&self, index: usize) -> Option<&V>
        ensures { IsItemAt (values_of self.now) index result }
    {
        self.map.value(index)
    }

    /// Returns what `position` does, and counts its comparisons of keys: of n pairs, where n has k
    /// binary digits, at most 1 + 3k/2.
    /// ```
    /// let bimap = BiMap::try_from_array(alloc, [(2u8, 20u8), (1, 10)])?;
    /// assert!(rt; bimap.position_counted(&2, &mut Uncounted) == Some(1));
    /// ```
    pub fn position_counted<C: Counter>(&self, key: &K, count: &mut C) -> Option<usize>
    where
        K: CountedOrd<C>,
        ensures place { IsPlaceOf K.same (keys_of self.now) key.now result }
        ensures only { (p : ℕ)
            → (result ≡ Some p) ↔ HasEqualAt K.same (keys_of self.now) key.now p }
        ensures cost { IsLookUpCost (length self.now) (C.counted count.old) (C.counted count.new) }
    {
        self.map.position_counted(key, count)
    }

    /// Returns what `get_value` does, and counts its comparisons of keys: of n pairs, where n has k
    /// binary digits, at most 1 + 3k/2.
    /// ```
    /// let bimap = BiMap::try_from_array(alloc, [(2u8, 20u8), (1, 10)])?;
    /// assert!(rt; bimap.get_value_counted(&2, &mut Uncounted) == Some(&20));
    /// ```
    pub fn get_value_counted<C: Counter>(&self, key: &K, count: &mut C) -> Option<&V>
    where
        K: CountedOrd<C>,
        ensures value { option_copied result ≡ lookup (λ k. K.same k key.now) self.now }
        ensures cost { IsLookUpCost (length self.now) (C.counted count.old) (C.counted count.new) }
    {
        self.map.get_value_counted(key, count)
    }
}

impl<K: Ord, V: Eq + Hash, A: Allocator> BiMap<K, V, A> {
    /// Returns the position of the key that equals the given one, or `None` where none does. It
    /// makes as many comparisons as `position_counted`.
    /// ```
    /// let bimap = BiMap::try_from_array(alloc, [(2u8, 20u8), (1, 10)])?;
    /// assert!(rt; bimap.position(&2) == Some(1) && bimap.position(&3) == None);
    /// ```
    pub fn position(&self, key: &K) -> Option<usize>
        ensures place { IsPlaceOf K.eq (keys_of self.now) key.now result }
        ensures only { (p : ℕ) → (result ≡ Some p) ↔ HasEqualAt K.eq (keys_of self.now) key.now p }
    {
        self.position_counted(key, &mut Uncounted)
    }

    /// Returns the value of the key that equals the given one, or `None` where none does. It makes
    /// as many comparisons as `get_value_counted`.
    /// ```
    /// let bimap = BiMap::try_from_array(alloc, [(2u8, 20u8), (1, 10)])?;
    /// assert!(rt; bimap.get_value(&2) == Some(&20) && bimap.get_value(&3) == None);
    /// ```
    pub fn get_value(&self, key: &K) -> Option<&V>
        ensures { option_copied result ≡ lookup (λ k. K.eq k key.now) self.now }
    {
        self.get_value_counted(key, &mut Uncounted)
    }

    /// Returns the key whose value equals the given one, or `None` where none does. It equals a key
    /// exactly where that key's value equals the given one. The values are compared one by one.
    /// ```
    /// let bimap = BiMap::try_from_array(alloc, [(2u8, 20u8), (1, 10)])?;
    /// assert!(rt; bimap.get_key(&20) == Some(&2) && bimap.get_key(&30) == None);
    /// ```
    pub fn get_key(&self, value: &V) -> Option<&K>
        ensures key { option_copied result ≡ lookup (λ v. V.eq v value.now) (swapped self.now) }
        ensures law { (k : K) → IsSomeAnd (option_copied result) (λ q. K.eq q k ≡ true)
            ↔ IsSomeAnd (lookup (λ q. K.eq q k) self.now) (λ v. V.eq v value.now ≡ true) }
    {
        let keys = self.map.keys().as_slice();
        let index = place_of(self.map.values(), value)?;
        Some(&keys[index])
    }
}

/// Returns the position of a value that equals the given one, or `None` where none does.
fn place_of<V: Eq>(values: &[V], value: &V) -> Option<usize>
    ensures { IsPlaceOf V.eq values.now value.now result }
{
    values.iter().position(|v| *v == *value)
}

impl<K: Ord, V: Eq + Hash + Drop, A: Allocator> BiMap<K, V, A> {
    /// Returns the keys. The values are dropped. It allocates nothing.
    /// ```
    /// let bimap = BiMap::try_from_array(alloc, [(2u8, 20u8), (1, 10)])?;
    /// assert!(rt; bimap.into_keys().as_slice() == [1u8, 2].as_slice());
    /// ```
    pub fn into_keys(self) -> Set<K, A>
        ensures { result ≡ keys_of self }
    {
        let BiMap { map } = self;
        map.into_keys()
    }
}
