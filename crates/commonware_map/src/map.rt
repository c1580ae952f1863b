//! A set of keys, and a value for each.
ghost use Rattle.std.specs.Prelude.{◌≡◌, ◌↔◌, ◌<◌, ◌≤◌, ◌^◌, ◌==◌, [], IfOk, IfSome, IsSome, OnErr, Some, length, take, zip, ℕ};
ghost use Rattle.std.specs.Iterator.Adapters.{IterYieldsInOrder, IterYieldsInReverse};
ghost use Rattle.std.specs.Map.{keys_of, lookup, values_of};
ghost use Rattle.std.specs.Option.{option_copied};
ghost use Rattle.std.specs.Slice.{IsItemAt};
ghost use Rattle.std.specs.Slice.Iter.{iter_rest};
ghost use Rattle.commonware_ordered.specs.Costs.{IsLookUpCost};
ghost use Rattle.commonware_ordered.specs.Strict.{HasEqualAt, IsPlaceOf, IsStrict};

mod borrows;
mod builders;
mod codec;
mod compare;
mod display;
mod into_iter;
mod pairs;
mod pairs_mut;
mod refs;
mod value_maps;

pub use codec::{map_fault_law, read_map_counted};
use commonware_ordered::{CountedOrd, Counter, Order, Set, Uncounted};
use std::alloc::{AllocError, Allocator};
use std::marker::Model;
use std::slice;

/// Strictly increasing keys, so each once, and a value for each.
///
/// The map of the pairs `(2, 20)` and `(1, 10)` has the keys `[1, 2]` and the values `[10, 20]`. Of
/// bytes, it is encoded as `02 01 02 02 0a 14`.
#[derive(Drop)]
pub struct Map<K: Order, V, A: Allocator> {
    keys: Set<K, A>,
    values: Vec<V, A>,
}

impl<K: Order, V, A: Allocator> Model for Map<K, V, A> {
    ghost use Rattle.std.specs.Prelude.{◌≡◌, List, length, zip};

    ghost Value = { List (K × V) };

    ghost view = { λ m. zip m.keys m.values.items };

    ghost invariant = { λ m. length m.values.items ≡ length m.keys };
}

impl<K: Ord, V, A: Allocator + Copy> Map<K, V, A> {
    /// Returns the map without pairs. It allocates nothing.
    /// ```
    /// let none: Map<u8, u8, Global> = Map::empty(alloc);
    /// assert!(rt; none.is_empty());
    /// ```
    pub fn empty(alloc: A) -> Self
        ensures { result ≡ [] }
    {
        Map {
            keys: Set::empty(alloc),
            values: Vec::new(alloc),
        }
    }
}

impl<K: Order, V, A: Allocator> Map<K, V, A> {
    /// Returns the map of keys and of the values at their positions. It requires that there are as
    /// many values as keys.
    pub(crate) fn from_columns(keys: Set<K, A>, values: Vec<V, A>) -> Self
        requires { length values.items ≡ length keys }
        ensures { result ≡ zip keys values.items }
    {
        Map { keys, values }
    }

    /// Returns the keys, and the values at their positions.
    pub(crate) fn into_columns(self) -> (Set<K, A>, Vec<V, A>)
        ensures { (result.0 ≡ keys_of self) × (result.1.items ≡ values_of self) }
    {
        let Map { keys, values } = self;
        (keys, values)
    }

    /// Returns the allocator of the map, which is that of its keys. The values of a map that
    /// `from_parts` made may be on another.
    /// ```
    /// let map = Map::try_from_array(alloc, [(2u8, 20u8), (1, 10)])?;
    /// let beside = Map::try_from_array(*map.allocator(), [(3u8, 30u8)])?;
    /// assert!(rt; beside.len() == 1);
    /// ```
    pub fn allocator(&self) -> &A {
        self.keys.allocator()
    }

    /// Returns how many pairs there are.
    /// ```
    /// let map = Map::try_from_array(alloc, [(2u8, 20u8), (1, 10)])?;
    /// assert!(rt; map.len() == 2);
    /// ```
    pub fn len(&self) -> usize
        ensures len { result ≡ length self.now }
        ensures strict { IsStrict K.order (keys_of self.now) }
    {
        self.keys.as_slice().len()
    }

    /// Whether there are no pairs.
    /// ```
    /// let map = Map::try_from_array(alloc, [(2u8, 20u8), (1, 10)])?;
    /// assert!(rt; !map.is_empty());
    /// ```
    pub fn is_empty(&self) -> bool
        ensures { result ≡ (length self.now == 0) }
    {
        self.len() == 0
    }

    /// Returns the keys.
    /// ```
    /// let map = Map::try_from_array(alloc, [(2u8, 20u8), (1, 10)])?;
    /// assert!(rt; map.keys().as_slice() == [1u8, 2].as_slice());
    /// ```
    pub fn keys(&self) -> &Set<K, A>
        ensures { result.now ≡ keys_of self.now }
    {
        &self.keys
    }

    /// Returns the values in the order of their keys.
    /// ```
    /// let map = Map::try_from_array(alloc, [(2u8, 20u8), (1, 10)])?;
    /// assert!(rt; map.values() == [10u8, 20].as_slice());
    /// ```
    pub fn values(&self) -> &[V]
        ensures { result.now ≡ values_of self.now }
    {
        self.values.as_slice()
    }

    /// Returns the key at a position, or `None` past the last.
    /// ```
    /// let map = Map::try_from_array(alloc, [(2u8, 20u8), (1, 10)])?;
    /// assert!(rt; map.get(1) == Some(&2) && map.get(2) == None);
    /// ```
    pub fn get(&self, index: usize) -> Option<&K>
        ensures { IsItemAt (keys_of self.now) index result }
    {
        self.keys().get(index)
    }

    /// Returns an iterator over the keys in order, from both ends.
    /// ```
    /// let map = Map::try_from_array(alloc, [(2u8, 20u8), (1, 10)])?;
    /// assert!(rt; map.iter().eq([1u8, 2].iter()));
    /// ```
    pub fn iter(&self) -> slice::Iter<'_, K>
        ensures rest { iter_rest result ≡ keys_of self.now }
        ensures bound { length (iter_rest result) < 2 ^ 64 }
        ensures runs { IterYieldsInOrder K }
        ensures runs_back { IterYieldsInReverse K }
    {
        self.keys().iter()
    }

    /// Returns the value at a position, or `None` past the last.
    /// ```
    /// let map = Map::try_from_array(alloc, [(2u8, 20u8), (1, 10)])?;
    /// assert!(rt; map.value(1) == Some(&20) && map.value(2) == None);
    /// ```
    pub fn value(&self, index: usize) -> Option<&V>
        ensures { IsItemAt (values_of self.now) index result }
    {
        self.values().get(index)
    }

    /// Returns what `position` does, and counts its comparisons of keys: of n pairs, where n has k
    /// binary digits, at most 1 + 3k/2.
    /// ```
    /// let map = Map::try_from_array(alloc, [(2u8, 20u8), (1, 10)])?;
    /// assert!(rt; map.position_counted(&2, &mut Uncounted) == Some(1));
    /// ```
    #[inline]
    pub fn position_counted<C: Counter>(&self, key: &K, count: &mut C) -> Option<usize>
    where
        K: CountedOrd<C>,
        ensures place { IsPlaceOf K.same (keys_of self.now) key.now result }
        ensures only { (p : ℕ)
            → (result ≡ Some p) ↔ HasEqualAt K.same (keys_of self.now) key.now p }
        ensures cost { IsLookUpCost (length self.now) (C.counted count.old) (C.counted count.new) }
    {
        self.keys().position_counted(key, count)
    }

    /// Returns what `get_value` does, and counts its comparisons of keys: of n pairs, where n has k
    /// binary digits, at most 1 + 3k/2.
    /// ```
    /// let map = Map::try_from_array(alloc, [(2u8, 20u8), (1, 10)])?;
    /// assert!(rt; map.get_value_counted(&2, &mut Uncounted) == Some(&20));
    /// ```
    #[inline]
    pub fn get_value_counted<C: Counter>(&self, key: &K, count: &mut C) -> Option<&V>
    where
        K: CountedOrd<C>,
        ensures value { option_copied result ≡ lookup (λ k. K.same k key.now) self.now }
        ensures cost { IsLookUpCost (length self.now) (C.counted count.old) (C.counted count.new) }
    {
        let index = self.position_counted(key, count)?;
        Some(&self.values()[index])
    }
}

impl<K: Ord, V, A: Allocator> Map<K, V, A> {
    /// Returns the position of the key that equals the given one, or `None` where none does. It
    /// makes as many comparisons as `position_counted`.
    /// ```
    /// let map = Map::try_from_array(alloc, [(2u8, 20u8), (1, 10)])?;
    /// assert!(rt; map.position(&2) == Some(1) && map.position(&3) == None);
    /// ```
    #[inline]
    pub fn position(&self, key: &K) -> Option<usize>
        ensures place { IsPlaceOf K.eq (keys_of self.now) key.now result }
        ensures only { (p : ℕ) → (result ≡ Some p) ↔ HasEqualAt K.eq (keys_of self.now) key.now p }
    {
        self.position_counted(key, &mut Uncounted)
    }

    /// Returns the value of the key that equals the given one, or `None` where none does. It makes
    /// as many comparisons as `get_value_counted`.
    /// ```
    /// let map = Map::try_from_array(alloc, [(2u8, 20u8), (1, 10)])?;
    /// assert!(rt; map.get_value(&2) == Some(&20) && map.get_value(&3) == None);
    /// ```
    #[inline]
    pub fn get_value(&self, key: &K) -> Option<&V>
        ensures { option_copied result ≡ lookup (λ k. K.eq k key.now) self.now }
    {
        self.get_value_counted(key, &mut Uncounted)
    }
}

impl<K: Order + Drop, V: Drop, A: Allocator> Map<K, V, A> {
    /// Returns the map of the keys, each with the value at its position, or `None` where there are
    /// not as many values as keys. It allocates nothing.
    /// ```
    /// let keys = Set::try_from_array(alloc, [1u8, 2])?;
    /// let values = vec![in alloc; 10u8, 20]?;
    /// let map = Map::from_parts(keys, values).expect(rt, "a value for each key");
    /// assert!(rt; map.get_value(&2) == Some(&20));
    /// ```
    pub fn from_parts(keys: Set<K, A>, values: Vec<V, A>) -> Option<Self>
        ensures whole { IsSome result ↔ (length values.items ≡ length keys) }
        ensures pairs { IfSome result (λ m. m ≡ zip keys values.items) }
    {
        if values.len() == keys.len() {
            Some(Map { keys, values })
        } else {
            None
        }
    }

    /// Keeps the first `len` pairs, or all of them where there are no more.
    /// ```
    /// let mut map = Map::try_from_array(alloc, [(2u8, 20u8), (1, 10)])?;
    /// map.truncate(1);
    /// assert!(rt; map.get_value(&1) == Some(&10) && map.get_value(&2) == None);
    /// ```
    pub fn truncate(&mut self, len: usize)
        ensures { self.new ≡ take len self.old }
    {
        self.keys.truncate(len);
        self.values.truncate(len);
    }
}

impl<K: Order, V: Drop, A: Allocator> Map<K, V, A> {
    /// Returns the keys. The values are dropped. It allocates nothing.
    /// ```
    /// let map = Map::try_from_array(alloc, [(2u8, 20u8), (1, 10)])?;
    /// assert!(rt; map.into_keys().as_slice() == [1u8, 2].as_slice());
    /// ```
    pub fn into_keys(self) -> Set<K, A>
        ensures { result ≡ keys_of self }
    {
        let Map { keys, values: _ } = self;
        keys
    }
}

impl<K: Ord + Drop, V: Drop, A: Allocator + Copy> Map<K, V, A> {
    /// Returns all pairs in the order of their keys. Of no pairs it allocates nothing.
    /// ```
    /// let keys = Set::try_from_array(alloc, [1u8, 2])?;
    /// let values = vec![in alloc; 10u8, 20]?;
    /// let map = Map::from_parts(keys, values).expect(rt, "a value for each key");
    /// let pairs = map.into_pairs()?;
    /// assert!(rt; pairs.as_slice() == [(1u8, 10u8), (2, 20)].as_slice());
    /// ```
    pub fn into_pairs(self) -> Result<Vec<(K, V), A>, AllocError>
        ensures pairs { IfOk result (λ pairs. pairs.items ≡ self) }
        ensures nothing { OnErr result (1 ≤ length self) }
    {
        let alloc = *self.values.allocator();
        let mut pairs = Vec::with_capacity(alloc, self.len())?;
        let (keys, values) = self.into_columns();
        for pair in keys.into_iter().zip(values) {
            pairs.push(pair)?;
        }
        Ok(pairs)
    }
}
