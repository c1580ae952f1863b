//! Builders of bimaps: equal keys are refused, and then equal values. Each builder makes the map of
//! the pairs, and takes the time and the memory of `try_from_map` for its values.
ghost use Rattle.commonware_bimap.specs.WholeBiMaps.{IsBiMapOfAll, IsRefusedBiMap, IsWholeBiMap, IsWholeBiMapOfClones};
ghost use Rattle.commonware_map.specs.Pairs.{on_both};
ghost use Rattle.std.specs.Prelude.{◌≡◌, true};

use super::BiMap;
use commonware_base::{EqClone, TryFromIterator};
use commonware_map::Map;
use commonware_ordered::Error;
use std::alloc::Allocator;
use std::hash::Hash;

impl<K: Ord + Drop, V: Eq + Hash + Drop, A: Allocator + Copy> BiMap<K, V, A> {
    /// Returns the bimap of all the pairs; `DuplicateKey` where two of their keys are equal; else
    /// `DuplicateValue` where two of their values are, which are looked up in a hash set.
    /// ```
    /// let bimap = BiMap::try_from_vec(vec![in alloc; (2u8, 20u8), (1, 10)]?)?;
    /// assert!(rt; bimap.get_key(&20) == Some(&2));
    /// ```
    pub fn try_from_vec(vec: Vec<(K, V), A>) -> Result<Self, Error>
        ensures { IsWholeBiMap K.eq K.cmp V.eq vec.items result }
    {
        BiMap::try_from_map(Map::try_from_vec(vec)?)
    }
}

impl<K: Ord + Drop, V: Eq + Hash + Drop, A: Allocator + Copy> TryFromIterator<(K, V), A>
    for BiMap<K, V, A> {
    type Error = Error;

    ghost collects = { IsBiMapOfAll K.eq K.cmp V.eq };

    ghost refuses = { λ drawn ended error. IsRefusedBiMap K.eq V.eq (ended ≡ true) drawn error };

    /// Returns the bimap of all the pairs; `DuplicateKey` where two keys of those that were drawn
    /// are equal; else `DuplicateValue` where two values are, which are looked up in a hash set,
    /// and then all were drawn.
    fn try_from_iter<I: IntoIterator<Item = (K, V)>>(alloc: A, iter: I) -> Result<Self, Error> {
        BiMap::try_from_map(Map::try_from_iter(alloc, iter)?)
    }
}

impl<K: Ord + EqClone, V: EqClone + Hash, A: Allocator + Copy> BiMap<K, V, A> {
    /// Returns the bimap of clones of all the pairs; `DuplicateKey` where two of their keys are
    /// equal; else `DuplicateValue` where two of their values are, which are looked up in a hash
    /// set.
    /// ```
    /// let bimap = BiMap::try_from_slice(alloc, &[(2u8, 20u8), (1, 10)])?;
    /// assert!(rt; bimap.get_key(&20) == Some(&2));
    /// ```
    pub fn try_from_slice(alloc: A, pairs: &[(K, V)]) -> Result<Self, Error>
        ensures { IsWholeBiMapOfClones K.eq K.cmp V.eq
            (on_both K.is_clone V.is_clone) pairs.now result }
    {
        BiMap::try_from_map(Map::try_from_slice(alloc, pairs)?)
    }

    /// Returns the bimap of clones of all the pairs; `DuplicateKey` where two of their keys are
    /// equal; else `DuplicateValue` where two of their values are, which are looked up in a hash
    /// set. The array is dropped.
    /// ```
    /// let twice = BiMap::try_from_array(alloc, [(2u8, 20u8), (1, 20)]);
    /// assert!(rt; twice.err() == Some(Error::DuplicateValue));
    /// ```
    pub fn try_from_array<const N: usize>(alloc: A, pairs: [(K, V); N]) -> Result<Self, Error>
        ensures { IsWholeBiMapOfClones K.eq K.cmp V.eq
            (on_both K.is_clone V.is_clone) pairs result }
    {
        BiMap::try_from_slice(alloc, &pairs)
    }

    /// Returns the bimap of clones of all the pairs; `DuplicateKey` where two of their keys are
    /// equal; else `DuplicateValue` where two of their values are, which are looked up in a hash
    /// set.
    /// ```
    /// let bimap = BiMap::try_from_array_ref(alloc, &[(2u8, 20u8), (1, 10)])?;
    /// assert!(rt; bimap.get_key(&20) == Some(&2));
    /// ```
    pub fn try_from_array_ref<const N: usize>(alloc: A, pairs: &[(K, V); N]) -> Result<Self, Error>
        ensures { IsWholeBiMapOfClones K.eq K.cmp V.eq
            (on_both K.is_clone V.is_clone) pairs.now result }
    {
        BiMap::try_from_slice(alloc, pairs)
    }
}
