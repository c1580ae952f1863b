//! Builders of maps: of equal keys the first pair stays, or equal keys are refused.
ghost use Rattle.std.specs.Prelude.{◌≡◌, ◌≤◌, IfOk, OnErr, length};
ghost use Rattle.std.specs.Iterator.{IsFiniteIterable};
ghost use Rattle.commonware_base.specs.Taken.{TakesAll, TakesSome};
ghost use Rattle.commonware_map.specs.Pairs.{on_both, on_keys};
ghost use Rattle.commonware_ordered.specs.Dedup.{IsDedup};
ghost use Rattle.commonware_ordered.specs.Strict.{IsStrict};
ghost use Rattle.commonware_ordered.specs.Whole.{IsRefusedFor, IsSetOfAll, IsWholeSet, IsWholeSetOfClones};

use super::Map;
use crate::SortedEntries;
use crate::gathered::dedup_columns;
use commonware_base::{EqClone, TryFromIterator, clones_of};
use commonware_ordered::{Error, Set};
use std::alloc::{AllocError, Allocator};

impl<K: Ord + Drop, V: Drop, A: Allocator + Copy> Map<K, V, A> {
    /// Returns the map of the pairs that an iterator gives, where of equal keys the first pair
    /// stays. The only error is an allocation failure, which comes only after a pair; it allocates
    /// for the pairs that stay. It takes O(n log n) comparisons.
    /// ```
    /// let map = Map::from_iter_dedup(alloc, [(2u8, 20u8), (1, 10), (2, 21)])?;
    /// assert!(rt; map.get_value(&2) == Some(&20));
    /// ```
    pub fn from_iter_dedup<I: IntoIterator<Item = (K, V)>>(
        alloc: A,
        iter: I,
    ) -> Result<Self, AllocError>
        requires { IsFiniteIterable I.into_iter_gives I.IntoIter.can_next
            I.IntoIter.remaining iter }
        ensures dedup { IfOk result (λ m. TakesAll I.into_iter_gives I.IntoIter.next_gives iter
            (λ ps. IsDedup (on_keys K.eq) (on_keys K.cmp) ps m)) }
        ensures nothing { OnErr result (TakesSome I.into_iter_gives I.IntoIter.next_gives iter
            (λ drawn _. 1 ≤ length drawn)) }
    {
        let (keys, values) = dedup_columns(alloc, iter)?;
        Ok(Map::from_columns(Set::from_strict(keys), values))
    }

    /// Returns the map of all the pairs, or `DuplicateKey` where two of their keys are equal. It
    /// takes O(n log n) comparisons.
    /// ```
    /// let map = Map::try_from_vec(vec![in alloc; (2u8, 20u8), (1, 10)]?)?;
    /// assert!(rt; map.get_value(&2) == Some(&20));
    /// ```
    pub fn try_from_vec(vec: Vec<(K, V), A>) -> Result<Self, Error>
        ensures { IsWholeSet (on_keys K.eq) (on_keys K.cmp) vec.items result }
    {
        let alloc = *vec.allocator();
        Map::try_from_iter(alloc, vec)
    }
}

impl<K: Ord + Drop, V: Drop, A: Allocator + Copy> TryFromIterator<(K, V), A> for Map<K, V, A> {
    type Error = Error;

    ghost collects = { IsSetOfAll (on_keys K.eq) (on_keys K.cmp) };

    ghost refuses = { λ drawn _ error. IsRefusedFor (on_keys K.eq) drawn error };

    /// Returns the map of all the pairs, or `DuplicateKey` where two keys of those that were drawn
    /// are equal: none is drawn after the first repeat. It takes O(n log n) comparisons.
    fn try_from_iter<I: IntoIterator<Item = (K, V)>>(alloc: A, iter: I) -> Result<Self, Error> {
        let rest = iter.into_iter();
        let coming = rest.size_hint().0;
        let mut entries = SortedEntries::empty(alloc);
        for (key, value) in rest {
            if !entries.insert_among(key, value, coming)? {
                return Err(Error::DuplicateKey);
            }
        }
        Ok(map_of(entries)?)
    }
}

impl<K: Ord + EqClone, V: Clone, A: Allocator + Copy> Map<K, V, A> {
    /// Returns the map of clones of all the pairs, or `DuplicateKey` where two of their keys are
    /// equal. It takes O(n log n) comparisons.
    /// ```
    /// let map = Map::try_from_slice(alloc, &[(2u8, 20u8), (1, 10)])?;
    /// assert!(rt; map.get_value(&2) == Some(&20));
    /// ```
    pub fn try_from_slice(alloc: A, pairs: &[(K, V)]) -> Result<Self, Error>
        ensures { IsWholeSetOfClones (on_keys K.eq) (on_keys K.cmp)
            (on_both K.is_clone V.is_clone) pairs.now result }
    {
        Map::try_from_vec(clones_of(alloc, pairs)?)
    }

    /// Returns the map of clones of all the pairs, or `DuplicateKey` where two of their keys are
    /// equal. The array is dropped. It takes O(n log n) comparisons.
    /// ```
    /// let twice = Map::try_from_array(alloc, [(2u8, 20u8), (2, 21)]);
    /// assert!(rt; twice.err() == Some(Error::DuplicateKey));
    /// ```
    pub fn try_from_array<const N: usize>(alloc: A, pairs: [(K, V); N]) -> Result<Self, Error>
        ensures { IsWholeSetOfClones (on_keys K.eq) (on_keys K.cmp)
            (on_both K.is_clone V.is_clone) pairs result }
    {
        Map::try_from_slice(alloc, &pairs)
    }

    /// Returns the map of clones of all the pairs, or `DuplicateKey` where two of their keys are
    /// equal. It takes O(n log n) comparisons.
    /// ```
    /// let map = Map::try_from_array_ref(alloc, &[(2u8, 20u8), (1, 10)])?;
    /// assert!(rt; map.get_value(&2) == Some(&20));
    /// ```
    pub fn try_from_array_ref<const N: usize>(alloc: A, pairs: &[(K, V); N]) -> Result<Self, Error>
        ensures { IsWholeSetOfClones (on_keys K.eq) (on_keys K.cmp)
            (on_both K.is_clone V.is_clone) pairs.now result }
    {
        Map::try_from_slice(alloc, pairs)
    }
}

/// Returns the map of the pairs of a builder.
fn map_of<K: Ord + Drop, V: Drop, A: Allocator + Copy>(
    entries: SortedEntries<K, V, A>,
) -> Result<Map<K, V, A>, AllocError>
    ensures pairs { IfOk result (λ m. m ≡ entries) }
    ensures strict { IfOk result (λ m. IsStrict (on_keys K.cmp) m) }
    ensures nothing { OnErr result (1 ≤ length entries) }
{
    let (keys, values) = entries.into_columns()?;
    Ok(Map::from_columns(Set::from_strict(keys), values))
}
