//! The pairs of a map, whose values are mutably borrowed.
ghost use Rattle.std.specs.Prelude.{◌≡◌, ◌<◌, ◌^◌, length};
ghost use Rattle.std.specs.Borrow.{sem};
ghost use Rattle.commonware_map.specs.Borrows.{BorrowsValuesTo};
ghost use Rattle.commonware_map.specs.PairsMut.{CanStep, BorrowsInOrder, BorrowsInReverse, pairs_mut_left, pairs_mut_name};

use super::Map;
use crate::iterators::PairsMut;
use std::alloc::Allocator;

impl<K: Ord, V, A: Allocator> Map<K, V, A> {
    /// Returns the pairs in the order of their keys, from both ends, with the exact number left.
    /// Each value may be written; keys and their number stay.
    /// ```
    /// let mut map = Map::try_from_array(alloc, [(2u8, 20u8), (1, 10)])?;
    /// for (key, value) in map.iter_pairs_mut() {
    ///     *value = *key;
    /// }
    /// assert!(rt; map.values() == [1u8, 2].as_slice());
    /// ```
    pub fn iter_pairs_mut(&mut self) -> PairsMut<'_, K, V>
        ensures* writes_back { sem 𝓛 (BorrowsValuesTo K.row V.row A.row
            K.cmp K.eq A.Allocator self.entry (pairs_mut_name result)) }
        ensures ready { CanStep result }
        ensures pairs { pairs_mut_left result ≡ self.old }
        ensures bound { length self.old < 2 ^ 64 }
        ensures runs { BorrowsInOrder K V }
        ensures runs_back { BorrowsInReverse K V }
    {
        PairsMut::new(self.keys.as_slice(), self.values.as_mut_slice())
    }
}
