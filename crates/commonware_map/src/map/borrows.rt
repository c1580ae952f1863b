//! Mutable borrows of a map's values: what is written through one is all that changes.
ghost use Rattle.std.specs.Prelude.{◌≡◌, ◌<◌, length, slice_index_or};
ghost use Rattle.std.specs.Borrow.{sem};
ghost use Rattle.std.specs.Map.{lookup, values_of};
ghost use Rattle.std.specs.Option.{option_copied_mut};
ghost use Rattle.commonware_map.specs.Borrows.{BorrowsValueAt, BorrowsValueOf, BorrowsValues};

use super::Map;
use std::alloc::Allocator;

impl<K: Ord, V, A: Allocator> Map<K, V, A> {
    /// Returns a mutable borrow of the value of the key that equals the given one, or `None` where
    /// none does. It takes O(log n) comparisons.
    /// ```
    /// let mut map = Map::try_from_array(alloc, [(2u8, 20u8), (1, 10)])?;
    /// if let Some(value) = map.get_value_mut(&2) {
    ///     *value = 21;
    /// }
    /// assert!(rt; map.values() == [10u8, 21].as_slice());
    /// ```
    pub fn get_value_mut(&mut self, key: &K) -> Option<&mut V>
        ensures* writes_back { sem 𝓛 (BorrowsValueOf K.row V.row A.row
            K.cmp K.eq A.Allocator self.entry (λ k. K.eq k key.now) result) }
        ensures value { option_copied_mut result ≡ lookup (λ k. K.eq k key.now) self.old }
    {
        match self.position(key) {
            Some(index) => Some(self.value_mut(index)),
            None => None,
        }
    }

    /// Returns a mutable borrow of the values in the order of their keys.
    /// ```
    /// let mut map = Map::try_from_array(alloc, [(2u8, 20u8), (1, 10)])?;
    /// map.values_mut().reverse();
    /// assert!(rt; map.get_value(&1) == Some(&20));
    /// ```
    pub fn values_mut(&mut self) -> &mut [V]
        ensures* writes_back { sem 𝓛 (BorrowsValues K.row V.row A.row
            K.cmp K.eq A.Allocator self.entry result) }
        ensures value { result.now ≡ values_of self.old }
    {
        self.values.as_mut_slice()
    }

    /// Returns a mutable borrow of the value at a position. It requires that the position is
    /// inside.
    fn value_mut(&mut self, index: usize) -> &mut V
        requires { index < length self.old }
        ensures* writes_back { sem 𝓛 (BorrowsValueAt K.row V.row A.row
            K.cmp K.eq A.Allocator self.entry index result) }
        ensures value { result.now ≡ slice_index_or (values_of self.old) index result.now }
    {
        &mut self.values[index]
    }
}
