//! The pairs of a map, borrowed one by one.
ghost use Rattle.std.specs.Prelude.{◌≡◌, ◌<◌, ◌^◌, length};
ghost use Rattle.std.specs.Map.Iter.{ShowsInOrder, ShowsInReverse, deref_pair};
ghost use Rattle.commonware_map.specs.Pairs.{ShowsPairsOf};

use super::Map;
use crate::iterators::Pairs;
use commonware_ordered::Order;
use std::alloc::Allocator;

impl<K: Order, V, A: Allocator> Map<K, V, A> {
    /// Returns the pairs in the order of their keys, from both ends, with the exact number left.
    /// ```
    /// let map = Map::try_from_array(alloc, [(2u8, 20u8), (1, 10)])?;
    /// let mut sum = 0u64;
    /// for (key, value) in map.iter_pairs() {
    ///     sum = sum.wrapping_add(u64::from(*key) * u64::from(*value));
    /// }
    /// assert!(rt; sum == 50);
    /// ```
    pub fn iter_pairs(&self) -> Pairs<'_, K, V>
        ensures pairs { result ≡ self.now }
        ensures bound { length self.now < 2 ^ 64 }
        ensures runs { ShowsInOrder (deref_pair {K = K} {X = V}) }
        ensures runs_back { ShowsInReverse (deref_pair {K = K} {X = V}) }
    {
        Pairs::new(self.keys().as_slice(), self.values())
    }
}

impl<'a, K: Ord, V, A: Allocator> IntoIterator for &'a Map<K, V, A> {
    type Item = (&'a K, &'a V);

    type IntoIter = Pairs<'a, K, V>;

    ghost into_iter_gives = { λ map left. ShowsPairsOf map.now left };

    /// Returns the pairs in the order of their keys, from both ends, with the exact number left.
    fn into_iter(self) -> Pairs<'a, K, V> {
        self.iter_pairs()
    }
}
