//! The pairs of a map that is consumed, one by one.
ghost use Rattle.commonware_map.specs.Pairs.{GivesPairsOf};

use super::Map;
use crate::iterators::MapIntoIter;
use std::alloc::Allocator;

impl<K: Ord + Drop, V: Drop, A: Allocator> IntoIterator for Map<K, V, A> {
    type Item = (K, V);

    type IntoIter = MapIntoIter<K, V, A>;

    ghost into_iter_gives = { GivesPairsOf };

    /// Returns the pairs in the order of their keys, from both ends, with the exact number left. It
    /// allocates nothing.
    fn into_iter(self) -> MapIntoIter<K, V, A> {
        let (keys, values) = self.into_columns();
        MapIntoIter::new(keys.into(), values)
    }
}
