//! The pairs of a bimap, borrowed or by value, one by one.
ghost use Rattle.commonware_map.specs.Pairs.{GivesPairsOf, ShowsPairsOf};

use super::BiMap;
use commonware_map::{MapIntoIter, Pairs};
use std::alloc::Allocator;
use std::hash::Hash;

impl<K: Ord + Drop, V: Eq + Hash + Drop, A: Allocator> IntoIterator for BiMap<K, V, A> {
    type Item = (K, V);

    type IntoIter = MapIntoIter<K, V, A>;

    ghost into_iter_gives = { GivesPairsOf };

    /// Returns the pairs in the order of their keys, from both ends, with the exact number left. It
    /// allocates nothing.
    fn into_iter(self) -> MapIntoIter<K, V, A> {
        let BiMap { map } = self;
        map.into_iter()
    }
}

impl<'a, K: Ord, V: Eq + Hash, A: Allocator> IntoIterator for &'a BiMap<K, V, A> {
    type Item = (&'a K, &'a V);

    type IntoIter = Pairs<'a, K, V>;

    ghost into_iter_gives = { λ map left. ShowsPairsOf map.now left };

    /// Returns the pairs in the order of their keys, from both ends, with the exact number left.
    fn into_iter(self) -> Pairs<'a, K, V> {
        self.iter_pairs()
    }
}
