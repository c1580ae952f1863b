//! Bimaps as they are displayed.
ghost use Rattle.std.specs.Fmt.{debug_list};
ghost use Rattle.commonware_map.specs.Pairs.{pair_text};

use super::BiMap;
use commonware_map::Map;
use std::alloc::Allocator;
use std::fmt;
use std::hash::Hash;

impl<K: Ord + fmt::Display, V: Eq + Hash + fmt::Display, A: Allocator> fmt::Display
    for BiMap<K, V, A> {
    ghost output = { debug_list (λ p. pair_text (K.output p.0) (V.output p.1)) };

    /// Writes `[`, the pairs as `(k, v)`, joined by `, `, and `]`.
    fn fmt<W: fmt::Write>(&self, f: &mut fmt::Formatter<W>) -> fmt::Result {
        write!(f, "{}", self.map)
    }
}

impl<K: Ord + fmt::Debug, V: Eq + Hash + fmt::Debug, A: Allocator> fmt::Debug for BiMap<K, V, A> {
    fn fmt<W: fmt::Write>(&self, f: &mut fmt::Formatter<W>) -> fmt::Result {
        let pairs = PairList { map: &self.map };
        f.debug_tuple("BiMap").field(&pairs).finish()
    }
}

/// A map, to be shown as the list of its pairs.
#[derive(Drop)]
struct PairList<'a, K: Ord, V, A: Allocator> {
    map: &'a Map<K, V, A>,
}

impl<'a, K: Ord + fmt::Debug, V: fmt::Debug, A: Allocator> fmt::Debug for PairList<'a, K, V, A> {
    fn fmt<W: fmt::Write>(&self, f: &mut fmt::Formatter<W>) -> fmt::Result {
        f.debug_list().entries(self.map.iter_pairs()).finish()
    }
}
