//! Pairs of keys and values, by value, one by one.
ghost use Rattle.std.specs.Prelude.{◌≡◌, IfSome, Some, length, zip};
ghost use Rattle.std.specs.Iterator.{UpTo, at_most};
ghost use Rattle.std.specs.Iterator.SizeHint.{IsWithinCount};
ghost use Rattle.std.specs.Map.Iter.{TakesFirst, TakesLast};

use std::alloc::Allocator;
use std::marker::Model;
use std::vec;

/// The pairs of keys and the values beside them, as a map has them in the order of its keys, from
/// both ends. It is seen as the list of the pairs that are left.
///
/// Over the map `{1: 10, 2: 20}`, `next_back` returns `(2, 20)`, then `next` returns `(1, 10)`, and
/// no pair is left.
#[derive(Drop)]
pub struct MapIntoIter<K, V, A: Allocator> {
    keys: vec::IntoIter<K, A>,
    values: vec::IntoIter<V, A>,
}

impl<K, V, A: Allocator> Model for MapIntoIter<K, V, A> {
    ghost use Rattle.std.specs.Prelude.{◌≡◌, List, length, zip};
    ghost use Rattle.std.specs.Vec.Iter.{into_iter_items};

    ghost Value = { List (K × V) };

    ghost view = { λ pairs. zip (into_iter_items pairs.keys) (into_iter_items pairs.values) };

    ghost invariant = { λ pairs.
        length (into_iter_items pairs.values) ≡ length (into_iter_items pairs.keys) };
}

impl<K, V, A: Allocator> MapIntoIter<K, V, A> {
    /// Returns the pairs of keys and of the values at their positions. It requires that there are
    /// as many values as keys, and allocates nothing.
    pub(crate) fn new(keys: Vec<K, A>, values: Vec<V, A>) -> Self
        requires { length values.items ≡ length keys.items }
        ensures { result ≡ zip keys.items values.items }
    {
        MapIntoIter {
            keys: keys.into_iter(),
            values: values.into_iter(),
        }
    }
}

impl<K: Drop, V: Drop, A: Allocator> Iterator for MapIntoIter<K, V, A> {
    type Item = (K, V);

    ghost next_gives = { TakesFirst (λ pair. pair) };

    ghost remaining = { λ left. at_most (length left) };

    /// Returns the first pair that is left, or `None` where none is.
    fn next(&mut self) -> Option<(K, V)> {
        let key = self.keys.next()?;
        let value = self.values.next()?;
        Some((key, value))
    }

    /// Returns the exact number of pairs that are left, twice.
    fn size_hint(&self) -> (usize, Option<usize>)
        ensures lower { IsWithinCount result.0 (at_most (length self.now)) }
        ensures upper { IfSome result.1 (UpTo (at_most (length self.now))) }
        ensures exact { result ≡ (length self.now, Some (length self.now)) }
    {
        let left = self.len();
        (left, Some(left))
    }
}

impl<K: Drop, V: Drop, A: Allocator> DoubleEndedIterator for MapIntoIter<K, V, A> {
    ghost next_back_gives = { TakesLast (λ pair. pair) };

    /// Returns the last pair that is left, or `None` where none is.
    fn next_back(&mut self) -> Option<(K, V)> {
        let key = self.keys.next_back()?;
        let value = self.values.next_back()?;
        Some((key, value))
    }
}

impl<K: Drop, V: Drop, A: Allocator> ExactSizeIterator for MapIntoIter<K, V, A> {
    /// Returns the exact number of pairs that are left.
    fn len(&self) -> usize {
        self.keys.len()
    }
}
