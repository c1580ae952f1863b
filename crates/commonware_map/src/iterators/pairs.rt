//! Pairs of keys and values, borrowed one by one.
ghost use Rattle.std.specs.Prelude.{◌≡◌, IfSome, Some, length, zip};
ghost use Rattle.std.specs.Iterator.{UpTo, at_most};
ghost use Rattle.std.specs.Iterator.SizeHint.{IsWithinCount};
ghost use Rattle.std.specs.Map.Iter.{TakesFirst, TakesLast, deref_pair};

use std::marker::Model;
use std::slice;

/// The pairs of keys and the values beside them, as a map has them in the order of its keys, from
/// both ends, each as a reference to the key and one to the value. It is seen as the list of the
/// pairs that are left.
///
/// Over the map `{1: 10, 2: 20, 3: 30}`, `next` returns `(&1, &10)`, then `next_back` returns
/// `(&3, &30)`, and 1 pair is left.
#[derive(Drop)]
pub struct Pairs<'a, K, V> {
    keys: slice::Iter<'a, K>,
    values: slice::Iter<'a, V>,
}

impl<'a, K, V> Model for Pairs<'a, K, V> {
    ghost use Rattle.std.specs.Prelude.{◌≡◌, List, length, zip};
    ghost use Rattle.std.specs.Slice.Iter.{iter_rest};

    ghost Value = { List (K × V) };

    ghost view = { λ pairs. zip (iter_rest pairs.keys) (iter_rest pairs.values) };

    ghost invariant = { λ pairs. length (iter_rest pairs.values) ≡ length (iter_rest pairs.keys) };
}

impl<'a, K, V> Pairs<'a, K, V> {
    /// Returns the pairs of keys and of the values at their positions. It requires that there are
    /// as many values as keys.
    pub(crate) fn new(keys: &'a [K], values: &'a [V]) -> Self
        requires { length values.now ≡ length keys.now }
        ensures { result ≡ zip keys.now values.now }
    {
        Pairs {
            keys: keys.iter(),
            values: values.iter(),
        }
    }
}

impl<'a, K, V> Iterator for Pairs<'a, K, V> {
    type Item = (&'a K, &'a V);

    ghost next_gives = { TakesFirst deref_pair };

    ghost remaining = { λ left. at_most (length left) };

    /// Returns the first pair that is left, or `None` where none is.
    fn next(&mut self) -> Option<(&'a K, &'a V)> {
        let key = self.keys.next()?;
        let value = self.values.next()?;
        Some((key, value))
    }

    /// Returns the exact number of pairs that are left, twice.
    fn size_hint(&self) -> (usize, Option<usize>)
        ensures lower { IsWithinCount result.0 (at_most (length self.now)) }
        ensures upper { IfSome result.1 (UpTo (at_most (length self.now))) }
        ensures exact { result ≡ (length self.now, Some (length self.now)) }
    {
        let left = self.len();
        (left, Some(left))
    }
}

impl<'a, K, V> DoubleEndedIterator for Pairs<'a, K, V> {
    ghost next_back_gives = { TakesLast deref_pair };

    /// Returns the last pair that is left, or `None` where none is.
    fn next_back(&mut self) -> Option<(&'a K, &'a V)> {
        let key = self.keys.next_back()?;
        let value = self.values.next_back()?;
        Some((key, value))
    }
}

impl<'a, K, V> ExactSizeIterator for Pairs<'a, K, V> {
    /// Returns the exact number of pairs that are left.
    fn len(&self) -> usize {
        self.keys.len()
    }
}
