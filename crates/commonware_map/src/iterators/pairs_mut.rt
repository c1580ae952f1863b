//! Pairs of keys and values, the values mutably borrowed.
ghost use Rattle.std.specs.Prelude.{◌≡◌, IfSome, Some, length, zip};
ghost use Rattle.std.specs.Iterator.{UpTo, at_most};
ghost use Rattle.std.specs.Iterator.SizeHint.{IsWithinCount};
ghost use Rattle.commonware_map.specs.PairsMut.{CanStep, pairs_mut_left, pairs_mut_name, pairs_mut_steps, pairs_mut_steps_back};

use std::slice;

/// The pairs of keys and the values beside them, as a map has them in the order of its keys, from
/// both ends, each as a reference to the key and a mutable one to the value. Keys stay as they are.
///
/// A loop over the map `{1: 10, 2: 20, 3: 30}` that adds each key to its value leaves the values
/// `[11, 22, 33]`.
#[derive(Drop)]
pub struct PairsMut<'a, K, V> {
    keys: slice::Iter<'a, K>,
    values: slice::IterMut<'a, V>,
}

impl<'a, K, V> PairsMut<'a, K, V> {
    /// Returns the pairs of keys and of the values at their positions. It requires that there are
    /// as many values as keys.
    pub(crate) fn new(keys: &'a [K], values: &'a mut [V]) -> Self
        requires { length values.old ≡ length keys.now }
        ensures ready { CanStep result }
        ensures left { pairs_mut_left result ≡ zip keys.now values.old }
        ensures name { pairs_mut_name result ≡ values.entry.ghost_name }
    {
        PairsMut {
            keys: keys.iter(),
            values: values.iter_mut(),
        }
    }
}

impl<'a, K, V> Iterator for PairsMut<'a, K, V> {
    type Item = (&'a K, &'a mut V);

    ghost can_next = { CanStep };

    ghost next_gives = { pairs_mut_steps };

    ghost remaining = { λ pairs. at_most (length (pairs_mut_left pairs)) };

    /// Returns the first pair that is left, or `None` where none is.
    fn next(&mut self) -> Option<(&'a K, &'a mut V)> {
        let key = self.keys.next()?;
        let value = self.values.next()?;
        Some((key, value))
    }

    /// Returns the exact number of pairs that are left, twice.
    fn size_hint(&self) -> (usize, Option<usize>)
        ensures lower { IsWithinCount result.0 (at_most (length (pairs_mut_left self.now))) }
        ensures upper { IfSome result.1 (UpTo (at_most (length (pairs_mut_left self.now)))) }
        ensures exact { let left = length (pairs_mut_left self.now) in result ≡ (left, Some left) }
    {
        let left = self.len();
        (left, Some(left))
    }
}

impl<'a, K, V> DoubleEndedIterator for PairsMut<'a, K, V> {
    ghost can_next_back = { CanStep };

    ghost next_back_gives = { pairs_mut_steps_back };

    /// Returns the last pair that is left, or `None` where none is.
    fn next_back(&mut self) -> Option<(&'a K, &'a mut V)> {
        let key = self.keys.next_back()?;
        let value = self.values.next_back()?;
        Some((key, value))
    }
}

impl<'a, K, V> ExactSizeIterator for PairsMut<'a, K, V> {
    /// Returns the exact number of pairs that are left.
    fn len(&self) -> usize {
        self.keys.len().min(self.values.len())
    }
}
