//! An iterator that counts how often `next` is called.
ghost use Rattle.std.specs.Prelude.{length};
ghost use Rattle.std.specs.Iterator.{at_most};
ghost use Rattle.std.specs.Iterator.SizeHint.{IsWithinCount};

use std::cell::Cell;

/// Gives the items of a list, and counts the calls of `next`.
#[derive(Drop)]
pub struct Drawn<'a, T> {
    rest: &'a [T],
    asked: &'a Cell<u32>,
    /// Whether it tells how many items are left.
    tells: bool,
}

impl<'a, T> Drawn<'a, T> {
    /// An iterator over these items, which counts on from what the counter says.
    pub fn new(items: &'a [T], asked: &'a Cell<u32>, tells: bool) -> Drawn<'a, T> {
        Drawn {
            rest: items,
            asked,
            tells,
        }
    }
}

impl<'a, T: Copy> Iterator for Drawn<'a, T> {
    type Item = T;

    ghost remaining = { λ s. at_most (length s.rest.now) };

    fn next(&mut self) -> Option<T> {
        self.asked.set(self.asked.get().saturating_add(1));
        let (first, rest) = self.rest.split_first()?;
        self.rest = rest;
        Some(*first)
    }

    fn size_hint(&self) -> (usize, Option<usize>) {
        if self.tells {
            let left = self.rest.len();
            (left, Some(left))
        } else {
            (0, None)
        }
    }
}
