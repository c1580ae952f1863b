//! What counts the comparisons of a call, at no cost.
ghost use Rattle.std.specs.Prelude.{◌≡◌, ◌+◌, ◌<◌, ◌≤◌, ℕ};

use std::marker::Model;
use std::sync::ledger::{Blank, Book, Ledger, Share};

/// What counts comparisons. A call that takes one says by its clauses how many it makes at most,
/// and counts each as it makes it.
///
/// `Comparisons` counts for a proof and takes no bytes, `Uncounted` counts nothing, and one of your
/// own may count while the program runs.
pub trait Counter {
    /// How many comparisons were counted.
    ghost counted: { Self → ℕ };

    /// What a comparison adds: 1, or 0 where nothing is counted.
    ghost step: { ℕ };

    /// Counts one comparison.
    fn tick(&mut self)
        ensures count { counted self.new ≡ counted self.old + step }
        ensures cost { counted self.new ≤ counted self.old + 1 };
}

/// Counts nothing: the calls that take no counter pass this one.
#[derive(Clone, Copy, Debug)]
pub struct Uncounted;

impl Counter for Uncounted {
    ghost counted = { λ _. 0 };

    ghost step = { 0 };

    #[inline(always)]
    fn tick(&mut self) {}
}

/// How many comparisons were made, for proofs alone: it takes no bytes, and counting no time.
#[derive(Drop)]
pub struct Comparisons<L: Ledger> {
    book: Book<L>,
    share: Share<L>,
}

impl<L: Ledger> Model for Comparisons<L> {
    ghost Value = { ℕ };

    ghost view = { λ s. s.book.total };

    ghost invariant = { λ s. 0 < s.share.parts };
}

impl<L: Ledger> Comparisons<L> {
    /// Returns a count of none. It requires that the blank is that of the ledger, of any parts.
    #[inline(always)]
    pub fn none(blank: Blank) -> Self
        requires name { blank.name ≡ L.name }
        requires parts { blank.parts ≡ L.parts }
        requires some { 0 < blank.parts }
        ensures { result ≡ 0 }
    {
        let (book, share) = blank.open::<L>();
        Comparisons { book, share }
    }
}

impl<L: Ledger> Counter for Comparisons<L> {
    ghost counted = { λ made. made };

    ghost step = { 1 };

    #[inline(always)]
    fn tick(&mut self) {
        self.book.add(&mut self.share, 1);
    }
}
