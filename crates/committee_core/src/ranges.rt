//! Two ranges of positions, and what they share.

use std::ops::Range;

/// A counterexample to quorum intersection: two subsets of the positions of some members, and how
/// many positions are in both. Where that is too few, they refute a number of a fault model.
///
/// Of 6 positions, the first 4 and the last 4 share 2: `first` is `0..4`, `second` is `2..6` and
/// `shared` is 2.
#[derive(Clone, Debug, Drop, PartialEq, Eq)]
pub struct Refutation {
    /// The first of the positions.
    pub first: Range<u32>,
    /// The last of the positions.
    pub second: Range<u32>,
    /// How many positions are in both.
    pub shared: u32,
}
