//! What is said of an input.

use commonware_utils::codec::Error;

/// Which value of a type an input begins with.
///
/// As a set of bytes, `[2, 5, 9, 0xff, 0xff]` is `Accepted { items: 2, left: 2 }`.
#[derive(PartialEq, Eq, Drop)]
pub enum Verdict {
    /// It begins with the encoding of a value that the limits allow, which has `items` items, and
    /// `left` bytes follow. A number counts as one item, and a pair of a map as one.
    Accepted { items: usize, left: usize },
    /// It doesn't, and this is its first fault. It is never `Memory`.
    Refused(Error),
}
