//! What the ordered collections, quorums and certificates are built on: encodings with laws,
//! participants, clones that equal their source, and collecting that may fail.
#![tactic(auto)]

pub mod codec;
mod eq_clone;
mod golden_ratio;
mod participant;
mod sizes;
mod try_from_iterator;
mod unions;
mod widen;

pub use eq_clone::{EqClone, clones_of};
pub use golden_ratio::{GOLDEN_RATIO, golden_ratio_law};
pub use participant::Participant;
pub use sizes::{MAX_ALLOCATION_BYTES, max, max_allocation_law};
pub use try_from_iterator::{TryCollect, TryFromIterator};
pub use unions::{union, union_unique};
pub use widen::Widen;
