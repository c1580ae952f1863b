//! Ordered collections and quorums for Byzantine consensus: one order of participants, one
//! canonical encoding of each collection.
//!
//! The crate re-exports its lower crates, so that a user names it alone.
#![tactic(auto)]

#[cfg(test)]
mod bench;
pub mod faults;
pub mod headline;
mod macros;
pub mod ordered;
pub mod sequence;
pub mod vec;
pub mod views;

pub use commonware_base::{
    EqClone, GOLDEN_RATIO, MAX_ALLOCATION_BYTES, Participant, TryCollect, TryFromIterator, Widen,
    codec, golden_ratio_law, max, max_allocation_law, union, union_unique,
};
pub use commonware_faults::{Faults, N3f1, N5f1};
