//! Bimaps: ordered maps whose values are pairwise unequal.
#![tactic(auto)]

mod bimap;

pub use bimap::{BiMap, bimap_fault_law};
