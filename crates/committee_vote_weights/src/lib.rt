//! The members that signed both of two votes that contradict one another, and what they weigh.
#![tactic(auto)]

mod equivocations;
mod laws;
mod overlaps;

pub use equivocations::weighted_equivocation;
pub use laws::overlap_weight_law;
pub use overlaps::{WeightedOverlapError, weighted_overlap};
