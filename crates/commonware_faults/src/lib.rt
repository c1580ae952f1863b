//! Fault models of consensus: how many of n participants may be faulty, how many make a quorum, and
//! what that means of the subsets of the participants.
#![tactic(auto)]

mod count;
mod faults;
mod resilience;

pub use count::Count;
pub use faults::{Faults, N3f1, N5f1};
pub use resilience::{
    Resilience, counting_law, overlap_law, resilience_law, smaller_quorum, tolerated_faults,
};
