//! Fault models: how many of n participants may be faulty, and how many make a quorum.

pub use commonware_faults::{
    Count, Faults, N3f1, N5f1, Resilience, counting_law, overlap_law, resilience_law,
    smaller_quorum, tolerated_faults,
};
