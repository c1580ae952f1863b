//! Non-empty lists, and queues of a fixed capacity.

pub use commonware_vec::{Bounded, Error, Mutate, NonEmptyVec, non_empty_fault_law};
