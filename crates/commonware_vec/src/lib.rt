//! Lists with at least one item, and queues of a fixed capacity.
#![tactic(auto)]

mod bounded;
mod error;
mod mutate;
mod non_empty;

pub use bounded::Bounded;
pub use error::Error;
pub use mutate::Mutate;
pub use non_empty::{NonEmptyVec, non_empty_fault_law};
