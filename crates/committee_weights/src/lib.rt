//! Participants that have weights, as stake or voting power: which quorums are safe, whether a
//! quorum signed a certificate, and which members signed both of two, or equivocated.
#![tactic(auto)]

mod accountability;
mod certified;
mod conflicts;
mod equivocations;
mod greatest;
mod keyed;
mod laws;
mod ones;
mod quorums;
mod refutations;
mod slices;
mod weights;

pub use accountability::weighted_safety_law;
pub use certified::{both_certified_by_weight, weighted_safety_of};
pub use conflicts::{WeightedConflictError, weighted_conflict};
pub use equivocations::{WeightedEquivocationError, weighted_equivocation};
pub use greatest::greatest_safe;
pub use keyed::{ReadWeightsError, read_weights, read_weights_law};
pub use laws::weight_law;
pub use ones::ones_law;
pub use quorums::{WeightedQuorumError, check_weight};
pub use refutations::{WeightRefutation, weight_refutation};
pub use slices::{tolerated_weight, total_weight, weight_of_indices, weight_of_signers};
pub use weights::{MapWeightsError, Weights, WeightsError};
