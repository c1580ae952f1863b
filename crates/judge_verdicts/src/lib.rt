//! What the oracle says: which value of a type an input begins with, what a builder makes of items
//! in any order, the position of an item, the numbers of a fault model, whether a quorum signed a
//! certificate, and who signed two of them; and the same where participants have weights. Each
//! verdict is a theorem of the library's own clauses.
#![tactic(auto)]

mod certificates;
mod collections;
mod columns;
mod conflict;
mod count_items;
mod equivocation;
mod judgement;
mod member;
mod numbers;
mod pairs;
mod places;
mod quorum;
mod sets;
mod verdict;
mod weighted_conflict;
mod weighted_equivocation;
mod weighted_members;
mod weighted_quorum;
mod weights;
mod whole;

pub use collections::{build, position};
pub use conflict::{NoConflict, conflict_of};
pub use count_items::CountItems;
pub use equivocation::{NoEquivocation, equivocation_of};
pub use judgement::{judge, judge_as};
pub use numbers::{FaultNumbers, Refutation, fault_numbers, refute};
pub use pairs::{build_bimap, build_map};
pub use places::{Found, position_as};
pub use quorum::{Checked, NoQuorum, SlotAndDecision, quorum_of};
pub use sets::{NotBuilt, build_set};
pub use verdict::Verdict;
pub use weighted_conflict::{NoWeightedConflict, weighted_conflict_of};
pub use weighted_equivocation::{NoWeightedEquivocation, weighted_equivocation_of};
pub use weighted_members::WeightedMembers;
pub use weighted_quorum::{NoWeightedQuorum, WeightChecked, weighted_quorum_of};
pub use weights::{NoWeights, WeightNumbers, weight_numbers};
pub use whole::{Misread, read_whole};
