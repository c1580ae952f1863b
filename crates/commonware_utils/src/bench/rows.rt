//! The worked rows and vectors, a file a subject, a table a kind.

pub(super) mod bimap_values;
pub(super) mod clones;
pub(super) mod example;
pub(super) mod headline;
pub(super) mod hostile;
pub(super) mod insertion;
pub(super) mod lists;
pub(super) mod map_pairs;
pub(super) mod map_values;
pub(super) mod messages;
pub(super) mod non_empty_lists;
pub(super) mod numbers;
pub(super) mod prefixes;
pub(super) mod quorums;
pub(super) mod ranges;
pub(super) mod resilience;
pub(super) mod set_builders;
pub(super) mod set_calls;
pub(super) mod sets;
