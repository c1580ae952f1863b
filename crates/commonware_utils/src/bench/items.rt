//! Items of the tests' own types, with the laws that they keep.

pub(super) mod descending;
pub(super) mod labelled;
pub(super) mod nothing;
