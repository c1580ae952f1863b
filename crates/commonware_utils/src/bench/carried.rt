//! The tests of the Rust crate under the names that they have there, and rows beside them.

pub(super) mod bimaps;
pub(super) mod faults;
pub(super) mod map_builders;
pub(super) mod maps;
pub(super) mod non_zero;
pub(super) mod participants;
pub(super) mod unions;
pub(super) mod vec_module_tests;
