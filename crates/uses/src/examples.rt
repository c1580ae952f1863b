//! Examples with numbers worked out by hand: those of the collections' documentation, each form of
//! each macro, and each public call on weights.

mod collections;
mod macros;
mod weights;
