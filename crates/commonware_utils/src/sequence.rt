//! Byte sequences of a fixed length, and numbers in big-endian order.

pub use commonware_sequence::{FixedBytes, U64, WrongLength, bytes_order};
