//! Byte sequences of a fixed length, as keys, addresses and digests are, and numbers in big-endian
//! order. Each is an item of every collection.
#![tactic(auto)]

mod fixed_bytes;
mod order;
mod u64;

pub use fixed_bytes::{FixedBytes, WrongLength};
pub use order::{Prefixed, bytes_order};
pub use u64::U64;
