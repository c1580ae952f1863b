//! The calls that the program `speed` times: those of the collections, size by size.

mod bimaps;
mod built;
mod bytes;
mod certificates;
mod codec;
mod lists;
mod maps;
mod sets;
mod sizes;
mod wide;

pub use bimaps::time_bimaps;
pub use sizes::{Calls, time_size};
