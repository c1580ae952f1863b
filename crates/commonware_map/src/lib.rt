//! Ordered collections: maps from strictly increasing keys to values, and the columns of maps: keys
//! in their order, and the values at their positions.
#![tactic(auto)]

mod distinct;
mod gathered;
mod iterators;
mod map;
mod map_error;
mod sorted_entries;
mod values;

pub use distinct::has_equal_values;
pub use iterators::{MapIntoIter, Pairs, PairsMut};
pub use map::{Map, map_fault_law, read_map_counted};
pub use map_error::MapError;
pub use sorted_entries::SortedEntries;
