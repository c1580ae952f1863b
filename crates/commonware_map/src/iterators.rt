//! The pairs of a map, one by one: iterators over keys and the values at their positions.

mod into_iter;
mod pairs;
mod pairs_mut;

pub use into_iter::MapIntoIter;
pub use pairs::Pairs;
pub use pairs_mut::PairsMut;
