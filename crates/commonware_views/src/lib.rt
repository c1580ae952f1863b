//! Lists, sets and maps of byte sequences of one size, read in place: nothing is allocated, and the
//! items stay where the input has them.
//!
//! Sizes are known when the program runs, so one program reads the keys of every chain. What a view
//! accepts, and the first fault (the decoding error) of every other input, is that of the
//! collection with `FixedBytes` of these sizes.
#![tactic(auto)]

mod counted;
mod items;
mod list;
mod map;
mod order;
mod repeats;
mod search;
mod set;

pub use items::Items;
pub use list::{ListView, NotWhole};
pub use map::MapView;
pub use repeats::NoRoom;
pub use set::SetView;
