//! Lists, sets and maps of byte sequences of one size, read in place.

pub use commonware_views::{Items, ListView, MapView, NoRoom, NotWhole, SetView};
