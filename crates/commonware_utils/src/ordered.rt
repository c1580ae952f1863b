//! Ordered collections: sets, maps and bimaps, quorums of a set, and what counts comparisons.

pub use commonware_bimap::{BiMap, bimap_fault_law};
pub use commonware_map::{
    Map, MapError, MapIntoIter, Pairs, PairsMut, map_fault_law, read_map_counted,
};
pub use commonware_ordered::{
    Comparisons, CountedOrd, Counter, Error, Order, Quorum, Set, Uncounted, count_members,
    look_up_law, read_set_counted, set_fault_law,
};
