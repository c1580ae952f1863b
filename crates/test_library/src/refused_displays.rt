//! Sets, maps and bimaps shown as a text on a heap, with each allocation failing in turn.
use commonware_utils::TryFromIterator;
use commonware_utils::ordered::{BiMap, Error, Map, Set};
use std::fmt::{Debug, Display};
use test_equipment::walk::{Heap, Outcome, Refusable, full, makes_requests, refused};

/// What is shown.
#[derive(Clone, Copy)]
enum Collection {
    Set,
    Map,
    BiMap,
}

/// A collection of three entries, whether it is shown by `Debug`, and its text.
#[derive(Clone, Copy)]
struct Shown(Collection, bool, &'static str);

static SHOWN: [Shown; 6] = [
    Shown(Collection::Set, false, "[1, 200, 300]"),
    Shown(Collection::Set, true, "Set([1, 200, 300])"),
    Shown(Collection::Map, false, "[(1, 40), (200, 5), (300, 5)]"),
    Shown(Collection::Map, true, "Map([(1, 40), (200, 5), (300, 5)])"),
    Shown(Collection::BiMap, false, "[(1, 40), (200, 5), (300, 60)]"),
    Shown(
        Collection::BiMap,
        true,
        "BiMap([(1, 40), (200, 5), (300, 60)])",
    ),
];

/// The text of a value on the heap. `None` if it was refused by an allocation failure.
fn text_of<H: Heap, T: Display + Debug>(heap: H, value: &T, debug: bool) -> Option<String<H>> {
    if debug {
        format!(in heap; "{value:?}").ok()
    } else {
        format!(in heap; "{value}").ok()
    }
}

impl Shown {
    /// The text of the collection, for which `granted` requests are granted before one is refused.
    fn text<H: Heap>(&self, heap: H, granted: u64) -> Result<Option<String<H>>, Error> {
        let Shown(collection, debug, _) = *self;
        match collection {
            Collection::Set => {
                let set = Set::from_iter_dedup(heap, [300u16, 1, 200]).map_err(Error::from);
                text_of_made(heap, granted, set, debug)
            }
            Collection::Map => {
                let map = Map::try_from_iter(heap, [(300u16, 5u16), (1, 40), (200, 5)]);
                text_of_made(heap, granted, map, debug)
            }
            Collection::BiMap => {
                let bimap = BiMap::try_from_iter(heap, [(300u16, 60u16), (1, 40), (200, 5)]);
                text_of_made(heap, granted, bimap, debug)
            }
        }
    }
}

/// The text of a collection that was made, if it was.
fn text_of_made<H: Heap, T: Display + Debug + Drop>(
    heap: H,
    granted: u64,
    made: Result<T, Error>,
    debug: bool,
) -> Result<Option<String<H>>, Error> {
    let value = made?;
    heap.restart(granted);
    Ok(text_of(heap, &value, debug))
}

impl Refusable for Shown {
    fn outcome<H: Heap>(&self, heap: H, granted: u64) -> Outcome {
        match self.text(heap, granted) {
            Ok(Some(text)) => full(text.as_str() == self.2),
            Ok(None) => refused(true),
            Err(_) => Outcome::Wrong,
        }
    }
}

#[test]
fn each_request_is_refused_in_turn(rt: HostRuntime) {
    for (at, shown) in SHOWN.iter().enumerate() {
        assert!(rt; makes_requests(rt.alloc(), shown, 1), "{at}");
    }
}
