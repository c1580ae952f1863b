//! What each error says.
use crate::bench::{is_debugged_as, is_shown_as};
use crate::ordered::MapError;
use crate::{codec, ordered, vec};
use std::alloc::Global;
use std::fmt::Display;

/// Errors of the codec and what they say.
static OF_TEXTS: [(codec::Error, &str); 5] = [
    (codec::Error::EndOfBuffer, "end of input"),
    (codec::Error::InvalidVarint, "invalid varint"),
    (codec::Error::InvalidLength(257), "length 257"),
    (codec::Error::Invalid("Set", "a rule"), "Set: a rule"),
    (codec::Error::Memory, "out of memory"),
];

/// Errors of sets, maps and bimaps.
static OF_SETS: [(ordered::Error, &str); 3] = [
    (ordered::Error::DuplicateKey, "duplicate key"),
    (ordered::Error::DuplicateValue, "duplicate value"),
    (ordered::Error::Memory, "out of memory"),
];

/// Errors of maps of new values.
static OF_VALUES: [(MapError<u8>, &str); 2] = [
    (MapError::Memory, "out of memory"),
    (MapError::Closure(7), "the closure failed"),
];

/// Errors of non-empty lists.
static OF_LISTS: [(vec::Error, &str); 2] = [
    (
        vec::Error::Empty,
        "cannot create NonEmptyVec from empty collection",
    ),
    (vec::Error::Memory, "out of memory"),
];

/// Whether each error says what is beside it.
fn say<E: Display>(alloc: Global, rows: &[(E, &str)]) -> bool {
    for (error, message) in rows {
        if !is_shown_as(alloc, error, message) {
            return false;
        }
    }
    true
}

#[test]
fn errors_say_what_is_wrong(rt: HostRuntime) {
    let alloc = rt.alloc();
    assert!(rt;
        say(alloc, &OF_TEXTS)
            && say(alloc, &OF_SETS)
            && say(alloc, &OF_VALUES)
            && say(alloc, &OF_LISTS)
            && is_debugged_as(alloc, &MapError::<u8>::Memory, "Memory")
            && is_debugged_as(alloc, &MapError::Closure(7u8), "Closure(7)")
    );
}
