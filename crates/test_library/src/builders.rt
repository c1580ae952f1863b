//! The builders that sets and maps have alike, and what an error of one of them is.
use commonware_utils::ordered::Error;
use test_equipment::walk::{Outcome, full, refused};

/// A way to make a set of items, or a map of pairs.
#[derive(Clone, Copy)]
pub(super) enum Builder {
    Dedup,
    Iterator,
    Collect,
    List,
    Slice,
    Array,
    ArrayRef,
}

/// Each of them.
pub(super) static BUILDERS: [Builder; 7] = [
    Builder::Dedup,
    Builder::Iterator,
    Builder::Collect,
    Builder::List,
    Builder::Slice,
    Builder::Array,
    Builder::ArrayRef,
];

/// The outcome of an error where this one is wanted, if any: an allocation failure is a refusal.
pub(super) fn outcome_of_error(error: Error, wanted: Option<&Error>) -> Outcome {
    if error == Error::Memory {
        refused(true)
    } else {
        full(wanted == Some(&error))
    }
}
