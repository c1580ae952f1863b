//! What a collection that was built counts as.

use crate::error::Failure;
use commonware_utils::ordered;

/// What a collection that was built counts as: its length, or 1 where it was refused for the
/// entries that it was to have.
pub(crate) fn count_built(length: Result<usize, ordered::Error>) -> Result<u64, Failure> {
    match length {
        Ok(length) => Ok(length as u64),
        Err(ordered::Error::Memory) => Err(Failure::Memory),
        Err(_) => Ok(1),
    }
}
