//! Why no collection was made.
ghost use Rattle.std.specs.Prelude.{◌≡◌};
ghost use Rattle.commonware_ordered.specs.declared.error.Error.TheVariants.{Memory};

use std::alloc::{AllocError, AllocFailed};

/// Why no collection was made.
///
/// The items 3, 1, 2 and 2 give `DuplicateKey`; in a bimap, the pairs `(1, 'a')`, `(2, 'b')` and
/// `(3, 'a')` give `DuplicateValue`.
#[derive(Debug, PartialEq, Eq, Drop, thiserror::Error)]
pub enum Error {
    /// Two items or two keys are equal.
    #[error("duplicate key")]
    DuplicateKey,
    /// Two values are equal, and no two keys.
    #[error("duplicate value")]
    DuplicateValue,
    /// An allocation failed. It says nothing of the items.
    #[error("out of memory")]
    Memory,
}

impl From<AllocError> for Error {
    ghost from_gives = { λ _ error. error ≡ Memory };

    fn from(_refused: AllocError) -> Error {
        Error::Memory
    }
}

impl<T: Drop> From<AllocFailed<T>> for Error {
    ghost from_gives = { λ _ error. error ≡ Memory };

    /// What wasn't taken is dropped.
    fn from(_refused: AllocFailed<T>) -> Error {
        Error::Memory
    }
}
