//! Why no non-empty list was made.
ghost use Rattle.std.specs.Prelude.{◌≡◌};
ghost use Rattle.commonware_vec.specs.declared.error.Error.TheVariants.{Memory};

use std::alloc::{AllocError, AllocFailed};

/// Why no non-empty list was made. A `Vec` without items gives `Empty`.
#[derive(Debug, PartialEq, Eq, Drop, thiserror::Error)]
pub enum Error {
    /// There are no items.
    #[error("cannot create NonEmptyVec from empty collection")]
    Empty,
    /// An allocation failed. Where there are no items, the error is `Empty`.
    #[error("out of memory")]
    Memory,
}

impl From<AllocError> for Error {
    ghost from_gives = { λ _ error. error ≡ Memory };

    fn from(_refused: AllocError) -> Error {
        Error::Memory
    }
}

impl<T: Drop> From<AllocFailed<T>> for Error {
    ghost from_gives = { λ _ error. error ≡ Memory };

    /// What wasn't taken is dropped.
    fn from(_refused: AllocFailed<T>) -> Error {
        Error::Memory
    }
}
