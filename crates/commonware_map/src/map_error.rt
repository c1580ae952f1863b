//! Why no map of new values was made.
ghost use Rattle.std.specs.Prelude.{◌≡◌};

use std::alloc::AllocError;

/// Why no map of new values was made. A closure that fails with 7 at the second key gives
/// `Closure(7)`, and isn't called again.
#[derive(Debug, PartialEq, Eq, Drop, thiserror::Error)]
pub enum MapError<E> {
    /// An allocation failed. It says nothing of the values.
    #[error("out of memory")]
    Memory,
    /// The first error of the closure.
    #[error("the closure failed")]
    Closure(E),
}

impl<E> From<AllocError> for MapError<E> {
    ghost use Rattle.commonware_map.specs.declared.map_error.MapError.{MapError};
    ghost use Rattle.commonware_map.specs.declared.map_error.MapError.TheVariants.{Memory};

    ghost from_gives = { λ _ error. error ≡ Memory };

    fn from(_refused: AllocError) -> MapError<E> {
        MapError::Memory
    }
}
