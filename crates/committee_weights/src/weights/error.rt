//! Why numbers aren't the weights of a committee.
ghost use Rattle.std.specs.Prelude.{◌≡◌};
ghost use Rattle.committee_weights.specs.declared.weights.error.MapWeightsError.TheVariants.{Memory};

use std::alloc::AllocError;

/// Why a list of numbers isn't the weights of a committee.
///
/// The numbers 5, 0 and 0 give `Zero(1)`, and `u64::MAX`, 1 and 0 give `Overflow(1)`.
#[derive(Clone, Copy, Debug, PartialEq, Eq, thiserror::Error)]
pub enum WeightsError {
    /// There are none.
    #[error("no weights")]
    Empty,
    /// There are more than `u32::MAX`.
    #[error("more than 4294967295 weights")]
    TooMany,
    /// The weight at this index is the first that is 0, and the sum of those before it fits.
    #[error("the weight at index {0} is zero")]
    Zero(usize),
    /// With the weight at this index the sum is past `u64::MAX`, and no weight before it is 0.
    #[error("the sum of the weights overflows at index {0}")]
    Overflow(usize),
}

/// Why there are no weights of a map's values.
#[derive(Clone, Copy, Debug, PartialEq, Eq, thiserror::Error)]
pub enum MapWeightsError {
    /// The values, in the order of the keys, aren't the weights of a committee.
    #[error("{0}")]
    Refused(WeightsError),
    /// An allocation failed. It says nothing of the map.
    #[error("out of memory")]
    Memory,
}

impl From<AllocError> for MapWeightsError {
    ghost from_gives = { λ _ error. error ≡ Memory };

    fn from(_refused: AllocError) -> MapWeightsError {
        MapWeightsError::Memory
    }
}
