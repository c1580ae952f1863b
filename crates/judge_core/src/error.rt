//! Why a run has not answered all lines.

use program_io::WriteFailed;
use std::alloc::AllocError;

/// Why a run has not answered all lines. Its `Display` is the line that a session says: that of
/// `Failure::Memory` is `failed: out of memory`.
#[derive(Clone, Copy, Debug, PartialEq, Eq, thiserror::Error)]
pub enum Failure {
    /// An allocation failed.
    #[error("failed: out of memory")]
    Memory,
    /// The reader failed.
    #[error("failed: read")]
    ReadFailed,
    /// The writer failed, or took none of some bytes.
    #[error("failed: write")]
    WriteFailed,
    /// The reader gave 2^64 - 1 pieces and had not ended.
    #[error("failed: too many reads")]
    TooLong,
}

impl From<AllocError> for Failure {
    ghost use Rattle.std.specs.Prelude.{◌≡◌};
    ghost use Rattle.judge_core.specs.declared.error.Failure.TheVariants.{Memory};

    ghost from_gives = { λ _ failure. failure ≡ Memory };

    fn from(_error: AllocError) -> Failure {
        Failure::Memory
    }
}

impl From<WriteFailed> for Failure {
    ghost use Rattle.std.specs.Prelude.{◌≡◌};
    ghost use Rattle.judge_core.specs.declared.error.Failure.{Failure};

    ghost from_gives = { λ _ failure. failure ≡ Failure.WriteFailed };

    fn from(_error: WriteFailed) -> Failure {
        Failure::WriteFailed
    }
}
