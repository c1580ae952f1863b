//! Why a run has written no report.

use commonware_base::codec;
use program_io::WriteFailed;

/// Why a run has written no report. Its `Display` text is the line that a session writes to
/// standard error: that of `LeftOver(1)` is `refused: 1 bytes left over`.
#[derive(Debug, PartialEq, Eq, Drop, thiserror::Error)]
pub enum RunError {
    /// The bytes begin with no committee.
    #[error("refused: {0}")]
    Refused(codec::Error),
    /// This number of bytes follows the committee.
    #[error("refused: {0} bytes left over")]
    LeftOver(usize),
    /// An allocation failed, or the reader gave more bytes than a `usize` counts.
    #[error("failed: out of memory")]
    Memory,
    /// The reader failed.
    #[error("failed: read")]
    ReadFailed,
    /// The writer failed, or took no byte of a non-empty slice.
    #[error("failed: write")]
    WriteFailed,
}

impl From<codec::Error> for RunError {
    ghost use Rattle.std.specs.Prelude.{◌≡◌};
    ghost use Rattle.committee_core.specs.Run.{refusal_of};

    ghost from_gives = { λ error refusal. refusal ≡ refusal_of error };

    /// `Memory` stays that; every other error of a decoder is a fault of the bytes.
    fn from(error: codec::Error) -> RunError {
        match error {
            codec::Error::Memory => RunError::Memory,
            fault => RunError::Refused(fault),
        }
    }
}

impl From<WriteFailed> for RunError {
    ghost use Rattle.std.specs.Prelude.{◌≡◌};
    ghost use Rattle.committee_core.specs.declared.error.RunError.{RunError};

    ghost from_gives = { λ _ error. error ≡ RunError.WriteFailed };

    /// The writer failed.
    fn from(_error: WriteFailed) -> RunError {
        RunError::WriteFailed
    }
}
