//! Why a run has stopped.
use program_io::WriteFailed;
use std::alloc::{AllocError, AllocFailed};
use std::fmt;

/// Why a run has stopped. Its text is the line that a run says: that of `Failure::Clock` is
/// `failed: clock`.
#[derive(Clone, Copy, PartialEq, Eq)]
pub enum Failure {
    /// An allocation failed.
    Memory,
    /// Standard output failed.
    Write,
    /// The clock failed.
    Clock,
}

impl fmt::Display for Failure {
    fn fmt<W: fmt::Write>(&self, f: &mut fmt::Formatter<W>) -> fmt::Result {
        let what = match self {
            Failure::Memory => "out of memory",
            Failure::Write => "write",
            Failure::Clock => "clock",
        };
        write!(f, "failed: {what}")
    }
}

impl From<AllocError> for Failure {
    ghost use Rattle.std.specs.Prelude.{◌≡◌};
    ghost use Rattle.speed_core.specs.declared.error.Failure.TheVariants.{Memory};

    ghost from_gives = { λ _ failure. failure ≡ Memory };

    fn from(_error: AllocError) -> Failure {
        Failure::Memory
    }
}

impl<T: Drop> From<AllocFailed<T>> for Failure {
    ghost use Rattle.std.specs.Prelude.{◌≡◌};
    ghost use Rattle.speed_core.specs.declared.error.Failure.TheVariants.{Memory};

    ghost from_gives = { λ _ failure. failure ≡ Memory };

    fn from(_error: AllocFailed<T>) -> Failure {
        Failure::Memory
    }
}

impl From<WriteFailed> for Failure {
    ghost use Rattle.std.specs.Prelude.{◌≡◌};
    ghost use Rattle.speed_core.specs.declared.error.Failure.{Failure};

    ghost from_gives = { λ _ failure. failure ≡ Failure.Write };

    fn from(_error: WriteFailed) -> Failure {
        Failure::Write
    }
}
