//! A piece of a reader's bytes.
//!
//! No call that fails is made again: an interrupted one is a failure like every other.
ghost use Rattle.std.specs.Prelude.{◌≡◌, ◌<◌, ◌≤◌, length, take, true, IfErr, IfOk, OnOk};
ghost use Rattle.std.specs.Io.KnownBytes.{Consumes, IsAtEnd, Keeps};

use crate::error::Failure;
use program_io::Watched;
use std::io::Read;

/// Reads into the room, once, and returns how many bytes there were: none only at the end.
///
/// The error is `ReadFailed`.
pub(crate) fn read_piece<R: Read>(input: &mut Watched<R>, room: &mut [u8]) -> Result<usize, Failure>
    requires { 0 < length room.old }
    ensures within { IfOk result (λ n. n ≤ length room.new) }
    ensures bytes { IfOk result (λ n.
        Consumes (R.remaining input.old.inner) (R.remaining input.new.inner) (take n room.new)) }
    ensures ended { IfOk result (λ n. n ≡ 0
        → IsAtEnd (R.remaining input.new.inner) × (input.new.ended ≡ true)) }
    ensures sound { OnOk result (input.new.failed ≡ input.old.failed) }

    // Where it gives up.
    ensures failed { IfErr result (λ e. (e ≡ Failure.ReadFailed) × (input.new.failed ≡ true)) }
    ensures kept { IfErr result (λ _.
        Keeps (R.remaining input.old.inner) (R.remaining input.new.inner)) }
{
    match input.read(room) {
        Ok(n) => Ok(n),
        Err(_) => Err(Failure::ReadFailed),
    }
}
