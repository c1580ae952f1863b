//! All the bytes to a writer.
ghost use Rattle.std.specs.Prelude.{◌≡◌, ◌++◌, ℕ, List, true, OnErr, OnOk};
ghost use Rattle.std.specs.Io.KnownBytes.{Appends};

use crate::watched::Watched;
use std::io::Write;

/// The writer failed, or took no byte of a non-empty slice.
#[derive(Clone, Copy, Debug, PartialEq, Eq, thiserror::Error)]
#[error("failed: write")]
pub struct WriteFailed;

/// Writes all the bytes, and flushes.
///
/// It fails at the first write that fails or takes no byte, or at the flush. Then a prefix of the
/// bytes was written.
pub fn write_whole<W: Write>(output: &mut Watched<W>, bytes: &[u8]) -> Result<(), WriteFailed>
    ensures bytes { OnOk result
        (Appends (W.contents output.old.inner) (W.contents output.new.inner) bytes.now) }
    ensures sound { OnOk result (output.new.failed ≡ output.old.failed) }
    ensures ended { output.new.ended ≡ output.old.ended }

    // Where it fails.
    ensures failed { OnErr result (output.new.failed ≡ true) }
    ensures beginning { (front back : List ℕ) × (bytes.now ≡ front ++ back)
        × Appends (W.contents output.old.inner) (W.contents output.new.inner) front }
{
    output.write_bytes(bytes)?;
    match output.flush() {
        Ok(()) => Ok(()),
        Err(_) => Err(WriteFailed),
    }
}

/// Writes all the bytes, in one write where the writer takes them whole, and flushes nothing.
///
/// It fails at the first write that fails or takes no byte, and makes no call after that one. What
/// was written is a prefix of the bytes.
pub fn write_bytes<W: Write>(output: &mut W, bytes: &[u8]) -> Result<(), WriteFailed>
    ensures bytes { OnOk result
        (Appends (W.contents output.old) (W.contents output.new) bytes.now) }
    ensures beginning { (front back : List ℕ) × (bytes.now ≡ front ++ back)
        × Appends (W.contents output.old) (W.contents output.new) front }
{
    let mut rest = bytes;
    while !rest.is_empty() {
        match output.write(rest) {
            Ok(n) if n > 0 => rest = &rest[n..],
            _ => return Err(WriteFailed),
        }
    }
    Ok(())
}
