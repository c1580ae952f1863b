//! A line on standard error.
ghost use Rattle.std.specs.Prelude.{◌≤◌, ℕ, List, length};
ghost use Rattle.std.specs.Io.KnownBytes.{Appends};

use crate::output::write_bytes;
use std::fmt::Display;
use std::io::{Cursor, Write};

/// The most bytes of a line that are written: over twice the longest line of a session.
const LINE: usize = 128;

/// Writes a line, in one write where the writer takes it whole. A line of more than 128 bytes, its
/// line feed included, is truncated to 128.
///
/// It allocates nothing. No call is made again after a failure, and a failure is no error, since
/// there is nobody left to tell.
pub fn say<E: Write, D: Display>(errors: &mut E, line: &D)
    ensures { (said : List ℕ) × (length said ≤ 128)
        × Appends (E.contents errors.old) (E.contents errors.new) said }
{
    let mut text = Cursor::new([0u8; LINE]);
    let _ = writeln!(text, "{line}");
    let len = (text.position() as usize).min(LINE);
    let _ = write_bytes(errors, &text.get_ref()[..len]);
}
