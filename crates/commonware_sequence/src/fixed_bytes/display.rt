//! Bytes as they are displayed: lowercase hexadecimal digits.
ghost use Rattle.std.specs.Prelude.{Some};
ghost use Rattle.std.specs.Fmt.{WritesOnOk};
ghost use Rattle.commonware_sequence.specs.Hex.{hex_digits, hex_text};

use super::FixedBytes;
use std::fmt;

impl<const N: usize> fmt::Display for FixedBytes<N> {
    ghost output = { λ it. Some (hex_text it) };

    /// Writes two digits for each byte, those of the first byte first.
    fn fmt<W: fmt::Write>(&self, f: &mut fmt::Formatter<W>) -> fmt::Result {
        for byte in &self.0 {
            write_byte(*byte, f)?;
        }
        Ok(())
    }
}

impl<const N: usize> fmt::Debug for FixedBytes<N> {
    ghost debug_output = { λ it. Some (hex_text it) };

    /// Writes what `Display` does.
    fn fmt<W: fmt::Write>(&self, f: &mut fmt::Formatter<W>) -> fmt::Result {
        fmt::Display::fmt(self, f)
    }
}

/// Writes the two digits of a byte.
#[tactic(auto, using(std::proofs::lemmas::Fmt::hex_byte))]
fn write_byte<W: fmt::Write>(byte: u8, f: &mut fmt::Formatter<W>) -> fmt::Result
    ensures { WritesOnOk W.write_str_gives f.old result (hex_digits byte) f.new }
{
    write!(f, "{byte:02x}")
}
