//! A byte slice and a position in it.
ghost use Rattle.std.specs.Prelude.{◌≡◌, ◌+◌, ◌≤◌, ◌<◌, ◌↔◌, IsTrue, length};
ghost use Rattle.commonware_base.specs.Text.{AreBytes};
ghost use Rattle.std.proofs.Props.{props};

/// A byte slice and a position in it, at first 0. To go back, assign an earlier copy.
///
/// At first the source of `[3, 7, 8, 9, 0xff]` is at position 0, and 5 bytes are left. Once a
/// `Vec<u8>` is read from it, `[0xff]` is left.
#[derive(Clone, Copy, Debug)]
pub struct Source<'a> {
    bytes: &'a [u8],
    position: usize,
    ghost inside: { position ≤ length bytes.now },
    ghost are_bytes: { AreBytes bytes.now } by { Prim.hlevel props },
}

impl<'a> Source<'a> {
    ghost use Rattle.commonware_base.specs.Source.{bytes_of, position_of, rest_of};

    /// Returns a source of these bytes, before the first of them.
    pub fn new(bytes: &'a [u8]) -> Self
        ensures bytes { bytes_of result ≡ bytes.now }
        ensures position { position_of result ≡ 0 }
    {
        Source { bytes, position: 0 }
    }

    /// Returns how many bytes were taken.
    pub fn position(&self) -> usize
        ensures position { result ≡ position_of self.now }
        ensures inside { result ≤ length (bytes_of self.now) }
        ensures are_bytes { AreBytes (bytes_of self.now) }
    {
        self.position
    }

    /// Returns how many bytes are left.
    pub fn remaining(&self) -> usize
        ensures { result ≡ length (rest_of self.now) }
    {
        self.bytes.len() - self.position
    }

    /// Whether fewer than `count` bytes are left.
    ///
    /// It compares the position with a number that stays the same, and doesn't count what is left:
    /// so a loop that reads has nothing to subtract.
    #[inline(always)]
    pub(crate) fn lacks(&self, count: usize) -> bool
        ensures { IsTrue result ↔ length (rest_of self.now) < count }
    {
        self.bytes.len() < count || self.bytes.len() - count < self.position
    }

    /// Returns the bytes that are left.
    pub fn rest(&self) -> &'a [u8]
        ensures { result.now ≡ rest_of self.now }
    {
        &self.bytes[self.position..]
    }

    /// Takes `count` bytes, which is at most `remaining`.
    pub fn advance(&mut self, count: usize)
        requires { count ≤ length (rest_of self.old) }
        ensures bytes { bytes_of self.new ≡ bytes_of self.old }
        ensures position { position_of self.new ≡ position_of self.old + count }
    {
        self.position += count;
    }
}
