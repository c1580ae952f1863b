//! Conversions of bytes of one length.
ghost use Rattle.std.specs.Prelude.{◌≡◌, ◌≢◌, MatchResult, length};

use super::FixedBytes;
use std::convert::AsSlice;

/// The error of a conversion: a slice has another length than the type. For `FixedBytes<32>` a
/// slice of 31 bytes gives an error that says `expected 32 bytes, got 31`.
#[derive(Clone, Copy, Debug, PartialEq, Eq, thiserror::Error)]
#[error("expected {expected} bytes, got {actual}")]
pub struct WrongLength {
    /// How many bytes the type has.
    pub expected: usize,
    /// How many bytes the slice has.
    pub actual: usize,
}

impl<const N: usize> From<[u8; N]> for FixedBytes<N> {
    ghost from_gives = { λ bytes it. it ≡ bytes };

    fn from(bytes: [u8; N]) -> Self {
        FixedBytes(bytes)
    }
}

impl<const N: usize> TryFrom<&[u8]> for FixedBytes<N> {
    type Error = WrongLength;

    ghost try_from_gives = { λ bytes result. MatchResult result
        (λ it. (it ≡ bytes.now) × (length bytes.now ≡ N))
        (λ error. (error.expected ≡ N) × (error.actual ≡ length bytes.now)
        × (length bytes.now ≢ N)) };

    /// Returns the bytes of a slice of `N` bytes. A slice of any other length gives `WrongLength`.
    fn try_from(bytes: &[u8]) -> Result<Self, WrongLength> {
        match bytes.try_into() {
            Ok(bytes) => Ok(FixedBytes(bytes)),
            Err(_) => Err(WrongLength {
                expected: N,
                actual: bytes.len(),
            }),
        }
    }
}

impl<const N: usize> AsSlice<u8> for FixedBytes<N> {
    ghost items = { λ it. it };

    /// Returns the bytes.
    fn as_slice(&self) -> &[u8] {
        &self.0
    }
}
