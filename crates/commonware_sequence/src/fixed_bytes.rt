//! Bytes of one fixed length.
ghost use Rattle.std.specs.Prelude.{◌≡◌};
ghost use Rattle.std.proofs.lemmas.Cmp.{nat_list_eq_equiv};
ghost use Rattle.commonware_base.specs.laws.CloneLaws.{equal_from_same};

mod codec;
mod convert;
mod display;
mod order;

pub(crate) use codec::take_bytes;
use commonware_base::EqClone;
pub use convert::WrongLength;
use std::marker::Model;

/// `N` bytes: a key, an address or a digest. They are compared as the lists of their bytes are, and
/// seen as these lists. They are displayed as `2 * N` lowercase hexadecimal digits, and are their
/// own encoding: `FixedBytes::new([0xab, 7])` is displayed as `ab07` and encoded as `ab 07`.
#[derive(Clone, Copy, PartialEq, Eq, Hash)]
pub struct FixedBytes<const N: usize>([u8; N]);

impl<const N: usize> Model for FixedBytes<N> {
    ghost use Rattle.std.specs.Prelude.{ℕ, List};

    ghost Value = { List ℕ };

    ghost view = { λ it. it.0 };

    ghost inverse = { λ bytes. record { 0 = bytes } };
}

impl<const N: usize> FixedBytes<N> {
    /// Returns these bytes.
    pub fn new(bytes: [u8; N]) -> Self
        ensures { result ≡ bytes.entry }
    {
        FixedBytes(bytes)
    }

    /// Returns the bytes.
    pub fn as_bytes(&self) -> &[u8; N]
        ensures { result.now ≡ self.now }
    {
        &self.0
    }
}

impl<const N: usize> EqClone for FixedBytes<N> {
    ghost clones_are_equal = { equal_from_same nat_list_eq_equiv };
}
