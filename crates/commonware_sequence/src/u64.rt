//! A number in eight bytes.
ghost use Rattle.std.specs.Prelude.{◌≡◌, Some};
ghost use Rattle.std.specs.Fmt.{decimal};
ghost use Rattle.std.proofs.lemmas.Cmp.{nat_eq_equiv};
ghost use Rattle.commonware_base.specs.laws.CloneLaws.{equal_from_same};

mod codec;

use commonware_base::EqClone;
use std::fmt;
use std::marker::Model;

/// A number that is encoded as its eight bytes, the highest first: `U64::new(258)` as
/// `00 00 00 00 00 00 01 02`. It is seen as the number, and displayed in decimal.
#[derive(Clone, Copy, PartialEq, Eq, PartialOrd, Ord, Hash)]
pub struct U64(u64);

impl Model for U64 {
    ghost use Rattle.std.specs.Prelude.{ℕ};

    ghost Value = { ℕ };

    ghost view = { λ it. it.0 };

    ghost inverse = { λ number. record { 0 = number } };
}

impl U64 {
    /// Returns the item of a number.
    pub fn new(number: u64) -> Self
        ensures { result ≡ number }
    {
        U64(number)
    }

    /// Returns the number.
    pub fn get(self) -> u64
        ensures { result ≡ self }
    {
        self.0
    }
}

impl From<u64> for U64 {
    ghost from_gives = { λ number it. it ≡ number };

    fn from(number: u64) -> Self {
        U64::new(number)
    }
}

impl From<U64> for u64 {
    ghost from_gives = { λ it number. number ≡ it };

    fn from(it: U64) -> u64 {
        it.get()
    }
}

impl fmt::Display for U64 {
    ghost output = { λ it. Some (decimal it) };

    /// Writes the number in decimal.
    fn fmt<W: fmt::Write>(&self, f: &mut fmt::Formatter<W>) -> fmt::Result {
        let number = self.0;
        write!(f, "{number}")
    }
}

impl fmt::Debug for U64 {
    ghost debug_output = { λ it. Some (decimal it) };

    /// Writes what `Display` does.
    fn fmt<W: fmt::Write>(&self, f: &mut fmt::Formatter<W>) -> fmt::Result {
        fmt::Display::fmt(self, f)
    }
}

impl EqClone for U64 {
    ghost clones_are_equal = { equal_from_same nat_eq_equiv };
}
