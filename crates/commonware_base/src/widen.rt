//! Whole numbers as numbers of a wider type, where std has no `From`.
ghost use Rattle.std.specs.Prelude.{◌≡◌, ℕ};
ghost use Rattle.std.specs.Int.NonZero.{non_zero_u16_get, non_zero_u32_get, non_zero_u64_get, non_zero_u8_get};

use std::num::{NonZeroU8, NonZeroU16, NonZeroU32, NonZeroU64};

/// A number that a wider type `T` has too. The `NonZeroU8` 255 is the `u16` 255.
///
/// Each implementation says which numbers its values and those of `T` are seen as. So a generic
/// caller learns that both are the same in the eyes of the implementation, and no more. The
/// fourteen implementations here see each value as the number that it is.
pub trait Widen<T> {
    /// The number that a value is.
    ghost number: { Self → ℕ };

    /// The number that a value of the wider type is.
    ghost wide_number: { T → ℕ };

    /// The same number.
    fn widen(self) -> T
        ensures { wide_number result ≡ number self };
}

impl Widen<u16> for NonZeroU8 {
    ghost number = { non_zero_u8_get };

    ghost wide_number = { λ wide. wide };

    fn widen(self) -> u16 {
        let byte = self.get();
        u16::from(byte)
    }
}

impl Widen<u32> for NonZeroU8 {
    ghost number = { non_zero_u8_get };

    ghost wide_number = { λ wide. wide };

    fn widen(self) -> u32 {
        let byte = self.get();
        u32::from(byte)
    }
}

impl Widen<u64> for NonZeroU8 {
    ghost number = { non_zero_u8_get };

    ghost wide_number = { λ wide. wide };

    fn widen(self) -> u64 {
        let byte = self.get();
        u64::from(byte)
    }
}

impl Widen<u128> for NonZeroU8 {
    ghost number = { non_zero_u8_get };

    ghost wide_number = { λ wide. wide };

    fn widen(self) -> u128 {
        let byte = self.get();
        u128::from(byte)
    }
}

impl Widen<usize> for NonZeroU8 {
    ghost number = { non_zero_u8_get };

    ghost wide_number = { λ wide. wide };

    fn widen(self) -> usize {
        let byte = self.get();
        usize::from(byte)
    }
}

impl Widen<u32> for NonZeroU16 {
    ghost number = { non_zero_u16_get };

    ghost wide_number = { λ wide. wide };

    fn widen(self) -> u32 {
        let half_word = self.get();
        u32::from(half_word)
    }
}

impl Widen<u64> for NonZeroU16 {
    ghost number = { non_zero_u16_get };

    ghost wide_number = { λ wide. wide };

    fn widen(self) -> u64 {
        let half_word = self.get();
        u64::from(half_word)
    }
}

impl Widen<u128> for NonZeroU16 {
    ghost number = { non_zero_u16_get };

    ghost wide_number = { λ wide. wide };

    fn widen(self) -> u128 {
        let half_word = self.get();
        u128::from(half_word)
    }
}

impl Widen<usize> for NonZeroU16 {
    ghost number = { non_zero_u16_get };

    ghost wide_number = { λ wide. wide };

    fn widen(self) -> usize {
        let half_word = self.get();
        usize::from(half_word)
    }
}

impl Widen<u64> for NonZeroU32 {
    ghost number = { non_zero_u32_get };

    ghost wide_number = { λ wide. wide };

    fn widen(self) -> u64 {
        let word = self.get();
        u64::from(word)
    }
}

impl Widen<u128> for NonZeroU32 {
    ghost number = { non_zero_u32_get };

    ghost wide_number = { λ wide. wide };

    fn widen(self) -> u128 {
        let word = self.get();
        u128::from(word)
    }
}

impl Widen<u128> for NonZeroU64 {
    ghost number = { non_zero_u64_get };

    ghost wide_number = { λ wide. wide };

    fn widen(self) -> u128 {
        let double_word = self.get();
        u128::from(double_word)
    }
}

impl Widen<usize> for u32 {
    ghost number = { λ n. n };

    ghost wide_number = { λ wide. wide };

    fn widen(self) -> usize {
        self as usize
    }
}

impl Widen<u64> for usize {
    ghost number = { λ n. n };

    ghost wide_number = { λ wide. wide };

    fn widen(self) -> u64 {
        self as u64
    }
}
