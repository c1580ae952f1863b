//! A number of participants, as a whole number of any type.
ghost use Rattle.std.specs.Prelude.{ℤ, pos, SomeIff};
ghost use Rattle.commonware_faults.specs.Counts.{IsU32, amount};

/// A whole number of any type, signed or not, as a number of participants. Of the `i8` numbers 127
/// is the count 127, and -1 is none.
pub trait Count: Drop {
    /// The number that a value is.
    ghost number: { Self → ℤ };

    /// Returns the number, where it is from 0 to `u32::MAX`; else `None`.
    fn to_u32(self) -> Option<u32>
        ensures { SomeIff result (IsU32 (number self)) (amount (number self)) };
}

impl Count for u8 {
    ghost number = { λ n. pos n };

    fn to_u32(self) -> Option<u32> {
        u16::from(self).to_u32()
    }
}

impl Count for u16 {
    ghost number = { λ n. pos n };

    fn to_u32(self) -> Option<u32> {
        u32::from(self).to_u32()
    }
}

impl Count for u32 {
    ghost number = { λ n. pos n };

    fn to_u32(self) -> Option<u32> {
        Some(self)
    }
}

impl Count for u64 {
    ghost number = { λ n. pos n };

    fn to_u32(self) -> Option<u32> {
        u32::try_from(self).ok()
    }
}

impl Count for u128 {
    ghost number = { λ n. pos n };

    fn to_u32(self) -> Option<u32> {
        if self <= u32::MAX as u128 {
            Some(self as u32)
        } else {
            None
        }
    }
}

impl Count for usize {
    ghost number = { λ n. pos n };

    fn to_u32(self) -> Option<u32> {
        (self as u64).to_u32()
    }
}

impl Count for i8 {
    ghost number = { λ n. n };

    fn to_u32(self) -> Option<u32> {
        i16::from(self).to_u32()
    }
}

impl Count for i16 {
    ghost number = { λ n. n };

    fn to_u32(self) -> Option<u32> {
        i32::from(self).to_u32()
    }
}

impl Count for i32 {
    ghost number = { λ n. n };

    fn to_u32(self) -> Option<u32> {
        i64::from(self).to_u32()
    }
}

impl Count for i64 {
    ghost number = { λ n. n };

    fn to_u32(self) -> Option<u32> {
        i128::from(self).to_u32()
    }
}

impl Count for i128 {
    ghost number = { λ n. n };

    fn to_u32(self) -> Option<u32> {
        if self >= 0 && self <= u32::MAX as i128 {
            Some(self as u32)
        } else {
            None
        }
    }
}

impl Count for isize {
    ghost number = { λ n. n };

    fn to_u32(self) -> Option<u32> {
        (self as i64).to_u32()
    }
}
