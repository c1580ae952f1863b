//! The statuses of the functions for C, by the names that the header gives them.
ghost use Rattle.std.specs.Prelude.{◌≡◌};
ghost use Rattle.commonware_c.specs.Status.{number_of, status_of};

use commonware_base::codec::Error;

/// No error.
pub(crate) const OK: u32 = 0;

/// The input ends before the value does.
pub(crate) const END_OF_INPUT: u32 = 1;

/// A varint is longer than it has to be, or past 4294967295.
pub(crate) const INVALID_VARINT: u32 = 2;

/// A length is out of range. `number` is that length.
pub(crate) const INVALID_LENGTH: u32 = 3;

/// The items aren't strictly increasing.
pub(crate) const NOT_STRICT: u32 = 4;

/// An allocation failed. It says nothing of the input.
pub(crate) const MEMORY: u32 = 5;

/// Bytes follow the certificate. `number` is how many they are.
pub(crate) const LEFT_OVER: u32 = 6;

/// A committee of 0 members.
pub(crate) const NO_MEMBERS: u32 = 7;

/// Both certificates are for one value.
pub(crate) const SAME_VALUE: u32 = 8;

/// A signer is no member.
pub(crate) const OUTSIDE: u32 = 9;

/// Fewer signers than a quorum.
pub(crate) const TOO_FEW: u32 = 10;

/// The room for the result is too short. The view says what it takes.
pub(crate) const ROOM: u32 = 11;

/// The key isn't among the members, or the keys.
pub(crate) const ABSENT: u32 = 12;

/// k is below 2.
pub(crate) const NO_MODEL: u32 = 13;

/// The value is no decision for a slot.
pub(crate) const NO_SLOT: u32 = 14;

/// The values are for two different slots.
pub(crate) const OTHER_SLOT: u32 = 15;

/// Keys have no bytes: it can't be told how many there are.
pub(crate) const NO_SIZE: u32 = 16;

/// Bytes follow the last whole key, or the last whole pair. `number` is how many they are.
pub(crate) const NOT_WHOLE: u32 = 17;

/// Two pairs have the same value.
pub(crate) const REPEATED_VALUE: u32 = 18;

/// A pair has the key of an earlier one. `number` is its index.
pub(crate) const REPEATED_KEY: u32 = 19;

/// A weight is 0. `number` is its index.
pub(crate) const ZERO_WEIGHT: u32 = 20;

/// The sum of the weights is past 18446744073709551615. `number` is the index of the weight with
/// which it is.
pub(crate) const WEIGHT_OVERFLOW: u32 = 21;

/// The signers weigh less than a quorum.
pub(crate) const TOO_LIGHT: u32 = 22;

/// Returns the status and the number of an error.
#[inline(always)]
pub(crate) fn status_of(error: &Error) -> (u32, usize)
    ensures status { result.0 ≡ status_of error.now }
    ensures number { result.1 ≡ number_of error.now }
{
    match error {
        Error::EndOfBuffer => (END_OF_INPUT, 0),
        Error::InvalidVarint => (INVALID_VARINT, 0),
        Error::InvalidLength(length) => (INVALID_LENGTH, *length),
        Error::Invalid(_, _) => (NOT_STRICT, 0),
        Error::Memory => (MEMORY, 0),
    }
}
