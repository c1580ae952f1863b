//! The errors of a decoder.

/// Why a decoder refused an input. All but `Memory` are faults (decoding errors) of the input.
///
/// As a varint, the input `[0x80, 0x00]` has the fault `InvalidVarint`, and `[0x80]` has
/// `EndOfBuffer`.
#[derive(Debug, PartialEq, Eq, Drop, thiserror::Error)]
pub enum Error {
    /// The input ends before the value does.
    #[error("end of input")]
    EndOfBuffer,
    /// A varint is overlong, or its number is above 4294967295.
    #[error("invalid varint")]
    InvalidVarint,
    /// A length, or a number, is out of the range that the configuration gives.
    #[error("length {0}")]
    InvalidLength(usize),
    /// The bytes encode a value that breaks a rule of its type: the type's name, and the rule.
    #[error("{0}: {1}")]
    Invalid(&'static str, &'static str),
    /// An allocation failed. It says nothing of the input.
    #[error("out of memory")]
    Memory,
}
