//! The member of a committee.

use commonware_sequence::FixedBytes;

/// A member of a committee, by its 32 bytes, as a public key has them.
pub type Member = FixedBytes<32>;
