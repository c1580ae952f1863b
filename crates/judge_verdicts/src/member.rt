//! The members of a committee, as questions name them.

use commonware_utils::sequence::FixedBytes;

/// A member of a committee: a key of 32 bytes, ordered by the first byte that differs.
pub(crate) type Member = FixedBytes<32>;
