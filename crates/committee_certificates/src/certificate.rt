//! A value and the participants that signed it.

mod codec;
mod compare;
mod display;

pub use codec::{certificate_fault_law, read_certificate_counted};
use commonware_base::Participant;
use commonware_ordered::Set;
use std::alloc::Allocator;

/// A value, and the participants that signed it, each once. Nothing here looks at a signature:
/// that they did sign is for the caller to know.
///
/// The certificate of the value `[0xaa]` with the signers 0, 1 and 2 is encoded as
/// `01 aa 03 00 01 02`.
#[derive(Drop)]
pub struct Certificate<A: Allocator> {
    /// The bytes that were signed, which are whatever the protocol agrees on.
    pub value: Vec<u8, A>,
    /// The indices of those that signed, in the committee of the protocol.
    pub signers: Set<Participant, A>,
}
