//! Whether a quorum signed a certificate.
ghost use Rattle.std.specs.Prelude.{◌≡◌, ◌≤◌, IfErr, IfOk, OnOk, length};
ghost use Rattle.judge_verdicts.specs.Quorums.{IsChecked, IsSlotOf, MayFailToAllocateToJudge};
ghost use Rattle.judge_verdicts.specs.Quorums.{checked_of, slot_items};

use crate::certificates::read_certificate;
use crate::whole::Misread;
use committee_certificates::{QuorumError, check_quorum_among, slot_of};
use commonware_utils::faults::tolerated_faults;
use std::alloc::{AllocError, Allocator};

/// A slot, and a decision for it.
pub type SlotAndDecision<A> = (Vec<u8, A>, Vec<u8, A>);

/// A certificate that a quorum of members signed.
///
/// Of 4 members at a resilience 3, `03 01 07 aa 03 00 01 02` has 3 signers, the slot `07` and the
/// decision `aa`.
#[derive(Drop)]
pub struct Checked<A: Allocator> {
    /// How many signed it.
    pub signers: usize,
    /// The slot and the decision that its value is, or `None` where it has no slot.
    pub slot: Option<SlotAndDecision<A>>,
}

/// Why a certificate, which is an encoding, isn't one of a quorum.
///
/// Of 4 members at a resilience 3, 3 are a quorum: where 2 signed it, it is `TooFew`.
#[derive(PartialEq, Eq, Drop)]
pub enum NoQuorum {
    /// A signer is no member.
    Outside,
    /// All signers are members, and they are fewer than a quorum.
    TooFew,
    /// The input is no certificate.
    Unread(Misread),
}

/// What a quorum of a committee of `n`, at a resilience `k`, signed by the certificate, or why none
/// did. The error is an allocation failure, and comes only where the reading isn't memory-free. `k`
/// is at least 2 and `n` at least 1.
pub fn quorum_of<A: Allocator + Copy>(
    alloc: A,
    k: u32,
    n: u32,
    text: &[u8],
) -> Result<Result<Checked<A>, NoQuorum>, AllocError>
    requires resilience { 2 ≤ k }
    requires some { 1 ≤ n }
    ensures checked { IfOk result (λ checked. IsChecked k n text.now (checked_of checked)) }
    ensures memory { IfErr result (λ _. MayFailToAllocateToJudge text.now) }
{
    let certificate = match read_certificate(alloc, text)? {
        Ok(certificate) => certificate,
        Err(what) => return Ok(Err(NoQuorum::Unread(what))),
    };
    match check_quorum_among(n as usize, tolerated_faults(k, n), &certificate) {
        Ok(()) => Ok(Ok(Checked {
            signers: certificate.signers.len(),
            slot: copied_slot(alloc, &certificate.value)?,
        })),
        Err(QuorumError::Outside) => Ok(Err(NoQuorum::Outside)),
        Err(QuorumError::TooFew) => Ok(Err(NoQuorum::TooFew)),
    }
}

/// The slot and the decision that the value is, or `None` where it has no slot. The error is an
/// allocation failure, and comes only where one of the two has a byte: the value `00` is an empty
/// decision for an empty slot.
pub(crate) fn copied_slot<A: Allocator + Copy>(
    alloc: A,
    value: &[u8],
) -> Result<Option<SlotAndDecision<A>>, AllocError>
    ensures slot { IfOk result (λ slot. IsSlotOf value.now (slot_items slot)) }
    ensures memory { IfErr result (λ _. 2 ≤ length value.now) }
{
    match slot_of(value) {
        Some((slot, decision)) => Ok(Some((copied(alloc, slot)?, copied(alloc, decision)?))),
        None => Ok(None),
    }
}

/// A copy of the bytes. The error is an allocation failure, and comes only where there are some.
fn copied<A: Allocator>(alloc: A, bytes: &[u8]) -> Result<Vec<u8, A>, AllocError>
    ensures copied { IfOk result (λ copy. copy.items ≡ bytes.now) }
    ensures memory { IfErr result (λ _. 1 ≤ length bytes.now) }
{
    let mut copy = Vec::with_capacity(alloc, bytes.len())?;
    copy.extend_from_slice(bytes)?;
    Ok(copy)
}
