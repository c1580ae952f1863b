//! Votes: a slot and a decision as bytes, and the bytes as a slot and a decision.
ghost use Rattle.std.specs.Prelude.{◌≡◌, ◌<◌, ◌^◌, ◌↔◌, IfOk, IsTrue, length};

use committee_certificates::{slot_of, vote_law};
use commonware_utils::union_unique;
use std::alloc::{AllocError, Global};

/// Whether the bytes of a vote are read as its slot and its decision: they always are. It requires
/// that the slot has at most `u32::MAX` bytes.
pub fn is_read_back(alloc: Global, slot: &[u8], decision: &[u8]) -> Result<bool, AllocError>
    requires { length slot.now < 2 ^ 32 }
    ensures { IfOk result (λ same. IsTrue same) }
{
    vote_law();
    let vote = union_unique(alloc, slot, decision)?;
    match slot_of(vote.as_slice()) {
        Some((read_slot, read_decision)) => Ok(read_slot == slot && read_decision == decision),
        None => Ok(false),
    }
}

/// Whether two votes have the same bytes: exactly where they are the same slot and the same
/// decision. It requires that each slot has at most `u32::MAX` bytes.
pub fn is_same_vote(
    alloc: Global,
    slot: &[u8],
    decision: &[u8],
    other_slot: &[u8],
    other: &[u8],
) -> Result<bool, AllocError>
    requires short { length slot.now < 2 ^ 32 }
    requires other_short { length other_slot.now < 2 ^ 32 }
    ensures { IfOk result (λ same. IsTrue same
        ↔ ((slot.now ≡ other_slot.now) × (decision.now ≡ other.now))) }
{
    vote_law();
    let text = union_unique(alloc, slot, decision)?;
    let other_text = union_unique(alloc, other_slot, other)?;
    Ok(text == other_text)
}
