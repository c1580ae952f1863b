//! The root: bytes that are signed, wider numbers, and participants in their order.
ghost use Rattle.std.specs.Prelude.{◌≡◌, ◌<◌, ◌≤◌, ◌^◌, ◌↔◌, IfOk, IfSome, IsSome, IsTrue, length};
ghost use Rattle.std.specs.Int.NonZero.{non_zero_u32_get};
ghost use Rattle.commonware_utils.specs.Roots.{union_text};

use commonware_utils::{MAX_ALLOCATION_BYTES, Participant, Widen, max, union_unique};
use std::alloc::{AllocError, Global};
use std::num::NonZeroU32;

/// Returns the bytes that are signed for a message: the length of the namespace as a varint, the
/// namespace, and the message. `None` where the namespace is too long.
pub fn signed_text(
    alloc: Global,
    namespace: &[u8],
    message: &[u8],
) -> Result<Option<Vec<u8>>, AllocError>
    ensures short { IfOk result (λ text. IsSome text ↔ (length namespace.now < 2 ^ 32)) }
    ensures text { IfOk result (λ text. IfSome text (λ v.
        v.items ≡ union_text namespace.now message.now)) }
{
    if namespace.len() > 4294967295 {
        return Ok(None);
    }
    union_unique(alloc, namespace, message).map(Some)
}

/// Returns how many bytes to reserve room for, at least one for each participant.
pub fn room(participants: NonZeroU32, wanted: usize) -> usize
    ensures most { result ≤ MAX_ALLOCATION_BYTES }
    ensures enough { (non_zero_u32_get participants ≤ result)
        × (wanted ≤ MAX_ALLOCATION_BYTES → wanted ≤ result) }
{
    let least: u64 = participants.widen();
    max(least as usize, wanted).min(MAX_ALLOCATION_BYTES)
}

/// The first participant.
pub fn first() -> Participant
    ensures { result ≡ 0 }
{
    Participant::default()
}

/// Whether a participant comes before another.
pub fn is_before(participant: Participant, other: Participant) -> bool
    ensures { IsTrue result ↔ (participant < other) }
{
    participant < other
}
