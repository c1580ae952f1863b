//! Slots: what an honest member signs at most once, and the values that are signed for them.
ghost use Rattle.std.specs.Prelude.{◌≡◌, ℕ, List, IfNone, IfSome};
ghost use Rattle.committee_certificates.specs.Slots.{HasSlot, IsFor};

use commonware_base::codec::{Source, read_varint};

/// Returns the slot and the decision of a value, borrowed from it: the two lists of which
/// `union_unique` makes the value. `None` where there are no such two. Nothing is allocated.
///
/// The value `02 07 01 aa` is the decision `aa` for the slot `07 01`; `02 07` has no slot.
pub fn slot_of(value: &[u8]) -> Option<(&[u8], &[u8])>
    ensures found { IfSome result (λ parts. IsFor value.now parts.0.now parts.1.now) }
    ensures only { IfSome result (λ parts. (slot decision : List ℕ)
        → IsFor value.now slot decision
        → (slot ≡ parts.0.now) × (decision ≡ parts.1.now)) }
    ensures none { IfNone result (¬ HasSlot value.now) }
{
    let mut source = Source::new(value);
    let Ok(length) = read_varint(&mut source) else {
        return None;
    };
    let length = length as usize;
    let rest = source.rest();
    if rest.len() < length {
        return None;
    }
    Some((&rest[..length], &rest[length..]))
}
