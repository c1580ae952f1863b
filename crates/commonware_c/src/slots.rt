//! The value that a decision for a slot is, written to a caller's room: nothing is allocated.
ghost use Rattle.std.specs.Prelude.{◌≡◌, ◌≢◌, ◌↔◌, ◌⊎◌, ◌≤◌, ◌<◌, ◌^◌, IfNone, IfSome, length};
ghost use Rattle.commonware_base.specs.Unions.{union_text};
ghost use Rattle.commonware_c.specs.Requests.{IsNoValue, IsSignedValue};
ghost use Rattle.commonware_c.specs.Splices.{spliced};

use crate::rooms::{put_bytes, put_varint};
use crate::statuses::{INVALID_LENGTH, OK, ROOM};
use crate::written::{WrittenView, refused};
use commonware_base::codec::{EncodeSize, UInt};

/// Writes the value that a decision for a slot is to the start of `out`: the slot's length, the
/// slot and the decision. A slot is what an honest member signs at most once, as bytes of the
/// protocol's choice: chain, committee, height, round and kind of vote, say. A height alone is too
/// little where there are rounds. Members sign this value, and a certificate of it is written by
/// commonware_certificate_encode. At OK and ROOM the view's `size` is told, `count` never.
/// INVALID_LENGTH for the first of the slot, the decision and the value that is past 4294967295.
/// Never MEMORY.
#[unsafe(no_mangle)]
pub extern "C" fn commonware_slot_value(slot: &[u8], decision: &[u8], out: &mut [u8]) -> WrittenView
    ensures written { result.status ≡ 0
        → out.new ≡ spliced 0 (union_text slot.now decision.now) out.old }
    ensures size { (result.status ≡ 0) ⊎ (result.status ≡ 11)
        → (result.size ≡ length (union_text slot.now decision.now)) × (result.number ≡ 0) }
    ensures room { result.status ≡ 11 → IsSignedValue slot.now decision.now
        × (length out.old < result.size) }
    ensures untouched { result.status ≢ 0 → out.new ≡ out.old }
    ensures refused { result.status ≢ 0 → result.status ≢ 11
        → (result.status ≡ 3) × IsNoValue slot.now decision.now result.number
        × (result.size ≡ 0) }
    ensures no_count { result.count ≡ 0 }
    ensures exactly { (result.status ≡ 0) ↔ (IsSignedValue slot.now decision.now
        × (length (union_text slot.now decision.now) ≤ length out.old)) }
{
    if let Some(length) = length_fault(slot, decision) {
        return refused(INVALID_LENGTH, length);
    }
    let mut view = WrittenView {
        status: ROOM,
        count: 0,
        number: 0,
        size: value_size(slot, decision),
    };
    if out.len() < view.size {
        return view;
    }
    put_value(slot, decision, out);
    view.status = OK;
    view
}

/// Returns the first length that is 2^32 or more, of the slot, the decision and the value, where
/// there is one.
fn length_fault(slot: &[u8], decision: &[u8]) -> Option<usize>
    ensures none { IfNone result (IsSignedValue slot.now decision.now) }
    ensures some { IfSome result (IsNoValue slot.now decision.now) }
{
    if slot.len() > u32::MAX as usize {
        return Some(slot.len());
    }
    if decision.len() > u32::MAX as usize {
        return Some(decision.len());
    }
    let size = value_size(slot, decision);
    if size > u32::MAX as usize {
        return Some(size);
    }
    None
}

/// Returns the length of the value.
fn value_size(slot: &[u8], decision: &[u8]) -> usize
    requires slot_short { length slot.now < 2 ^ 32 }
    requires decision_short { length decision.now < 2 ^ 32 }
    ensures { result ≡ length (union_text slot.now decision.now) }
{
    UInt(slot.len() as u32).encode_size() + slot.len() + decision.len()
}

/// Writes the value to the start of the room, which is large enough.
fn put_value(slot: &[u8], decision: &[u8], out: &mut [u8])
    requires slot_short { length slot.now < 2 ^ 32 }
    requires enough { length (union_text slot.now decision.now) ≤ length out.old }
    ensures { out.new ≡ spliced 0 (union_text slot.now decision.now) out.old }
{
    let slot_at = put_varint(slot.len() as u32, 0, out);
    let decision_at = put_bytes(slot, slot_at, out);
    put_bytes(decision, decision_at, out);
}
