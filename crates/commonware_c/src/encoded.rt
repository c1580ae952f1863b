//! The encoding of a certificate, written to a caller's room: nothing is allocated.
ghost use Rattle.std.specs.Prelude.{◌≡◌, ◌≢◌, ◌↔◌, ◌⊎◌, ◌+◌, ◌*◌, ◌≤◌, ◌<◌, ◌^◌, IfNone, IfSome, length};
ghost use Rattle.std.specs.List.{flat_map};
ghost use Rattle.std.specs.Ordering.{nat_cmp};
ghost use Rattle.commonware_base.specs.Varint.{varint};
ghost use Rattle.commonware_ordered.specs.Strict.{IsStrict};
ghost use Rattle.committee_certificates.specs.Certificates.{IsWritableCertificate, certificate_enc};
ghost use Rattle.commonware_c.specs.Requests.{IsFirstDescent, IsUnwritable};
ghost use Rattle.commonware_c.specs.Splices.{spliced};

use crate::rooms::{put_bytes, put_varint};
use crate::statuses::{INVALID_LENGTH, NOT_STRICT, OK, ROOM};
use crate::written::{WrittenView, refused};
use commonware_base::codec::{EncodeSize, UInt};

/// Writes the certificate of a value and of the indices of its signers to the start of `out`, where
/// the indices are strictly increasing: OK exactly then, and where there is room. Else the first of
/// these: INVALID_LENGTH for a value and then for signers past 4294967295, NOT_STRICT for the first
/// signer that isn't greater than the one before it, ROOM.
/// COMMONWARE_CERTIFICATE_SIZE(value_length, signers_length) bytes always suffice. Never MEMORY.
#[unsafe(no_mangle)]
pub extern "C" fn commonware_certificate_encode(
    value: &[u8],
    signers: &[u32],
    out: &mut [u8],
) -> WrittenView
    ensures written { result.status ≡ 0
        → out.new ≡ spliced 0 (certificate_enc (value.now, signers.now)) out.old }
    ensures size { (result.status ≡ 0) ⊎ (result.status ≡ 11)
        → (result.size ≡ length (certificate_enc (value.now, signers.now)))
        × (result.size ≤ 10 + length value.now + 5 * length signers.now)
        × (result.count ≡ length signers.now) }
    ensures room { result.status ≡ 11 → IsWritableCertificate (value.now, signers.now)
        × (length out.old < result.size) }
    ensures untouched { result.status ≢ 0 → out.new ≡ out.old }
    ensures refused { result.status ≢ 0 → result.status ≢ 11
        → IsUnwritable value.now signers.now result.status result.number }
    ensures no_number { (result.status ≡ 0) ⊎ (result.status ≡ 11) → result.number ≡ 0 }
    ensures nothing_else { result.status ≢ 0 → result.status ≢ 11
        → (result.count ≡ 0) × (result.size ≡ 0) }
    ensures exactly { (result.status ≡ 0) ↔ (IsWritableCertificate (value.now, signers.now)
        × (length (certificate_enc (value.now, signers.now)) ≤ length out.old)) }
{
    if let Some((status, number)) = fault_of(value, signers) {
        return refused(status, number);
    }
    let mut view = WrittenView {
        status: ROOM,
        count: signers.len(),
        number: 0,
        size: certificate_size(value, signers),
    };
    if out.len() < view.size {
        return view;
    }
    put_certificate(value, signers, out);
    view.status = OK;
    view
}

/// Returns the status and the number of the first thing wrong with a request, where there is one.
fn fault_of(value: &[u8], signers: &[u32]) -> Option<(u32, usize)>
    ensures none { IfNone result (IsWritableCertificate (value.now, signers.now)) }
    ensures some { IfSome result (λ why. IsUnwritable value.now signers.now why.0 why.1) }
{
    if value.len() > u32::MAX as usize {
        return Some((INVALID_LENGTH, value.len()));
    }
    if signers.len() > u32::MAX as usize {
        return Some((INVALID_LENGTH, signers.len()));
    }
    let Some(place) = first_descent(signers) else {
        return None;
    };
    Some((NOT_STRICT, place))
}

/// Returns the place of the first index that isn't greater than the one before it.
fn first_descent(signers: &[u32]) -> Option<usize>
    ensures some { IfSome result (IsFirstDescent signers.now) }
    ensures none { IfNone result (IsStrict nat_cmp signers.now) }
{
    let mut i = 1;
    while i < signers.len() {
        if signers[i] <= signers[i - 1] {
            return Some(i);
        }
        i += 1;
    }
    None
}

/// Returns the length of the certificate's encoding.
fn certificate_size(value: &[u8], signers: &[u32]) -> usize
    requires value_short { length value.now < 2 ^ 32 }
    requires signers_short { length signers.now < 2 ^ 32 }
    ensures size { result ≡ length (certificate_enc (value.now, signers.now)) }
    ensures at_most { result ≤ 10 + length value.now + 5 * length signers.now }
{
    let value_size = UInt(value.len() as u32).encode_size() + value.len();
    let count_size = UInt(signers.len() as u32).encode_size();
    value_size + count_size + signers_size(signers)
}

/// Returns the length of the indices' encodings.
fn signers_size(signers: &[u32]) -> usize
    requires { length signers.now < 2 ^ 32 }
    ensures size { result ≡ length (flat_map varint signers.now) }
    ensures at_most { result ≤ 5 * length signers.now }
{
    let mut size = 0;
    let mut i = 0;
    while i < signers.len() {
        size += UInt(signers[i]).encode_size();
        i += 1;
    }
    size
}

/// Writes the certificate to the start of the room, which is large enough.
fn put_certificate(value: &[u8], signers: &[u32], out: &mut [u8])
    requires value_short { length value.now < 2 ^ 32 }
    requires signers_short { length signers.now < 2 ^ 32 }
    requires enough { length (certificate_enc (value.now, signers.now)) ≤ length out.old }
    ensures { out.new ≡ spliced 0 (certificate_enc (value.now, signers.now)) out.old }
{
    let value_at = put_varint(value.len() as u32, 0, out);
    let count_at = put_bytes(value, value_at, out);
    let signers_at = put_varint(signers.len() as u32, count_at, out);
    put_signers(signers, signers_at, out);
}

/// Writes the indices from a place of the room on, which is large enough.
fn put_signers(signers: &[u32], at: usize, out: &mut [u8])
    requires { at + length (flat_map varint signers.now) ≤ length out.old }
    ensures { out.new ≡ spliced at (flat_map varint signers.now) out.old }
{
    let mut next = at;
    let mut i = 0;
    while i < signers.len() {
        next = put_varint(signers[i], next, out);
        i += 1;
    }
}
