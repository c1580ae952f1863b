//! The encoding of a set whose items come in order and each once, written to a caller's room:
//! nothing is allocated.
ghost use Rattle.std.specs.Prelude.{◌≡◌, ◌≢◌, ◌⊎◌, ◌^◌, ◌-◌, ◌<◌, ◌≤◌, ◌↔◌, ℕ, IsTrue, List, length, slice_index_or};
ghost use Rattle.std.specs.declared.cmp.Ordering.TheVariants.{Less};
ghost use Rattle.commonware_base.specs.Lists.{list_enc};
ghost use Rattle.commonware_ordered.specs.Strict.{IsStrict};
ghost use Rattle.commonware_sequence.specs.FixedBytes.{bytes_cmp, own_bytes};
ghost use Rattle.commonware_views.specs.laws.ItemLaws.{AreLong};
ghost use Rattle.commonware_c.specs.Committees.{IsSetOf};
ghost use Rattle.commonware_c.specs.Splices.{spliced};

use crate::rooms::{put_bytes, put_varint};
use crate::statuses::{INVALID_LENGTH, OK, ROOM};
use crate::written::{WrittenView, refused};
use commonware_base::codec::{EncodeSize, UInt};
use commonware_sequence::bytes_order;
use commonware_views::ListView;

/// Whether the items are strictly increasing: each is less than the next.
pub(crate) fn are_in_order(items: &ListView<'_>) -> bool
    ensures { IsTrue result ↔ IsStrict bytes_cmp items.now }
{
    let count = items.len();
    let mut index = 1;
    while index < count {
        if !is_less(items, index) {
            return false;
        }
        index += 1;
    }
    true
}

/// Whether the item before a place is less than the one at it.
fn is_less(items: &ListView<'_>, index: usize) -> bool
    requires some { 1 ≤ index }
    requires within { index < length items.now }
    ensures { IsTrue result ↔ ((d : List ℕ) → bytes_cmp (slice_index_or items.now (index - 1) d)
        (slice_index_or items.now index d) ≡ Less) }
{
    let Some(last) = items.get(index - 1) else {
        return false;
    };
    let Some(item) = items.get(index) else {
        return false;
    };
    bytes_order(last, item).is_lt()
}

/// Encodes the set of these items, as `commonware_set_encode_dedup` does: they are their own set.
pub(crate) fn write_in_order(size: usize, items: &ListView<'_>, out: &mut [u8]) -> WrittenView
    requires long { AreLong size items.now }
    requires strict { IsStrict bytes_cmp items.now }
    ensures written { result.status ≡ 0
        → IsSetOf size items.now items.now result.count result.size
        × (out.new ≡ spliced 0 (list_enc own_bytes items.now) out.old) }
    ensures room { result.status ≡ 11
        → IsSetOf size items.now items.now result.count result.size
        × (length out.old < result.size) }
    ensures long { result.status ≡ 3
        → (result.number ≡ length items.now) × (2 ^ 32 ≤ length items.now) }
    ensures status { (result.status ≡ 0) ⊎ (result.status ≡ 11) ⊎ (result.status ≡ 3) }
    ensures no_number { (result.status ≡ 0) ⊎ (result.status ≡ 11) → result.number ≡ 0 }
    ensures nothing_else { result.status ≢ 0 → result.status ≢ 11
        → (result.count ≡ 0) × (result.size ≡ 0) }
    ensures untouched { result.status ≢ 0 → out.new ≡ out.old }
{
    let count = items.len();
    if count > u32::MAX as usize {
        return refused(INVALID_LENGTH, count);
    }
    let bytes = items.as_bytes();
    let mut view = WrittenView {
        status: ROOM,
        count,
        number: 0,
        size: UInt(count as u32).encode_size() + bytes.len(),
    };
    if out.len() < view.size {
        return view;
    }
    let start = put_varint(count as u32, 0, out);
    put_bytes(bytes, start, out);
    view.status = OK;
    view
}
