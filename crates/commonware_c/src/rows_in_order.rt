//! The encoding of a map whose rows come in the order of their keys and each key once, written to a
//! caller's room: nothing is allocated.
ghost use Rattle.std.specs.Prelude.{◌≡◌, ◌≢◌, ◌⊎◌, ◌^◌, ◌+◌, ◌-◌, ◌<◌, ◌≤◌, ◌↔◌, ℕ, IsTrue, List, length, map, slice_index_or, take};
ghost use Rattle.std.specs.declared.cmp.Ordering.TheVariants.{Less};
ghost use Rattle.commonware_map.specs.Maps.{map_enc};
ghost use Rattle.commonware_sequence.specs.FixedBytes.{bytes_cmp, own_bytes};
ghost use Rattle.commonware_views.specs.laws.ItemLaws.{AreLong};
ghost use Rattle.commonware_c.specs.Pairs.{AreInKeyOrder, IsMapOf, pair_of};
ghost use Rattle.commonware_c.specs.Splices.{spliced};

use crate::pairs::key_and_value;
use crate::rooms::{put_parts, put_varint};
use crate::statuses::{INVALID_LENGTH, OK, ROOM};
use crate::written::{WrittenView, refused};
use commonware_base::codec::{EncodeSize, UInt};
use commonware_sequence::bytes_order;
use commonware_views::ListView;

/// Whether the rows are strictly increasing by their keys: each key is less than the next.
pub(crate) fn are_in_key_order(key_size: usize, rows: &ListView<'_>) -> bool
    ensures { IsTrue result ↔ AreInKeyOrder key_size rows.now }
{
    let count = rows.len();
    let mut index = 1;
    while index < count {
        if !is_key_less(key_size, rows, index) {
            return false;
        }
        index += 1;
    }
    true
}

/// Whether the key of the row before a place is less than that of the one at it.
fn is_key_less(key_size: usize, rows: &ListView<'_>, index: usize) -> bool
    requires some { 1 ≤ index }
    requires within { index < length rows.now }
    ensures { IsTrue result ↔ ((d : List ℕ)
        → bytes_cmp (take key_size (slice_index_or rows.now (index - 1) d))
        (take key_size (slice_index_or rows.now index d)) ≡ Less) }
{
    let Some(last) = rows.get(index - 1) else {
        return false;
    };
    let Some(row) = rows.get(index) else {
        return false;
    };
    let (key, _) = key_and_value(key_size, last);
    let (next, _) = key_and_value(key_size, row);
    bytes_order(key, next).is_lt()
}

/// Encodes the map of these rows, as `commonware_map_encode_dedup` does: they are its pairs.
pub(crate) fn write_rows_in_order(
    key_size: usize,
    value_size: usize,
    rows: &ListView<'_>,
    out: &mut [u8],
) -> WrittenView
    requires long { AreLong (key_size + value_size) rows.now }
    requires strict { AreInKeyOrder key_size rows.now }
    ensures written { result.status ≡ 0
        → IsMapOf key_size value_size rows.now (map (pair_of key_size) rows.now)
        result.count result.size
        × (out.new
        ≡ spliced 0 (map_enc own_bytes own_bytes (map (pair_of key_size) rows.now)) out.old) }
    ensures room { result.status ≡ 11
        → IsMapOf key_size value_size rows.now (map (pair_of key_size) rows.now)
        result.count result.size
        × (length out.old < result.size) }
    ensures long { result.status ≡ 3
        → (result.number ≡ length rows.now) × (2 ^ 32 ≤ length rows.now) }
    ensures status { (result.status ≡ 0) ⊎ (result.status ≡ 11) ⊎ (result.status ≡ 3) }
    ensures no_number { (result.status ≡ 0) ⊎ (result.status ≡ 11) → result.number ≡ 0 }
    ensures nothing_else { result.status ≢ 0 → result.status ≢ 11
        → (result.count ≡ 0) × (result.size ≡ 0) }
    ensures untouched { result.status ≢ 0 → out.new ≡ out.old }
{
    // The prover knows of a slice that its bytes are fewer than 2^63, so those of the map have a
    // number. Nothing else is done with it.
    let _ = rows.as_bytes();
    let count = rows.len();
    if count > u32::MAX as usize {
        return refused(INVALID_LENGTH, count);
    }
    let keys_end = UInt(count as u32).encode_size() + key_size * count;
    let mut view = WrittenView {
        status: ROOM,
        count,
        number: 0,
        size: keys_end + (UInt(count as u32).encode_size() + value_size * count),
    };
    if out.len() < view.size {
        return view;
    }
    let keys = put_varint(count as u32, 0, out);
    put_parts(rows, 0, key_size, keys, out);
    let values = put_varint(count as u32, keys_end, out);
    put_parts(rows, key_size, value_size, values, out);
    view.status = OK;
    view
}
