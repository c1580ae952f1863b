//! The encoding of a map of keys and values, each of one size, written to a caller's room.
ghost use Rattle.std.specs.Prelude.{◌≡◌, ◌≢◌, ◌↔◌, ◌⊎◌, ◌+◌, ◌^◌, ◌%◌, ◌<◌, ◌≤◌, ℕ, IfErr, IfOk, List, OnErr, drop, length, take};
ghost use Rattle.commonware_map.specs.Maps.{map_enc};
ghost use Rattle.commonware_sequence.specs.FixedBytes.{own_bytes};
ghost use Rattle.commonware_views.specs.Lists.{AreItemsOf};
ghost use Rattle.commonware_views.specs.laws.ItemLaws.{AreLong};
ghost use Rattle.commonware_c.specs.Pairs.{AreInKeyOrder, IsFirstOfEach, IsMapOf, referred};
ghost use Rattle.commonware_c.specs.Splices.{spliced};

use crate::rooms::{put_items, put_varint};
use crate::rows_in_order::{are_in_key_order, write_rows_in_order};
use crate::statuses::{INVALID_LENGTH, MEMORY, NO_SIZE, NOT_WHOLE, OK, ROOM};
use crate::written::{WrittenView, refused};
use commonware_base::codec::{EncodeSize, UInt};
use commonware_map::Map;
use commonware_views::{ListView, NotWhole};
use std::alloc::{AllocError, Global};

/// Writes the map of these pairs to the start of `out`, in the order of their keys: each is a key
/// of `key_size` bytes and then its value of `value_size`, one pair after another; `pairs_length`
/// is in bytes. They may come in any order. Of pairs with equal keys the first is written, so at OK
/// and ROOM `count` is less than the number of pairs exactly where a key repeats. 10 + pairs_length
/// bytes always suffice. NO_SIZE exactly where `key_size` is 0; NOT_WHOLE exactly where it is
/// greater and the sum of both sizes, which never wraps, doesn't divide `pairs_length`;
/// INVALID_LENGTH where the distinct keys are more than 4294967295. Never MEMORY where the pairs
/// come in the order of their keys, each key once, as one pair and no pairs do: nothing is
/// allocated then. Never NOT_STRICT.
#[unsafe(no_mangle)]
pub extern "C" fn commonware_map_encode_dedup(
    alloc: Global,
    key_size: usize,
    value_size: usize,
    pairs: &[u8],
    out: &mut [u8],
) -> WrittenView
    ensures written { result.status ≡ 0
        → (rows : List (List ℕ)) × (map : List (List ℕ × List ℕ))
        × AreItemsOf (key_size + value_size) pairs.now rows
        × IsMapOf key_size value_size rows map result.count result.size
        × (out.new ≡ spliced 0 (map_enc own_bytes own_bytes map) out.old) }
    ensures room { result.status ≡ 11
        → (rows : List (List ℕ)) × (map : List (List ℕ × List ℕ))
        × AreItemsOf (key_size + value_size) pairs.now rows
        × IsMapOf key_size value_size rows map result.count result.size
        × (length out.old < result.size) }
    ensures long { result.status ≡ 3
        → (rows : List (List ℕ)) × (map : List (List ℕ × List ℕ))
        × AreItemsOf (key_size + value_size) pairs.now rows
        × IsFirstOfEach key_size rows map × (result.number ≡ length map) × (2 ^ 32 ≤ length map) }
    ensures no_size { (result.status ≡ 16) ↔ (key_size ≡ 0) }
    ensures not_whole { (result.status ≡ 17)
        ↔ ((key_size ≢ 0) × (length pairs.now % (key_size + value_size) ≢ 0)) }
    ensures left_over { result.status ≡ 17
        → result.number ≡ length pairs.now % (key_size + value_size) }
    ensures else_memory { result.status ≢ 0 → result.status ≢ 11 → result.status ≢ 3
        → result.status ≢ 17 → ((result.status ≡ 5) ⊎ (result.status ≡ 16)) × (result.number ≡ 0) }
    ensures no_number { (result.status ≡ 0) ⊎ (result.status ≡ 11) → result.number ≡ 0 }
    ensures nothing_else { result.status ≢ 0 → result.status ≢ 11
        → (result.count ≡ 0) × (result.size ≡ 0) }
    ensures untouched { result.status ≢ 0 → out.new ≡ out.old }
    ensures nothing { length pairs.now ≡ 0 → result.status ≢ 5 }
    ensures in_order { (rows : List (List ℕ)) → AreItemsOf (key_size + value_size) pairs.now rows
        → AreInKeyOrder key_size rows → result.status ≢ 5 }
{
    if key_size == 0 {
        return refused(NO_SIZE, 0);
    }
    match rows_of(key_size, value_size, pairs) {
        Ok(rows) => write_rows(alloc, key_size, value_size, &rows, out),
        Err(count) => refused(NOT_WHOLE, count),
    }
}

/// Returns the rows that these bytes are, or how many bytes follow the last whole one. Where a row
/// has 2^64 bytes or more, there is none.
pub(crate) fn rows_of(
    key_size: usize,
    value_size: usize,
    pairs: &[u8],
) -> Result<ListView<'_>, usize>
    requires { key_size ≢ 0 }
    ensures rows { IfOk result (AreItemsOf (key_size + value_size) pairs.now) }
    ensures left_over { IfErr result (λ count. (0 < count)
        × (count ≡ length pairs.now % (key_size + value_size))) }
{
    let Some(size) = key_size.checked_add(value_size) else {
        if pairs.len() == 0 {
            return whole_rows(key_size, pairs);
        }
        return Err(pairs.len());
    };
    whole_rows(size, pairs)
}

/// The same, of rows of a size that isn't 0.
fn whole_rows(size: usize, pairs: &[u8]) -> Result<ListView<'_>, usize>
    requires { size ≢ 0 }
    ensures rows { IfOk result (AreItemsOf size pairs.now) }
    ensures left_over { IfErr result (λ count. (0 < count) × (count ≡ length pairs.now % size)) }
{
    match ListView::new(size, pairs) {
        Ok(rows) => Ok(rows),
        Err(NotWhole::LeftOver(count)) => Err(count),
        Err(NotWhole::NoSize) => unreachable!(),
    }
}

/// Encodes the map of these rows, as `commonware_map_encode_dedup` does.
fn write_rows(
    alloc: Global,
    key_size: usize,
    value_size: usize,
    rows: &ListView<'_>,
    out: &mut [u8],
) -> WrittenView
    requires { AreLong (key_size + value_size) rows.now }
    ensures written { result.status ≡ 0 → (map : List (List ℕ × List ℕ))
        × IsMapOf key_size value_size rows.now map result.count result.size
        × (out.new ≡ spliced 0 (map_enc own_bytes own_bytes map) out.old) }
    ensures room { result.status ≡ 11 → (map : List (List ℕ × List ℕ))
        × IsMapOf key_size value_size rows.now map result.count result.size
        × (length out.old < result.size) }
    ensures long { result.status ≡ 3 → (map : List (List ℕ × List ℕ))
        × IsFirstOfEach key_size rows.now map
        × (result.number ≡ length map) × (2 ^ 32 ≤ length map) }
    ensures else_memory { result.status ≢ 0 → result.status ≢ 11 → result.status ≢ 3
        → (result.status ≡ 5) × (result.number ≡ 0) }
    ensures no_number { (result.status ≡ 0) ⊎ (result.status ≡ 11) → result.number ≡ 0 }
    ensures nothing_else { result.status ≢ 0 → result.status ≢ 11
        → (result.count ≡ 0) × (result.size ≡ 0) }
    ensures untouched { result.status ≢ 0 → out.new ≡ out.old }
    ensures nothing { length rows.now ≡ 0 → result.status ≢ 5 }
    ensures in_order { AreInKeyOrder key_size rows.now → result.status ≢ 5 }
{
    if are_in_key_order(key_size, rows) {
        return write_rows_in_order(key_size, value_size, rows, out);
    }
    let Ok(map) = map_of(alloc, key_size, rows) else {
        return refused(MEMORY, 0);
    };
    write_map(key_size, value_size, rows, &map, out)
}

/// Encodes a map of the first pairs of these rows, one for each key, as
/// `commonware_map_encode_dedup` does. Nothing is allocated.
pub(crate) fn write_map(
    key_size: usize,
    value_size: usize,
    rows: &ListView<'_>,
    map: &Map<&[u8], &[u8], Global>,
    out: &mut [u8],
) -> WrittenView
    requires long { AreLong (key_size + value_size) rows.now }
    requires firsts { IsFirstOfEach key_size rows.now (referred map.now) }
    ensures written { result.status ≡ 0
        → IsMapOf key_size value_size rows.now (referred map.now) result.count result.size
        × (out.new ≡ spliced 0 (map_enc own_bytes own_bytes (referred map.now)) out.old) }
    ensures room { result.status ≡ 11
        → IsMapOf key_size value_size rows.now (referred map.now) result.count result.size
        × (length out.old < result.size) }
    ensures long { result.status ≡ 3
        → (result.number ≡ length map.now) × (2 ^ 32 ≤ length map.now) }
    ensures status { (result.status ≡ 0) ⊎ (result.status ≡ 11) ⊎ (result.status ≡ 3) }
    ensures no_number { (result.status ≡ 0) ⊎ (result.status ≡ 11) → result.number ≡ 0 }
    ensures nothing_else { result.status ≢ 0 → result.status ≢ 11
        → (result.count ≡ 0) × (result.size ≡ 0) }
    ensures untouched { result.status ≢ 0 → out.new ≡ out.old }
{
    // The prover knows of a slice that its bytes are fewer than 2^63, so those of the map have a
    // number. Nothing else is done with it.
    let _ = rows.as_bytes();
    let count = map.len();
    if count > u32::MAX as usize {
        return refused(INVALID_LENGTH, count);
    }
    let keys_end = UInt(count as u32).encode_size() + key_size * count;
    let mut view = WrittenView {
        status: ROOM,
        count,
        number: 0,
        size: keys_end + (UInt(count as u32).encode_size() + value_size * count),
    };
    if out.len() < view.size {
        return view;
    }
    let keys = put_varint(count as u32, 0, out);
    put_items(map.keys().as_slice(), keys, out);
    let values = put_varint(count as u32, keys_end, out);
    put_items(map.values(), values, out);
    view.status = OK;
    view
}

/// Returns the map of the pairs that the rows are, where of equal keys the first pair stays.
fn map_of<'a>(
    alloc: Global,
    key_size: usize,
    rows: &ListView<'a>,
) -> Result<Map<&'a [u8], &'a [u8], Global>, AllocError>
    ensures firsts { IfOk result (λ pairs. IsFirstOfEach key_size rows.now (referred pairs)) }
    ensures nothing { OnErr result (1 ≤ length rows.now) }
{
    Map::from_iter_dedup(
        alloc,
        rows.iter().map(
            |row| -> (&[u8], &[u8])
                ensures key { result.0.now ≡ take key_size row.now }
                ensures value { result.1.now ≡ drop key_size row.now }
            { key_and_value(key_size, row) },
        ),
    )
}

/// Returns the key that a row begins with, and the value after it.
pub(crate) fn key_and_value(key_size: usize, row: &[u8]) -> (&[u8], &[u8])
    ensures key { result.0.now ≡ take key_size row.now }
    ensures value { result.1.now ≡ drop key_size row.now }
{
    row.split_at(key_size.min(row.len()))
}
