//! The encoding of a map of keys and values, each of one size, written to a caller's room, where no
//! key repeats.
ghost use Rattle.std.specs.Prelude.{◌≡◌, ◌≢◌, ◌↔◌, ◌⊎◌, ◌+◌, ◌^◌, ◌%◌, ◌<◌, ◌≤◌, ℕ, IfOk, List, MatchResult, OnErr, length};
ghost use Rattle.commonware_map.specs.Maps.{map_enc};
ghost use Rattle.commonware_map.specs.Pairs.{on_keys};
ghost use Rattle.commonware_ordered.specs.Strict.{IsStrict};
ghost use Rattle.commonware_sequence.specs.FixedBytes.{bytes_cmp, own_bytes};
ghost use Rattle.commonware_views.specs.Lists.{AreItemsOf};
ghost use Rattle.commonware_views.specs.laws.ItemLaws.{AreLong};
ghost use Rattle.commonware_c.specs.Pairs.{AreAllPairs, AreInKeyOrder, IsFirstRepeatedKey, IsMapOfAll, RepeatsKey, referred};
ghost use Rattle.commonware_c.specs.Splices.{spliced};

use crate::pairs::{key_and_value, rows_of, write_map};
use crate::rows_in_order::{are_in_key_order, write_rows_in_order};
use crate::statuses::{MEMORY, NO_SIZE, NOT_WHOLE, REPEATED_KEY};
use crate::written::{WrittenView, refused};
use commonware_map::{Map, SortedEntries};
use commonware_ordered::Set;
use commonware_views::ListView;
use std::alloc::{AllocError, Global};

/// Writes the map of these pairs as commonware_map_encode_dedup does, where no key repeats: OK
/// then, with all pairs. Where one does, nothing is written, and REPEATED_KEY comes with the least
/// index of a pair whose key an earlier pair has. The status is the first of these: NO_SIZE,
/// NOT_WHOLE, REPEATED_KEY or MEMORY, whichever is met first, INVALID_LENGTH where the pairs are
/// more than 4294967295, ROOM. Where there is memory, it is REPEATED_KEY exactly where the keys
/// have bytes, the pairs are whole and a key repeats. 10 + pairs_length bytes always suffice. Never
/// MEMORY where the pairs come in the order of their keys, each key once, as one pair and no pairs
/// do: nothing is allocated then. Never NOT_STRICT.
#[unsafe(no_mangle)]
pub extern "C" fn commonware_map_encode(
    alloc: Global,
    key_size: usize,
    value_size: usize,
    pairs: &[u8],
    out: &mut [u8],
) -> WrittenView
    ensures written { result.status ≡ 0
        → (rows : List (List ℕ)) × (map : List (List ℕ × List ℕ))
        × AreItemsOf (key_size + value_size) pairs.now rows
        × IsMapOfAll key_size value_size rows map result.count result.size
        × (out.new ≡ spliced 0 (map_enc own_bytes own_bytes map) out.old) }
    ensures room { result.status ≡ 11
        → (rows : List (List ℕ)) × (map : List (List ℕ × List ℕ))
        × AreItemsOf (key_size + value_size) pairs.now rows
        × IsMapOfAll key_size value_size rows map result.count result.size
        × (length out.old < result.size) }
    ensures long { result.status ≡ 3
        → (rows : List (List ℕ)) × (map : List (List ℕ × List ℕ))
        × AreItemsOf (key_size + value_size) pairs.now rows × AreAllPairs key_size rows map
        × (result.number ≡ length rows) × (2 ^ 32 ≤ length rows) }
    ensures repeated { result.status ≡ 19 → (rows : List (List ℕ))
        × AreItemsOf (key_size + value_size) pairs.now rows
        × IsFirstRepeatedKey key_size rows result.number }
    ensures exactly { key_size ≢ 0 → result.status ≢ 5 → (rows : List (List ℕ))
        → AreItemsOf (key_size + value_size) pairs.now rows
        → (result.status ≡ 19) ↔ ((index : ℕ) × RepeatsKey key_size rows index) }
    ensures no_size { (result.status ≡ 16) ↔ (key_size ≡ 0) }
    ensures not_whole { (result.status ≡ 17)
        ↔ ((key_size ≢ 0) × (length pairs.now % (key_size + value_size) ≢ 0)) }
    ensures left_over { result.status ≡ 17
        → result.number ≡ length pairs.now % (key_size + value_size) }
    ensures else_memory { result.status ≢ 0 → result.status ≢ 11 → result.status ≢ 3
        → result.status ≢ 17 → result.status ≢ 19
        → ((result.status ≡ 5) ⊎ (result.status ≡ 16)) × (result.number ≡ 0) }
    ensures no_number { (result.status ≡ 0) ⊎ (result.status ≡ 11) → result.number ≡ 0 }
    ensures nothing_else { result.status ≢ 0 → result.status ≢ 11
        → (result.count ≡ 0) × (result.size ≡ 0) }
    ensures untouched { result.status ≢ 0 → out.new ≡ out.old }
    ensures nothing { length pairs.now ≡ 0 → result.status ≢ 5 }
    ensures in_order { (rows : List (List ℕ)) → AreItemsOf (key_size + value_size) pairs.now rows
        → AreInKeyOrder key_size rows → result.status ≢ 5 }
{
    if key_size == 0 {
        return refused(NO_SIZE, 0);
    }
    match rows_of(key_size, value_size, pairs) {
        Ok(rows) => write_all_rows(alloc, key_size, value_size, &rows, out),
        Err(count) => refused(NOT_WHOLE, count),
    }
}

/// Encodes the map of these rows, as `commonware_map_encode` does.
fn write_all_rows(
    alloc: Global,
    key_size: usize,
    value_size: usize,
    rows: &ListView<'_>,
    out: &mut [u8],
) -> WrittenView
    requires { AreLong (key_size + value_size) rows.now }
    ensures written { result.status ≡ 0 → (map : List (List ℕ × List ℕ))
        × IsMapOfAll key_size value_size rows.now map result.count result.size
        × (out.new ≡ spliced 0 (map_enc own_bytes own_bytes map) out.old) }
    ensures room { result.status ≡ 11 → (map : List (List ℕ × List ℕ))
        × IsMapOfAll key_size value_size rows.now map result.count result.size
        × (length out.old < result.size) }
    ensures long { result.status ≡ 3 → (map : List (List ℕ × List ℕ))
        × AreAllPairs key_size rows.now map
        × (result.number ≡ length rows.now) × (2 ^ 32 ≤ length rows.now) }
    ensures repeated { result.status ≡ 19 → IsFirstRepeatedKey key_size rows.now result.number }
    ensures exactly { result.status ≢ 5
        → (result.status ≡ 19) ↔ ((index : ℕ) × RepeatsKey key_size rows.now index) }
    ensures else_memory { result.status ≢ 0 → result.status ≢ 11 → result.status ≢ 3
        → result.status ≢ 19 → (result.status ≡ 5) × (result.number ≡ 0) }
    ensures no_number { (result.status ≡ 0) ⊎ (result.status ≡ 11) → result.number ≡ 0 }
    ensures nothing_else { result.status ≢ 0 → result.status ≢ 11
        → (result.count ≡ 0) × (result.size ≡ 0) }
    ensures untouched { result.status ≢ 0 → out.new ≡ out.old }
    ensures nothing { length rows.now ≡ 0 → result.status ≢ 5 }
    ensures in_order { AreInKeyOrder key_size rows.now → result.status ≢ 5 }
{
    if are_in_key_order(key_size, rows) {
        return write_rows_in_order(key_size, value_size, rows, out);
    }
    match map_of_all(alloc, key_size, rows) {
        Ok(Ok(map)) => write_map(key_size, value_size, rows, &map, out),
        Ok(Err(index)) => refused(REPEATED_KEY, index),
        Err(_) => refused(MEMORY, 0),
    }
}

/// Returns the map of the pairs that the rows are, or the index of the first row that has the key
/// of an earlier one.
fn map_of_all<'a>(
    alloc: Global,
    key_size: usize,
    rows: &ListView<'a>,
) -> Result<Result<Map<&'a [u8], &'a [u8], Global>, usize>, AllocError>
    ensures made { IfOk result (λ made. MatchResult made
        (λ pairs. AreAllPairs key_size rows.now (referred pairs))
        (IsFirstRepeatedKey key_size rows.now)) }
    ensures nothing { OnErr result (1 ≤ length rows.now) }
{
    let mut entries = SortedEntries::with_room(alloc, rows.len())?;
    let mut index = 0;
    while let Some(row) = rows.get(index) {
        let (key, value) = key_and_value(key_size, row);
        if !entries.insert(key, value)? {
            return Ok(Err(index));
        }
        index += 1;
    }
    Ok(Ok(map_of_entries(entries)?))
}

/// Returns the map of the pairs of a builder.
fn map_of_entries<'a>(
    entries: SortedEntries<&'a [u8], &'a [u8], Global>,
) -> Result<Map<&'a [u8], &'a [u8], Global>, AllocError>
    ensures pairs { IfOk result (λ pairs. pairs ≡ entries.entry) }
    ensures strict { IfOk result (λ pairs.
        IsStrict (on_keys (λ x y. bytes_cmp x.now y.now)) pairs) }
    ensures nothing { OnErr result (1 ≤ length entries.entry) }
{
    let (keys, values) = entries.into_columns()?;
    match Map::from_parts(Set::from_strict(keys), values) {
        Some(map) => Ok(map),
        None => unreachable!(),
    }
}
