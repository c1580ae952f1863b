//! The encoding of a bimap of keys and values, each of one size, decoded in place.
ghost use Rattle.std.specs.Prelude.{◌≡◌, ◌≢◌, ◌↔◌, ◌⊎◌, ◌+◌, ◌*◌, ◌^◌, ◌<◌, ◌≤◌, ℕ, List, drop, length, take};
ghost use Rattle.std.specs.Map.{keys_of, values_of};
ghost use Rattle.commonware_base.specs.Varint.{varint};
ghost use Rattle.commonware_views.specs.Lists.{StandBy};
ghost use Rattle.commonware_views.specs.Maps.{sized_map_fault};
ghost use Rattle.commonware_views.specs.Repeats.{AreInOrder, IsFirstRepeat};
ghost use Rattle.commonware_c.specs.Bimaps.{BeginsWithMap, IsSizedBiMapOf};
ghost use Rattle.commonware_c.specs.Committees.{between};
ghost use Rattle.commonware_c.specs.Status.{IsRefusedWith};

use crate::maps::{MapAt, find_map};
use crate::statuses::{OK, REPEATED_VALUE, ROOM, status_of};

/// A bimap of keys of one size and values of another at the start of the input.
///
/// Two pairs of keys of 20 bytes and values of 8, which are `02`, 40 bytes, `02` and 16 bytes, have
/// status 0, count 2, keys 1, values 42 and 0 left where the values differ. Where they are the same
/// the status is 18, first is 0 and second is 1.
#[repr(C)]
#[derive(Clone, Copy, Drop)]
pub struct BimapView {
    /// OK, END_OF_INPUT, INVALID_VARINT, INVALID_LENGTH, NOT_STRICT, ROOM or REPEATED_VALUE.
    pub status: u32,
    /// At OK: how many pairs there are.
    pub count: u32,
    /// At INVALID_LENGTH: the stated length, of the keys or the values; at ROOM: how many indices
    /// `room` has to have, one for each pair.
    pub number: usize,
    /// At OK: the offset of the first key.
    pub keys: usize,
    /// At OK: the offset of the first value, which is that of the first key.
    pub values: usize,
    /// At OK: how many bytes of the input follow the last value.
    pub left: usize,
    /// At REPEATED_VALUE: the index of the earlier of two pairs with one value.
    pub first: usize,
    /// At REPEATED_VALUE: the later index, the least whose value stands earlier.
    pub second: usize,
}

/// Decodes a bimap of `least` to `most` pairs at the start of the input: a map of which no two
/// values are the same. All is as commonware_map_read has it, and a map that it refuses has the
/// same first fault (decoding error) here. Of a map, ROOM where `room` has fewer indices than there
/// are pairs; else REPEATED_VALUE where two values are the same, and OK where all differ.
///
/// `room` is for indices, and its length is in indices; what it holds before the call doesn't
/// matter. After OK its first `count` are the indices of the pairs in the order of their values, by
/// which a key is found by its value in O(log n) comparisons. After REPEATED_VALUE its first
/// indices, as many as there are pairs, are in this order too, those of the same value in their own
/// order. At both what follows them stays, and at every other status all of `room` does. A call
/// with `room_length` 0 returns ROOM with how many indices it takes, or OK for no pairs. It takes
/// O(n log n) comparisons. Never MEMORY.
///
/// There is no call that writes a bimap: it is what commonware_map_encode writes, and this call
/// says whether two values are the same.
#[unsafe(no_mangle)]
pub extern "C" fn commonware_bimap_read(
    key_size: usize,
    value_size: usize,
    input: &[u8],
    least: usize,
    most: usize,
    room: &mut [u32],
) -> BimapView
    ensures accepted { result.status ≡ 0
        → (pairs : List (List ℕ × List ℕ)) × (rest : List ℕ)
        × IsSizedBiMapOf key_size value_size (between least most) input.now pairs rest
        × (result.count ≡ length pairs) × (result.left ≡ length rest)
        × StandBy key_size input.now result.keys (keys_of pairs)
        × StandBy value_size input.now result.values (values_of pairs) }
    ensures places { result.status ≡ 0 → (result.keys ≡ length (varint result.count))
        × (result.values
        ≡ result.keys + key_size * result.count + length (varint result.count)) }
    ensures refused { result.status ≢ 0 → result.status ≢ 11 → result.status ≢ 18
        → IsRefusedWith (sized_map_fault key_size value_size (between least most) input.now)
        (Unit {0}) result.status result.number }
    ensures short { (result.status ≡ 11)
        ↔ BeginsWithMap key_size value_size (between least most) input.now
        (λ pairs. length room.old < length pairs) }
    ensures needed { result.status ≡ 11
        → BeginsWithMap key_size value_size (between least most) input.now
        (λ pairs. result.number ≡ length pairs) }
    ensures repeated { result.status ≡ 18
        → BeginsWithMap key_size value_size (between least most) input.now
        (λ pairs. IsFirstRepeat (values_of pairs) result.first result.second) }
    ensures exactly { (result.status ≡ 0)
        ↔ ((pairs : List (List ℕ × List ℕ)) × (rest : List ℕ)
        × IsSizedBiMapOf key_size value_size (between least most) input.now pairs rest
        × (length pairs ≤ length room.old)) }
    ensures order { (result.status ≡ 0) ⊎ (result.status ≡ 18)
        → BeginsWithMap key_size value_size (between least most) input.now
        (λ pairs. AreInOrder (values_of pairs) (take (length pairs) room.new)
        × (drop (length pairs) room.new ≡ drop (length pairs) room.old)) }
    ensures untouched { result.status ≢ 0 → result.status ≢ 18 → room.new ≡ room.old }
    ensures no_number { (result.status ≡ 0) ⊎ (result.status ≡ 18) → result.number ≡ 0 }
    ensures no_repeat { result.status ≢ 18 → (result.first ≡ 0) × (result.second ≡ 0) }
    ensures nothing_else { result.status ≢ 0 → result ≡ record {
      status = result.status;
      count = 0;
      number = result.number;
      keys = 0;
      values = 0;
      left = 0;
      first = result.first;
      second = result.second;
    } }
    ensures no_memory { result.status ≢ 5 }
{
    match find_map(key_size, value_size, input, least, most) {
        Ok(found) => match found.pairs.values().first_repeat(room) {
            Ok(None) => view_of(&found),
            Ok(Some((first, second))) => repeated(first, second),
            Err(_) => refused(ROOM, found.pairs.len()),
        },
        Err(error) => {
            let (status, number) = status_of(&error);
            refused(status, number)
        }
    }
}

/// Returns the view of a map whose values are distinct.
fn view_of(found: &MapAt<'_>) -> BimapView
    requires { length found.now.pairs < 2 ^ 32 }
    ensures { result ≡ record {
      status = 0;
      count = length found.now.pairs;
      number = 0;
      keys = found.now.keys;
      values = found.now.values;
      left = found.now.left;
      first = 0;
      second = 0;
    } }
{
    BimapView {
        status: OK,
        count: found.pairs.len() as u32,
        number: 0,
        keys: found.keys,
        values: found.values,
        left: found.left,
        first: 0,
        second: 0,
    }
}

/// Returns the view of a map in which a value is repeated.
fn repeated(first: usize, second: usize) -> BimapView
    ensures { result ≡ record {
      status = 18;
      count = 0;
      number = 0;
      keys = 0;
      values = 0;
      left = 0;
      first = first;
      second = second;
    } }
{
    let mut view = refused(REPEATED_VALUE, 0);
    view.first = first;
    view.second = second;
    view
}

/// Returns the view of a status at which there is no bimap.
fn refused(status: u32, number: usize) -> BimapView
    ensures { result ≡ record {
      status = status;
      count = 0;
      number = number;
      keys = 0;
      values = 0;
      left = 0;
      first = 0;
      second = 0;
    } }
{
    BimapView {
        status,
        count: 0,
        number,
        keys: 0,
        values: 0,
        left: 0,
        first: 0,
        second: 0,
    }
}
