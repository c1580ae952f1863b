//! The place of a key among keys of one size, in place.
ghost use Rattle.std.specs.Prelude.{◌≡◌, ◌≢◌, ◌↔◌, ◌⊎◌, ◌%◌, ◌<◌, Contains, ℕ, List, Some, length};
ghost use Rattle.std.specs.List.{HoldsAt, slice_get};
ghost use Rattle.commonware_ordered.specs.Strict.{IsStrict};
ghost use Rattle.commonware_sequence.specs.FixedBytes.{bytes_cmp};
ghost use Rattle.commonware_views.specs.Lists.{AreItemsOf, IsGapFor};

use crate::statuses::{ABSENT, NO_SIZE, NOT_WHOLE, OK};
use commonware_views::{ListView, NotWhole};

/// Where a key is among others.
///
/// Among keys that begin with 1 and 3, one that begins with 3 has status 0 and index 1 where the
/// rest agrees, and one that begins with 2 has status 12 and index 1.
#[repr(C)]
#[derive(Clone, Copy, Drop)]
pub struct PlaceView {
    /// OK or ABSENT; of commonware_set_position also NO_SIZE and NOT_WHOLE.
    pub status: u32,
    /// At OK: that of the key; at ABSENT: that of the first greater one, or the number of keys.
    pub index: usize,
}

/// Returns the index of a key of `key_length` bytes among keys of as many bytes, one after another,
/// in O(log n) comparisons; `keys_length` is in bytes. Among those that commonware_set_read has
/// found with a size_t `size` it is
///
/// ```c
/// commonware_set_position(input + view.start, view.count * size, key, size)
/// ```
///
/// NO_SIZE exactly where `key_length` is 0, since it can't be told how many keys of no bytes there
/// are: a set of such keys has the key exactly where view.count is 1. NOT_WHOLE exactly where
/// `key_length` is greater than 0 and doesn't divide `keys_length`. In a list that isn't in order,
/// OK and ABSENT are as commonware_committee_position has them.
#[unsafe(no_mangle)]
pub extern "C" fn commonware_set_position(keys: &[u8], key: &[u8]) -> PlaceView
    ensures found { result.status ≡ 0 → (items : List (List ℕ))
        × AreItemsOf (length key.now) keys.now items
        × (slice_get items result.index ≡ Some key.now) }
    ensures absent { result.status ≡ 12 → (items : List (List ℕ))
        × AreItemsOf (length key.now) keys.now items × IsGapFor key.now items result.index }
    ensures exactly { length key.now ≢ 0 → (items : List (List ℕ))
        → AreItemsOf (length key.now) keys.now items → IsStrict bytes_cmp items
        → (result.status ≡ 0) ↔ Contains items key.now }
    ensures no_size { (result.status ≡ 16) ↔ (length key.now ≡ 0) }
    ensures not_whole { (result.status ≡ 17)
        ↔ ((length key.now ≢ 0) × (length keys.now % length key.now ≢ 0)) }
    ensures nothing_else { result.status ≢ 0 → result.status ≢ 12
        → ((result.status ≡ 16) ⊎ (result.status ≡ 17)) × (result.index ≡ 0) }
{
    match ListView::new(key.len(), keys) {
        Ok(items) => place_in(&items, key),
        Err(NotWhole::NoSize) => no_place(NO_SIZE),
        Err(NotWhole::LeftOver(_)) => no_place(NOT_WHOLE),
    }
}

/// Returns the view of a refusal.
fn no_place(status: u32) -> PlaceView
    ensures { result ≡ record { status = status; index = 0 } }
{
    PlaceView { status, index: 0 }
}

/// Returns the index of a key among the members of a committee, in O(log n) comparisons.
/// `members_count` is the number of members, which are 32 * members_count bytes in a row:
/// &keys[0][0] of a `uint8_t keys[n][32]`, or input + view.start of the view.count members that
/// commonware_committee_read has found. `key` has 32 bytes. In a list that isn't in order, OK still
/// comes with the index of the key, and ABSENT with an index where the key is greater than the one
/// before and less than the one there.
#[unsafe(no_mangle)]
pub extern "C" fn commonware_committee_position(members: &[[u8; 32]], key: &[u8; 32]) -> PlaceView
    ensures found { result.status ≡ 0 → (result.index < length members.now)
        × HoldsAt (λ member. member ≡ key.now) members.now result.index }
    ensures absent { result.status ≢ 0 → (result.status ≡ 12)
        × IsGapFor key.now members.now result.index }
    ensures exactly { IsStrict bytes_cmp members.now
        → (result.status ≡ 0) ↔ Contains members.now key.now }
{
    match ListView::new(32, members.as_flattened()) {
        Ok(items) => place_in(&items, key),
        Err(_) => unreachable!(),
    }
}

/// Returns the place of a key among items.
#[inline(always)]
fn place_in(items: &ListView<'_>, key: &[u8]) -> PlaceView
    ensures found { result.status ≡ 0 → slice_get items.now result.index ≡ Some key.now }
    ensures absent { result.status ≢ 0 → (result.status ≡ 12)
        × IsGapFor key.now items.now result.index }
    ensures exactly { IsStrict bytes_cmp items.now
        → (result.status ≡ 0) ↔ Contains items.now key.now }
{
    match items.binary_search(key) {
        Ok(index) => PlaceView { status: OK, index },
        Err(index) => PlaceView {
            status: ABSENT,
            index,
        },
    }
}
