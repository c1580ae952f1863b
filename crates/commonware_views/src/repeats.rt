//! The first item of a list that stands earlier in it too, found by sorting positions.
ghost use Rattle.std.specs.Prelude.{◌≡◌, ◌↔◌, ◌^◌, ◌<◌, ◌≤◌, IfErr, IfOk, IsOk, IsTrue, MatchOption, OnErr, OnOk, drop, length, slice_index_or, take, []};
ghost use Rattle.commonware_views.specs.Repeats.{AreDistinct, AreInOrder, IsFirstRepeat, IsNoRoom, place_cmp};

use crate::list::ListView;
use commonware_sequence::bytes_order;
use std::cmp::Ordering;

/// How many positions have a number of 32 bits.
const MOST_POSITIONS: usize = 4_294_967_296;

/// Why the positions of the items of a list don't go into a room: three items into a room of two
/// places are `Short(3)`.
#[derive(Clone, Copy, Debug, PartialEq, Eq, thiserror::Error)]
pub enum NoRoom {
    /// The room has fewer places than this number of items.
    #[error("room for {0} positions is needed")]
    Short(usize),
    /// There are this many items, and not each position has a number of 32 bits.
    #[error("{0} items are more than positions of 32 bits")]
    TooMany(usize),
}

impl<'a> ListView<'a> {
    /// Looks for the first item that stands earlier in the list too, and returns where it stands
    /// earlier and its own position; or `None` where no two items are the same. Of the items
    /// `05 09 09 05` of one byte these are 1 and 2. It takes O(n log n) comparisons and allocates
    /// nothing: it sorts the positions in `room`.
    ///
    /// After it the first places of `room`, as many as there are items, are the positions of the
    /// items in the order of the items, so that an item can be looked up in O(log n) comparisons.
    /// The places after them stay. A room that is refused stays as it was.
    ///
    /// # Errors
    ///
    /// `Short` where the room has fewer places than there are items, and else `TooMany` where these
    /// are more than 2^32.
    pub fn first_repeat(&self, room: &mut [u32]) -> Result<Option<(usize, usize)>, NoRoom>
        ensures found { IfOk result (λ repeat. MatchOption repeat (AreDistinct self.now)
            (λ at. IsFirstRepeat self.now at.0 at.1)) }
        ensures order { OnOk result (AreInOrder self.now (take (length self.now) room.new)) }
        ensures refused { IfErr result (IsNoRoom (length self.now) (length room.old)) }
        ensures exactly { IsOk result
            ↔ ((length self.now ≤ length room.old) × (length self.now ≤ 2 ^ 32)) }
        ensures stays { OnErr result (room.new ≡ room.old) }
        ensures past { drop (length self.now) room.new ≡ drop (length self.now) room.old }
    {
        let count = self.len();
        if room.len() < count {
            return Err(NoRoom::Short(count));
        }
        if count > MOST_POSITIONS {
            return Err(NoRoom::TooMany(count));
        }
        let places = &mut room[..count];
        sort_places(self, places);
        Ok(repeat_among(self, places))
    }
}

/// Makes the places the positions of the items, in the order of the items.
fn sort_places(items: &ListView<'_>, places: &mut [u32])
    requires count { length places.old ≡ length items.now }
    requires few { length items.now ≤ 2 ^ 32 }
    ensures { AreInOrder items.now places.new }
{
    let mut i = 0;
    while i < places.len() {
        places[i] = i as u32;
        i += 1;
    }
    places.sort_unstable_by(|one, other| place_order(items, *one, *other));
}

/// Returns the order of two positions: that of the items at them, and of the same items their own.
fn place_order(items: &ListView<'_>, one: u32, other: u32) -> Ordering
    ensures { result ≡ place_cmp items.now one other }
{
    let order = bytes_order(item_or_empty(items, one), item_or_empty(items, other));
    order.then(one.cmp(&other))
}

/// Returns the item at a position, or no bytes past the last.
fn item_or_empty<'a>(items: &ListView<'a>, place: u32) -> &'a [u8]
    ensures { result.now ≡ slice_index_or items.now place [] }
{
    items.get(place as usize).unwrap_or(&[])
}

/// Returns the first repeat, whose positions are neighbours among the places.
fn repeat_among(items: &ListView<'_>, places: &[u32]) -> Option<(usize, usize)>
    requires { AreInOrder items.now places.now }
    ensures { MatchOption result (AreDistinct items.now)
        (λ at. IsFirstRepeat items.now at.0 at.1) }
{
    // The second of the neighbours found so far, or 0 where there are none.
    let mut found = 0;
    let mut i = 1;
    while i < places.len() {
        if is_same(items, places[i - 1], places[i]) && is_earlier(places, i, found) {
            found = i;
        }
        i += 1;
    }
    if found == 0 {
        return None;
    }
    Some((places[found - 1] as usize, places[found] as usize))
}

/// Whether the place at an index is less than the one found, or there is none, which 0 stands for.
fn is_earlier(places: &[u32], index: usize, found: usize) -> bool
    requires { (index < length places.now) × (found < length places.now) }
    ensures { IsTrue result ↔ (0 < found
        → slice_index_or places.now index 0 < slice_index_or places.now found 0) }
{
    found == 0 || places[index] < places[found]
}

/// Whether the items at two positions are the same.
fn is_same(items: &ListView<'_>, one: u32, other: u32) -> bool
    ensures { IsTrue result
        ↔ (slice_index_or items.now one [] ≡ slice_index_or items.now other []) }
{
    item_or_empty(items, one) == item_or_empty(items, other)
}
