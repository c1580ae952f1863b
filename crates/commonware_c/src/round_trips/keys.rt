//! The place of a key that was read, and what is read of pairs that were written.
ghost use Rattle.std.specs.Prelude.{◌≡◌, ◌+◌, ◌<◌, ◌≤◌, ◌↔◌, ℕ, List, IfSome, length};
ghost use Rattle.std.specs.Map.{keys_of, values_of};
ghost use Rattle.commonware_map.specs.Maps.{map_enc};
ghost use Rattle.commonware_ordered.specs.Strict.{IsStrict};
ghost use Rattle.commonware_sequence.specs.FixedBytes.{bytes_cmp, own_bytes};
ghost use Rattle.commonware_views.specs.Lists.{AreItemsOf, StandBy};
ghost use Rattle.commonware_views.specs.Repeats.{AreDistinct};
ghost use Rattle.commonware_c.specs.Pairs.{AreAllPairs, IsFirstOfEach};

use crate::bimaps::{BimapView, commonware_bimap_read};
use crate::maps::{PairsView, commonware_map_read};
use crate::pairs::commonware_map_encode_dedup;
use crate::places::{PlaceView, commonware_committee_position, commonware_set_position};
use crate::sets::commonware_set_read;
use crate::statuses::OK;
use crate::unique::commonware_map_encode;
use commonware_base::codec::Source;
use commonware_views::ListView;
use std::alloc::Global;

/// Reads a set, and looks the key at a position of it up: it is at this position. `None` where
/// there is no set of keys of a byte or more, or no such position.
fn own_place(
    size: usize,
    input: &[u8],
    least: usize,
    most: usize,
    position: usize,
) -> Option<PlaceView>
    ensures { IfSome result (λ place. (place.status ≡ 0) × (place.index ≡ position)) }
{
    let view = commonware_set_read(size, input, least, most);
    if view.status != OK {
        return None;
    }
    let keys = &input[view.start..input.len() - view.left];
    let Ok(items) = ListView::new(size, keys) else {
        return None;
    };
    let Some(key) = items.get(position) else {
        return None;
    };
    Some(commonware_set_position(keys, key))
}

/// Looks the member at a position of a committee up: it is at this position.
fn own_index(members: &[[u8; 32]], position: usize) -> PlaceView
    requires strict { IsStrict bytes_cmp members.now }
    requires within { position < length members.now }
    ensures { (result.status ≡ 0) × (result.index ≡ position) }
{
    commonware_committee_position(members, &members[position])
}

/// Writes the map of these pairs to the room, and reads a bimap there: it is one exactly where no
/// two values are the same, if the order has a place for each pair. `None` where none is written.
fn map_there_and_bimap_back(
    alloc: Global,
    key_size: usize,
    value_size: usize,
    pairs: &[u8],
    room: &mut [u8],
    order: &mut [u32],
) -> Option<BimapView>
    ensures { IfSome result (λ view. (rows : List (List ℕ)) × (written : List (List ℕ × List ℕ))
        × AreItemsOf (key_size + value_size) pairs.now rows
        × IsFirstOfEach key_size rows written
        × ((view.status ≡ 0)
        ↔ (AreDistinct (values_of written) × (length written ≤ length order.old)))) }
{
    let written = commonware_map_encode_dedup(alloc, key_size, value_size, pairs, room);
    if written.status != OK {
        return None;
    }
    // Of a source the prover knows that what it holds are bytes. Nothing else is done with it.
    let _ = Source::new(room).position();
    Some(commonware_bimap_read(key_size, value_size, room, 0, written.count, order))
}

/// Writes the map of these pairs, of which no key repeats, to the room, and reads it there: it is a
/// map of all pairs, and nothing is left but what of the room isn't written. `None` where none is
/// written.
fn unique_map_there_and_back(
    alloc: Global,
    key_size: usize,
    value_size: usize,
    pairs: &[u8],
    room: &mut [u8],
) -> Option<PairsView>
    ensures { IfSome result (λ view. (view.status ≡ 0)
        × ((rows : List (List ℕ)) × (written : List (List ℕ × List ℕ))
        × AreItemsOf (key_size + value_size) pairs.now rows
        × AreAllPairs key_size rows written × (view.count ≡ length rows)
        × (length (map_enc own_bytes own_bytes written) + view.left ≡ length room.new)
        × StandBy key_size room.new view.keys (keys_of written)
        × StandBy value_size room.new view.values (values_of written))) }
{
    let written = commonware_map_encode(alloc, key_size, value_size, pairs, room);
    if written.status != OK {
        return None;
    }
    // Of a source the prover knows that what it holds are bytes. Nothing else is done with it.
    let _ = Source::new(room).position();
    Some(commonware_map_read(key_size, value_size, room, 0, written.count))
}

/// Of the keys 1, 4 and 9 each is at its position; and so are members.
#[test]
fn keys_are_at_their_places(rt: HostRuntime) {
    for position in 0..3usize {
        let place = own_place(1, &[3, 1, 4, 9, 7], 0, 9, position).expect(&rt, "a key");
        assert!(rt; place.status == 0 && place.index == position);
    }
    assert!(rt; own_place(1, &[3, 1, 4, 9, 7], 0, 9, 3).is_none());
    assert!(rt; own_place(1, &[3, 1, 4, 4], 0, 9, 0).is_none());
    assert!(rt; own_place(0, &[1], 0, 9, 0).is_none());
    let members = [[7; 32], [8; 32], [9; 32]];
    for position in 0..3usize {
        let place = own_index(&members, position);
        assert!(rt; place.status == 0 && place.index == position);
    }
}

/// Of the pairs 3 to 7 and 1 to 8 the map is a bimap, and of 3 to 8 and 1 to 8 it is none.
#[test]
fn pairs_go_there_and_back(rt: HostRuntime) {
    let mut room = [0xffu8; 8];
    let mut order = [5u32; 2];
    let bimap = map_there_and_bimap_back(rt.alloc(), 1, 1, &[3, 7, 1, 8], &mut room, &mut order);
    assert!(rt; bimap.is_some_and(|it| it.status == 0 && it.count == 2 && it.left == 2));
    assert!(rt; order == [1, 0]);
    let repeated = map_there_and_bimap_back(rt.alloc(), 1, 1, &[3, 8, 1, 8], &mut room, &mut order);
    assert!(rt; repeated.is_some_and(|it| it.status == 18 && it.first == 0 && it.second == 1));
    let short = map_there_and_bimap_back(rt.alloc(), 1, 1, &[3, 7, 1, 8], &mut room, &mut []);
    assert!(rt; short.is_some_and(|it| it.status == 11));
    let unique = unique_map_there_and_back(rt.alloc(), 1, 1, &[3, 7, 1, 8], &mut room);
    assert!(rt; unique.is_some_and(|it| it.status == 0 && it.count == 2 && it.left == 2));
    assert!(rt; room == [2, 1, 3, 2, 8, 7, 0xff, 0xff]);
    room = [0xff; 8];
    let rising = unique_map_there_and_back(rt.alloc(), 1, 1, &[1, 8, 3, 7], &mut room);
    assert!(rt; rising.is_some_and(|it| it.status == 0 && it.count == 2 && it.left == 2));
    assert!(rt; room == [2, 1, 3, 2, 8, 7, 0xff, 0xff]);
    assert!(rt; unique_map_there_and_back(rt.alloc(), 1, 1, &[3, 7, 3, 8], &mut room).is_none());
}
