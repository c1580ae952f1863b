//! The first repeat of a list that is read in place, by values worked out by hand, and in rooms
//! that are too short.
use commonware_utils::views::{ListView, NoRoom};

/// What a place of a room has before a call.
const BEFORE: u32 = 77;

#[test]
fn the_repeat_with_the_least_second_position_is_found(rt: HostRuntime) {
    for (bytes, repeat) in [
        (b"\x05\x09\x09\x05".as_slice(), Some((1, 2))),
        (b"\x09\x05\x05\x09", Some((1, 2))),
        (b"\x01\x02\x03\x03\x02\x01", Some((2, 3))),
        (b"\x04\x01\x08\x04\x01\x08", Some((0, 3))),
        (b"\x08\x01\x04\x01\x08\x01", Some((1, 3))),
        (b"\x07\x07\x07\x07", Some((0, 1))),
        (b"\x07\x06\x05\x04", None),
        (b"\x07", None),
        (b"", None),
    ] {
        let items = ListView::new(1, bytes).expect(&rt, "a list");
        let mut room = [BEFORE; 6];
        assert!(rt; items.first_repeat(&mut room) == Ok(repeat), "{bytes:?}");
    }
}

#[test]
fn a_short_room_stays(rt: HostRuntime) {
    let items = ListView::new(1, b"\x02\x02\x01").expect(&rt, "a list");
    let mut room = [BEFORE; 3];
    for places in 0..3usize {
        if let Some(short) = room.get_mut(..places) {
            assert!(rt;
                items.first_repeat(short) == Err(NoRoom::Short(3)),
                "{places}"
            );
        }
    }
    assert!(rt; room == [BEFORE; 3]);
    assert!(rt; items.first_repeat(&mut room) == Ok(Some((0, 1))) && room == [2, 0, 1]);
    let alloc = rt.alloc();
    let short = format!(in alloc; "{}", NoRoom::Short(3)).expect(&rt, "memory");
    assert!(rt; short.as_str() == "room for 3 positions is needed");
    let many = format!(in alloc; "{}", NoRoom::TooMany(4_294_967_297)).expect(&rt, "memory");
    assert!(rt; many.as_str() == "4294967297 items are more than positions of 32 bits");
}
