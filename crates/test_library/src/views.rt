//! Lists, sets and maps that are read in place: each call with values worked out by hand.
use commonware_utils::codec::{RangeCfg, Source};
use commonware_utils::views::{ListView, MapView, NotWhole, SetView};

/// Any number of items.
fn any() -> RangeCfg<usize> {
    RangeCfg::from(..)
}

#[test]
fn a_list_is_read_in_place(rt: HostRuntime) {
    let mut src = Source::new(b"\x02\xaa\xbb\xcc\xdd\xee");
    let list = ListView::read(&mut src, 2, any()).expect(&rt, "a list");
    assert!(rt; src.position() == 5 && src.rest() == b"\xee".as_slice());
    assert!(rt; list.len() == 2 && !list.is_empty());
    assert!(rt; list.as_bytes() == b"\xaa\xbb\xcc\xdd".as_slice());
    assert!(rt; list.get(0) == Some(b"\xaa\xbb".as_slice()));
    assert!(rt; list.get(1) == Some(b"\xcc\xdd".as_slice()));
    assert!(rt; list.get(2).is_none() && list.get(usize::MAX).is_none());
    let mut items = list.iter();
    assert!(rt; items.len() == 2 && items.size_hint() == (2, Some(2)));
    assert!(rt; items.next() == Some(b"\xaa\xbb".as_slice()));
    assert!(rt; items.len() == 1 && items.size_hint() == (1, Some(1)));
    assert!(rt; items.next() == Some(b"\xcc\xdd".as_slice()));
    assert!(rt; items.len() == 0 && items.next().is_none() && items.next().is_none());
    assert!(rt; list.len() == 2 && list.iter().len() == 2);
}

#[test]
fn a_set_is_read_in_place(rt: HostRuntime) {
    let mut src = Source::new(b"\x02\xaa\xbb\xcc\xdd\xee");
    let set = SetView::read(&mut src, 2, any()).expect(&rt, "a set");
    assert!(rt; src.position() == 5 && src.rest() == b"\xee".as_slice());
    assert!(rt; set.len() == 2 && !set.is_empty() && set.as_list().len() == 2);
    assert!(rt; set.as_bytes() == b"\xaa\xbb\xcc\xdd".as_slice());
    assert!(rt; set.get(0) == Some(b"\xaa\xbb".as_slice()));
    assert!(rt; set.get(1) == Some(b"\xcc\xdd".as_slice()) && set.get(2).is_none());
    assert!(rt; set.position(b"\xaa\xbb") == Some(0) && set.position(b"\xcc\xdd") == Some(1));
    assert!(rt; set.contains(b"\xaa\xbb") && set.contains(b"\xcc\xdd"));
    // Below, between and above the two, and of other sizes.
    for key in [
        b"\x00\x00".as_slice(),
        b"\xaa\xbc",
        b"\xcc\xde",
        b"\xff\xff",
        b"",
        b"\xaa",
        b"\xaa\xbb\x00",
        b"\xaa\xbb\xcc\xdd",
    ] {
        assert!(rt;
            set.position(key).is_none() && !set.contains(key),
            "{key:?}"
        );
    }
    let mut keys = set.iter();
    assert!(rt; keys.next() == Some(b"\xaa\xbb".as_slice()));
    assert!(rt; keys.next() == Some(b"\xcc\xdd".as_slice()) && keys.next().is_none());
}

#[test]
fn a_map_is_read_in_place(rt: HostRuntime) {
    let mut src = Source::new(b"\x02\xaa\xbb\x02\x01\x02\x03\x04\xee");
    let map = MapView::read(&mut src, 1, 2, any()).expect(&rt, "a map");
    assert!(rt; src.position() == 8 && src.rest() == b"\xee".as_slice());
    assert!(rt; map.len() == 2 && !map.is_empty());
    assert!(rt; map.keys().as_bytes() == b"\xaa\xbb".as_slice());
    assert!(rt; map.values().as_bytes() == b"\x01\x02\x03\x04".as_slice());
    assert!(rt; map.get(0) == Some(b"\xaa".as_slice()) && map.get(1) == Some(b"\xbb".as_slice()));
    assert!(rt; map.value(0) == Some(b"\x01\x02".as_slice()));
    assert!(rt; map.value(1) == Some(b"\x03\x04".as_slice()));
    assert!(rt; map.get(2).is_none() && map.value(2).is_none());
    assert!(rt; map.position(b"\xaa") == Some(0) && map.position(b"\xbb") == Some(1));
    assert!(rt; map.get_value(b"\xaa") == Some(b"\x01\x02".as_slice()));
    assert!(rt; map.get_value(b"\xbb") == Some(b"\x03\x04".as_slice()));
    for key in [
        b"\x00".as_slice(),
        b"\xab",
        b"\xff",
        b"",
        b"\x01\x02",
        b"\xaa\x00",
    ] {
        assert!(rt;
            map.position(key).is_none() && map.get_value(key).is_none(),
            "{key:?}"
        );
    }
    let mut pairs = map.keys().iter().zip(map.values().iter());
    assert!(rt; pairs.next() == Some((b"\xaa".as_slice(), b"\x01\x02".as_slice())));
    assert!(rt; pairs.next() == Some((b"\xbb".as_slice(), b"\x03\x04".as_slice())));
    assert!(rt; pairs.next().is_none());
}

#[test]
fn bytes_are_cut_into_items(rt: HostRuntime) {
    let list = ListView::new(2, b"\xaa\xbb\xcc\xdd").expect(&rt, "two items");
    assert!(rt; list.len() == 2 && list.get(1) == Some(b"\xcc\xdd".as_slice()));
    let list = ListView::new(4, b"\xaa\xbb\xcc\xdd").expect(&rt, "an item");
    assert!(rt; list.len() == 1 && list.get(0) == Some(b"\xaa\xbb\xcc\xdd".as_slice()));
    let list = ListView::new(3, b"").expect(&rt, "no items");
    assert!(rt; list.is_empty() && list.get(0).is_none() && list.iter().next().is_none());
    for (size, bytes, refusal) in [
        (3, b"\xaa\xbb\xcc\xdd".as_slice(), NotWhole::LeftOver(1)),
        (5, b"\xaa\xbb\xcc\xdd", NotWhole::LeftOver(4)),
        (usize::MAX, b"\xaa\xbb", NotWhole::LeftOver(2)),
        (0, b"\xaa\xbb", NotWhole::NoSize),
        (0, b"", NotWhole::NoSize),
    ] {
        assert!(rt; ListView::new(size, bytes).err() == Some(refusal), "{size}");
    }
    let alloc = rt.alloc();
    let none = format!(in alloc; "{}", NotWhole::NoSize).expect(&rt, "memory");
    assert!(rt; none.as_str() == "items of no bytes");
    let over = format!(in alloc; "{}", NotWhole::LeftOver(7)).expect(&rt, "memory");
    assert!(rt; over.as_str() == "7 bytes after the last whole item");
}

/// In any list a search ends at an item that is the key, or between two of which one is less and
/// one is greater. Where it ends was found by halving by hand.
#[test]
fn any_list_is_searched(rt: HostRuntime) {
    let unsorted = ListView::new(1, b"\x05\x01\x09").expect(&rt, "a list");
    assert!(rt; unsorted.binary_search(b"\x09") == Ok(2));
    assert!(rt; unsorted.binary_search(b"\x01") == Ok(1));
    assert!(rt; unsorted.binary_search(b"\x05") == Err(2));
    assert!(rt; unsorted.binary_search(b"\x00") == Err(0));
    assert!(rt; unsorted.binary_search(b"\x0a") == Err(3));
    let sorted = ListView::new(1, b"\x01\x03\x05").expect(&rt, "a list");
    assert!(rt; sorted.binary_search(b"\x04") == Err(2));
    assert!(rt; sorted.binary_search(b"\x09") == Err(3));
    let repeated = ListView::new(1, b"\x01\x02\x02\x02\x03").expect(&rt, "a list");
    assert!(rt; repeated.binary_search(b"\x02") == Ok(2));
    assert!(rt; repeated.binary_search(b"\x01") == Ok(0));
    assert!(rt; repeated.binary_search(b"\x03") == Ok(4));
    assert!(rt; repeated.binary_search(b"\x00") == Err(0));
    assert!(rt; repeated.binary_search(b"\x04") == Err(5));
}
