//! How many comparisons a call makes, by a counter that counts while the program runs: as many as
//! the way in which the list is divided says, worked out apart, and never more than its clause.
use commonware_sequence::FixedBytes;
use commonware_utils::TryFromIterator;
use commonware_utils::codec::{Error, RangeCfg, Source};
use commonware_utils::ordered::{
    BiMap, Counter, Map, Quorum, Set, read_map_counted, read_set_counted,
};
use commonware_utils::views::{ListView, MapView, SetView};
use std::alloc::{AllocError, Global};

/// Counts while the program runs, and for no proof.
#[derive(Drop)]
struct Tally {
    made: u64,
}

impl Counter for Tally {
    ghost counted = { λ _. 0 };

    ghost step = { 0 };

    fn tick(&mut self) {
        self.made = self.made.wrapping_add(1);
    }
}

/// No comparison.
fn none() -> Tally {
    Tally { made: 0 }
}

/// The odd number at a place.
fn odd(place: u32) -> u32 {
    place.wrapping_mul(2).wrapping_add(1)
}

/// The key that begins with a number, the most significant byte first, and then has zeros.
fn key(number: u32) -> FixedBytes<32> {
    let mut bytes = [0; 32];
    for (byte, digit) in bytes.iter_mut().zip(number.to_be_bytes()) {
        *byte = digit;
    }
    FixedBytes::new(bytes)
}

/// Whether each look-up in the set of the first odd numbers makes so many comparisons: of each of
/// them, and of each number beside them.
fn are_found(alloc: Global, count: u32, made: u64) -> Result<bool, AllocError> {
    let set = Set::from_iter_dedup(alloc, (0..count).map(odd))?;
    for place in 0..count {
        let mut found = none();
        let mut missed = none();
        let at = set.position_counted(&odd(place), &mut found);
        let beside = set.position_counted(&odd(place).wrapping_sub(1), &mut missed);
        if at != Some(place as usize) || beside.is_some() {
            return Ok(false);
        }
        if found.made != made || missed.made != made {
            return Ok(false);
        }
    }
    let mut past = none();
    Ok(set.position_counted(&u32::MAX, &mut past).is_none() && past.made == made)
}

#[test]
fn a_look_up_compares_as_often_as_the_list_is_divided(rt: HostRuntime) {
    // Of n items, with k binary digits, never more than 1 + 3k/2, and 127 items reach it.
    for (count, made) in [
        (0, 0),
        (1, 1),
        (2, 2),
        (3, 3),
        (15, 5),
        (16, 5),
        (17, 7),
        (63, 10),
        (64, 8),
        (127, 11),
        (128, 10),
        (1_000, 14),
        (1_023, 16),
        (4_097, 19),
        (70_000, 25),
    ] {
        assert!(rt; are_found(rt.alloc(), count, made) == Ok(true), "{count}");
    }
}

/// Whether each look-up among the keys of `count` even numbers makes so many comparisons.
fn are_compared(alloc: Global, count: u32, made: u64) -> Result<bool, AllocError> {
    let set = Set::from_iter_dedup(alloc, (0..count).map(|place| key(place.wrapping_mul(2))))?;
    for number in [0, 1, 98, 4_095, 140_001] {
        let mut tally = none();
        let _ = set.position_counted(&key(number), &mut tally);
        if tally.made != made {
            return Ok(false);
        }
    }
    Ok(true)
}

#[test]
fn keys_are_quartered_to_two_thousand_and_then_halved(rt: HostRuntime) {
    for (count, made) in [(1, 1), (100, 10), (2_048, 16), (2_049, 13), (70_000, 18)] {
        assert!(rt;
            are_compared(rt.alloc(), count, made) == Ok(true),
            "{count}"
        );
    }
}

#[test]
fn each_collection_counts_the_look_up_of_a_key(rt: HostRuntime) {
    let alloc = rt.alloc();
    let pairs = [(1u32, 10u8), (3, 30), (5, 50)];
    let set = Set::from_iter_dedup(alloc, [1u32, 3, 5]).expect(&rt, "a set");
    let map = Map::try_from_array(alloc, pairs).expect(&rt, "a map");
    let bimap = BiMap::try_from_array(alloc, pairs).expect(&rt, "a bimap");
    // Of three items two are compared, and then the one that is left.
    let mut count = none();
    assert!(rt; set.contains_counted(&3, &mut count) && count.made == 3);
    assert!(rt; !set.contains_counted(&4, &mut count) && count.made == 6);
    // It requires that all indices fit a `u32`.
    assert!(rt; set.len() == 3);
    let index = set.index_counted(&5, &mut count);
    assert!(rt; index.map(usize::from) == Some(2) && count.made == 9);
    assert!(rt; map.position_counted(&1, &mut count) == Some(0) && count.made == 12);
    assert!(rt; map.get_value_counted(&3, &mut count) == Some(&30) && count.made == 15);
    assert!(rt; map.get_value_counted(&2, &mut count).is_none() && count.made == 18);
    assert!(rt; bimap.position_counted(&5, &mut count) == Some(2) && count.made == 21);
    assert!(rt; bimap.get_value_counted(&5, &mut count) == Some(&50) && count.made == 24);
}

/// The encoding of a set of `count` numbers of four bytes, where that at `fault` is the one before
/// it once more.
fn numbers(alloc: Global, count: u32, fault: u32) -> Result<Vec<u8>, AllocError> {
    let mut bytes = Vec::new(alloc);
    put_varint(&mut bytes, count)?;
    for place in 0..count {
        let number = if place == fault {
            place.wrapping_sub(1)
        } else {
            place
        };
        bytes.extend_from_slice(&number.to_be_bytes())?;
    }
    Ok(bytes)
}

/// Appends a number as a varint.
fn put_varint(bytes: &mut Vec<u8>, number: u32) -> Result<(), AllocError> {
    let mut left = number;
    for _ in 0..4 {
        if left < 128 {
            break;
        }
        bytes.push((left % 128) as u8 | 128)?;
        left /= 128;
    }
    bytes.push((left % 128) as u8)?;
    Ok(())
}

/// Whether an input was decoded, and how many comparisons that took.
fn made_by_a_decoder(alloc: Global, bytes: &[u8]) -> Result<(bool, u64), Error> {
    let mut count = none();
    let mut source = Source::new(bytes);
    let range = RangeCfg::from(..);
    match read_set_counted::<u32, _, _>(alloc, &mut source, range, &(), &mut count) {
        Ok(_) => Ok((true, count.made)),
        Err(Error::Invalid(_, _)) | Err(Error::InvalidLength(_)) | Err(Error::EndOfBuffer) => {
            Ok((false, count.made))
        }
        Err(error) => Err(error),
    }
}

#[test]
fn a_decoder_compares_each_item_with_the_next_up_to_the_first_fault(rt: HostRuntime) {
    let alloc = rt.alloc();
    // The last two numbers are past every item of a list that is whole.
    for (count, fault, whole, made) in [
        (0, 9, true, 0),
        (1, 9, true, 0),
        (2, 9, true, 1),
        (1_025, 9_999, true, 1_024),
        (70_000, 99_999, true, 69_999),
        (1_025, 1, false, 1),
        (1_025, 1_024, false, 1_024),
        (70_000, 4_097, false, 4_097),
    ] {
        let bytes = numbers(alloc, count, fault).expect(&rt, "memory");
        let result = made_by_a_decoder(alloc, &bytes).expect(&rt, "memory");
        assert!(rt; result == (whole, made), "{count} {fault}");
    }
    // An input that ends before its last item is refused before anything is compared.
    let bytes = numbers(alloc, 70_000, 1).expect(&rt, "memory");
    let (_, front) = bytes.split_last().expect(&rt, "bytes");
    let short = made_by_a_decoder(alloc, front).expect(&rt, "memory");
    assert!(rt; short == (false, 0));
    let (mut count, mut source) = (none(), Source::new(b"\x02\x01\x02\x02\x0a\x0b"));
    let any = RangeCfg::from(..);
    let map = read_map_counted::<u8, u8, _, _>(alloc, &mut source, any, &(), &(), &mut count);
    assert!(rt; map.is_ok() && count.made == 1);
}

/// Whether in the view of `count` keys of `size` bytes each look-up makes at most `most`
/// comparisons, and one of them as many.
fn are_halved(bytes: &[u8], size: usize, count: u32, most: u64) -> bool {
    let Ok(list) = ListView::new(size, bytes) else {
        return false;
    };
    let mut greatest = 0;
    for place in 0..count {
        let Some(key) = list.get(place as usize) else {
            return false;
        };
        let mut count = none();
        if list.binary_search_counted(key, &mut count) != Ok(place as usize) {
            return false;
        }
        greatest = greatest.max(count.made);
    }
    greatest == most
}

#[test]
fn a_view_compares_once_where_the_list_is_halved(rt: HostRuntime) {
    let alloc = rt.alloc();
    for (count, most) in [
        (1, 1),
        (2, 2),
        (3, 2),
        (4, 3),
        (1_023, 10),
        (1_024, 11),
        (70_000, 17),
    ] {
        let mut bytes = Vec::new(alloc);
        for place in 0..count {
            bytes
                .extend_from_slice(&odd(place).to_be_bytes())
                .expect(&rt, "memory");
        }
        assert!(rt; are_halved(&bytes, 4, count, most), "{count}");
    }
    let mut count = none();
    let list = ListView::new(4, b"").expect(&rt, "no items");
    assert!(rt; list.binary_search_counted(b"\0\0\0\0", &mut count) == Err(0) && count.made == 0);
}

#[test]
fn a_view_compares_each_key_with_the_next(rt: HostRuntime) {
    let alloc = rt.alloc();
    let any = RangeCfg::from(..);
    // Keys of fewer than eight bytes: the first two are compared once more.
    for (count, fault, whole, made) in [
        (0, 9, true, 0),
        (1, 9, true, 0),
        (2, 9, true, 2),
        (70_000, 99_999, true, 70_000),
        (70_000, 4_097, false, 4_098),
    ] {
        let bytes = numbers(alloc, count, fault).expect(&rt, "memory");
        let mut tally = none();
        let read = SetView::read_counted(&mut Source::new(&bytes), 4, any, &mut tally);
        assert!(rt;
            read.is_ok() == whole && tally.made == made,
            "{count} {fault}"
        );
    }
    // Keys that differ in their first eight bytes.
    let mut bytes = Vec::new(alloc);
    put_varint(&mut bytes, 2_000).expect(&rt, "memory");
    for place in 0..2_000 {
        bytes
            .extend_from_slice(key(place).as_bytes())
            .expect(&rt, "memory");
    }
    let mut tally = none();
    let set = SetView::read_counted(&mut Source::new(&bytes), 32, any, &mut tally);
    let set = set.expect(&rt, "a set");
    assert!(rt; tally.made == 1_999);
    let at = set.position_counted(key(1_999).as_bytes(), &mut tally);
    assert!(rt; at == Some(1_999) && tally.made <= 1_999 + 11);
    let mut tally = none();
    let pairs = b"\x02\x01\x02\x02\x0a\x0b";
    let map = MapView::read_counted(&mut Source::new(pairs), 1, 1, any, &mut tally);
    let map = map.expect(&rt, "a map");
    assert!(rt; tally.made == 2);
    assert!(rt; map.get_value_counted(b"\x02", &mut tally) == Some(b"\x0b".as_slice()));
    assert!(rt; tally.made == 3 && map.position_counted(b"\x01", &mut tally) == Some(0));
    assert!(rt; tally.made == 5);
}
