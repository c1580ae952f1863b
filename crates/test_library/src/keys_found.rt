//! Keys of 32 bytes looked up in sets on both sides of the counts at which a look-up goes another
//! way: 16 and 2,048.
use commonware_sequence::FixedBytes;
use commonware_utils::TryFromIterator;
use commonware_utils::ordered::{Error, Set};
use std::alloc::Global;

/// The key that begins with a number, the most significant byte first, and then has zeros.
fn key(number: u32) -> FixedBytes<32> {
    let mut bytes = [0; 32];
    for (byte, digit) in bytes.iter_mut().zip(number.to_be_bytes()) {
        *byte = digit;
    }
    FixedBytes::new(bytes)
}

/// Whether, in the set of the keys of the first `count` even numbers, each has its place, and that
/// of no odd number has one.
fn are_found(alloc: Global, count: u32) -> Result<bool, Error> {
    let set = Set::try_from_iter(alloc, (0..count).map(|place| key(place.wrapping_mul(2))))?;
    for place in 0..count {
        let even = place.wrapping_mul(2);
        let found = set.position(&key(even)) == Some(place as usize);
        if !found || set.position(&key(even.wrapping_add(1))).is_some() {
            return Ok(false);
        }
    }
    Ok(set.len() == count as usize)
}

#[test]
fn keys_have_their_places(rt: HostRuntime) {
    for count in [0, 1, 15, 16, 17, 64, 65, 2_047, 2_048, 2_049, 5_000] {
        assert!(rt; are_found(rt.alloc(), count) == Ok(true), "{count}");
    }
}
