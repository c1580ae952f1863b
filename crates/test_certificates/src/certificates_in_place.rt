//! Certificates found in place, beside the reader that allocates, and the walks along their
//! signers.

use committee_certificates::{
    Certificate, CertificateAt, SignersAt, find_certificate, find_signers, write_both,
};
use commonware_base::codec::{Error, RangeCfg, Read, Source, UInt, Write, read_varint};
use std::alloc::{AllocError, Global};
use std::process::Abort;

/// Whether a certificate is found as the reader that allocates reads it: the same parts, the same
/// error, and the same place in the source after it.
fn is_found_as_read(alloc: Global, bytes: &[u8]) -> bool {
    let limits = (RangeCfg::from(..=2), RangeCfg::from(..=3));
    let mut one = Source::new(bytes);
    let mut other = Source::new(bytes);
    let read: Result<Certificate<Global>, Error> = Read::read_cfg(alloc, &mut one, &limits);
    let found = find_certificate(&mut other, limits.0, limits.1);
    let is_alike = match (read, found) {
        (Ok(read), Ok(found)) => has_parts(&read, &found),
        (Err(error), Err(other)) => error == other,
        _ => false,
    };
    is_alike && one.position() == other.position()
}

/// Whether what is found has the parts of a certificate of at most three signers.
fn has_parts(certificate: &Certificate<Global>, found: &CertificateAt<'_>) -> bool {
    let signers = certificate.signers.as_slice();
    let mut room = [9u32; 3];
    found.signers.write_indices(&mut room);
    let Some((indices, after)) = room.split_at_checked(signers.len()) else {
        return false;
    };
    certificate.value.as_slice() == found.value
        && signers.len() == found.signers.count()
        && signers
            .iter()
            .map(|it| it.get())
            .eq(indices.iter().copied())
        && after.iter().all(|it| *it == 9)
}

static BYTES: [u8; 8] = [0, 1, 2, 3, 15, 127, 128, 255];

/// How many inputs of 0 to 5 of these bytes there are.
static COUNTS: [u32; 6] = [1, 8, 64, 512, 4096, 32768];

#[test]
fn certificates_are_found_as_they_are_read(rt: HostRuntime) {
    for length in 0..6usize {
        for number in 0..COUNTS[length] {
            let mut bytes = [0u8; 6];
            let mut left = number;
            for i in 0..length {
                bytes[i] = BYTES[(left % 8) as usize];
                left /= 8;
            }
            let bytes = &bytes[..length];
            assert!(rt; is_found_as_read(rt.alloc(), bytes), "{bytes:?}");
        }
    }
}

/// Returns the signers that an input is, behind a number of one byte.
fn signers(rt: &impl Abort, bytes: &'static [u8]) -> SignersAt<'static> {
    let mut source = Source::new(bytes);
    assert!(rt; read_varint(&mut source) == Ok(110), "prefix");
    find_signers(&mut source, RangeCfg::from(..)).expect(rt, "signers")
}

/// Two lists of signers, each behind a number, those in both, and what a room of three has then.
struct Pair {
    first: &'static [u8],
    second: &'static [u8],
    both: usize,
    room: [u32; 3],
}

static PAIRS: [Pair; 5] = [
    Pair {
        first: b"\x6e\x03\x00\x01\x02",
        second: b"\x6e\x03\x01\x02\x03",
        both: 2,
        room: [1, 2, 9],
    },
    Pair {
        first: b"\x6e\x02\x7f\x80\x01",
        second: b"\x6e\x03\x01\x7f\xff\xff\xff\xff\x0f",
        both: 1,
        room: [127, 9, 9],
    },
    Pair {
        first: b"\x6e\x01\xff\xff\xff\xff\x0f",
        second: b"\x6e\x02\x00\xff\xff\xff\xff\x0f",
        both: 1,
        room: [4294967295, 9, 9],
    },
    Pair {
        first: b"\x6e\x00",
        second: b"\x6e\x03\x01\x02\x03",
        both: 0,
        room: [9, 9, 9],
    },
    Pair {
        first: b"\x6e\x05\x00\x02\x04\x06\x08",
        second: b"\x6e\x05\x00\x01\x02\x04\x08",
        both: 4,
        room: [0, 2, 4],
    },
];

#[test]
fn signers_of_both_are_written(rt: HostRuntime) {
    for pair in &PAIRS {
        let first = signers(&rt, pair.first);
        let second = signers(&rt, pair.second);
        let mut room = [9u32; 3];
        assert!(rt;
            write_both(&first, &second, &mut []) == pair.both,
            "{:?}",
            pair.first
        );
        assert!(rt;
            write_both(&second, &first, &mut room) == pair.both,
            "{:?}",
            pair.first
        );
        assert!(rt; room == pair.room, "{:?}", pair.first);
    }
    let first = signers(&rt, b"\x6e\x03\x00\x01\x02");
    assert!(rt; first.are_members(3) && !first.are_members(2), "members");
}

/// Returns the encoding of a certificate of a value of 70,000 bytes and of 70,000 signers, each
/// `step` from the next.
fn large_certificate(alloc: Global, step: u32) -> Result<Vec<u8>, AllocError> {
    let mut bytes = Vec::new(alloc);
    UInt(70_000).write(&mut bytes)?;
    for i in 0..70_000u32 {
        bytes.push((i % 251) as u8)?;
    }
    UInt(70_000).write(&mut bytes)?;
    for i in 0..70_000u32 {
        UInt(step.wrapping_mul(i)).write(&mut bytes)?;
    }
    Ok(bytes)
}

/// Returns the large certificate that the bytes are.
fn find_large<'a>(rt: &impl Abort, bytes: &'a [u8]) -> CertificateAt<'a> {
    let mut source = Source::new(bytes);
    find_certificate(&mut source, RangeCfg::from(..), RangeCfg::from(..)).expect(rt, "large")
}

#[test]
fn large_certificates_are_found(rt: HostRuntime) {
    let twos = large_certificate(rt.alloc(), 2).expect(&rt, "ample memory");
    let threes = large_certificate(rt.alloc(), 3).expect(&rt, "ample memory");
    let first = find_large(&rt, &twos);
    let second = find_large(&rt, &threes);
    assert!(rt;
        first.value.len() == 70_000 && first.value == second.value,
        "values"
    );
    assert!(rt; first.signers.are_members(139_999), "members");
    assert!(rt; !first.signers.are_members(139_998), "an outsider");
    // Multiples of 6 below 140,000.
    assert!(rt;
        write_both(&first.signers, &second.signers, &mut []) == 23_334,
        "both"
    );
}

#[test]
fn numbers_are_read_one_after_another(rt: HostRuntime) {
    let mut source = Source::new(b"\x07\xac\x02\xff\xff\xff\xff\x0f\x80\x00");
    assert!(rt; read_varint(&mut source) == Ok(7), "one byte");
    assert!(rt; read_varint(&mut source) == Ok(300), "two bytes");
    assert!(rt; read_varint(&mut source) == Ok(4294967295), "five bytes");
    assert!(rt;
        read_varint(&mut source) == Err(Error::InvalidVarint),
        "overlong"
    );
    assert!(rt; source.position() == 8, "the source stays");
}
