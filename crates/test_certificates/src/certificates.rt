//! Certificates that are read, written and cloned, and inputs that are none.
use crate::signers::are;
use committee_certificates::{Certificate, ConflictError};
use commonware_utils::Participant;
use commonware_utils::codec::{EncodeSize, Error, RangeCfg, Read, Source, Write};
use commonware_utils::ordered::Set;
use std::alloc::{AllocError, Global};
use std::process::Abort;

/// An input that begins with a certificate: its value, its signers, and how many bytes follow.
struct Accepted {
    bytes: &'static [u8],
    value: &'static [u8],
    signers: &'static [u32],
    left: usize,
}

static ACCEPTED: [Accepted; 4] = [
    Accepted {
        bytes: b"\x01\xaa\x03\x00\x01\x02\xff",
        value: b"\xaa",
        signers: &[0, 1, 2],
        left: 1,
    },
    Accepted {
        bytes: b"\x00\x00",
        value: b"",
        signers: &[],
        left: 0,
    },
    Accepted {
        bytes: b"\x00\x01\xff\xff\xff\xff\x0f\x00\x00",
        value: b"",
        signers: &[4294967295],
        left: 2,
    },
    Accepted {
        bytes: b"\x20aaaaaaaabbbbbbbbccccccccdddddddd\x02\x80\x01\x81\x01",
        value: b"aaaaaaaabbbbbbbbccccccccdddddddd",
        signers: &[128, 129],
        left: 0,
    },
];

/// Inputs and their first faults.
static REFUSED: [(&[u8], Error); 11] = [
    (b"", Error::EndOfBuffer),
    (b"\x21", Error::InvalidLength(33)),
    (b"\x80\x00", Error::InvalidVarint),
    (b"\x02\xaa", Error::EndOfBuffer),
    (b"\x01\xaa", Error::EndOfBuffer),
    (b"\x01\xaa\x81\x02", Error::InvalidLength(257)),
    (b"\x01\xaa\x02\x01", Error::EndOfBuffer),
    (
        b"\x01\xaa\x02\x01\x01",
        Error::Invalid("Set", "items must be sorted and unique"),
    ),
    (
        b"\x01\xaa\x02\x02\x01",
        Error::Invalid("Set", "items must be sorted and unique"),
    ),
    (b"\x01\xaa\x01\x80\x00", Error::InvalidVarint),
    (b"\x01\xaa\x01\xff\xff\xff\xff\x10", Error::InvalidVarint),
];

/// The certificate that the source begins with, of a value of at most 32 bytes and at most 256
/// signers.
fn read(alloc: Global, src: &mut Source<'_>) -> Result<Certificate<Global>, Error> {
    let limits = (RangeCfg::from(..=32), RangeCfg::from(0..=256));
    Certificate::read_cfg(alloc, src, &limits)
}

/// Whether the certificate is read, and has this value and these signers.
fn is_accepted(alloc: Global, row: &Accepted) -> bool {
    let mut src = Source::new(row.bytes);
    match read(alloc, &mut src) {
        Ok(certificate) => has_parts(&certificate, row) && src.remaining() == row.left,
        Err(_) => false,
    }
}

/// Whether the certificate has the row's value and signers.
fn has_parts(certificate: &Certificate<Global>, row: &Accepted) -> bool {
    certificate.value.as_slice() == row.value && are(&certificate.signers, row.signers)
}

/// Whether the certificate is written as its bytes, and its clone equals it.
fn comes_back(alloc: Global, row: &Accepted) -> bool {
    match read(alloc, &mut Source::new(row.bytes)) {
        Ok(certificate) => is_written(alloc, &certificate, row) && is_cloned(&certificate),
        Err(_) => false,
    }
}

/// Whether the certificate is written as the row's bytes, and tells how many these are.
fn is_written(alloc: Global, certificate: &Certificate<Global>, row: &Accepted) -> bool {
    if !certificate.is_writable() {
        return false;
    }
    let mut sink: Vec<u8, Global> = Vec::new(alloc);
    let written = certificate.write(&mut sink).is_ok();
    written && is_whole(&sink, row) && certificate.encode_size() == sink.len()
}

/// Whether these are the row's bytes, but those that follow the certificate.
fn is_whole(written: &[u8], row: &Accepted) -> bool {
    let left = row.bytes.len().saturating_sub(written.len());
    row.bytes.starts_with(written) && left == row.left
}

/// Whether the certificate's clone equals it.
fn is_cloned(certificate: &Certificate<Global>) -> bool {
    match certificate.clone() {
        Ok(copy) => copy == *certificate,
        Err(_) => false,
    }
}

/// Whether the input is refused for this, and the source stays.
fn is_refused(alloc: Global, bytes: &[u8], wanted: &Error) -> bool {
    let mut src = Source::new(bytes);
    match read(alloc, &mut src) {
        Ok(_) => false,
        Err(error) => error == *wanted && src.position() == 0,
    }
}

#[test]
fn certificates_are_read_and_written(rt: HostRuntime) {
    for row in &ACCEPTED {
        assert!(rt; is_accepted(rt.alloc(), row), "{:?}", row.bytes);
        assert!(rt; comes_back(rt.alloc(), row), "{:?}", row.bytes);
    }
}

#[test]
fn other_inputs_are_refused(rt: HostRuntime) {
    for (bytes, error) in &REFUSED {
        assert!(rt; is_refused(rt.alloc(), bytes, error), "{bytes:?}");
    }
}

/// Where a certificate is truncated, its fault is the end of the input, wherever it is truncated.
#[test]
fn prefixes_are_refused(rt: HostRuntime) {
    for row in &ACCEPTED {
        let length = row.bytes.len().saturating_sub(row.left);
        for end in 0..length {
            let (beginning, _) = row.bytes.split_at(end);
            let refused = is_refused(rt.alloc(), beginning, &Error::EndOfBuffer);
            assert!(rt; refused, "{beginning:?}");
        }
    }
}

/// Whether a certificate has its `Debug` text.
fn is_shown(rt: &impl Abort, alloc: Global) -> bool {
    let value = Vec::from_slice(alloc, &[0xaau8, 0]).expect(rt, "memory");
    let signers = [Participant::new(7), Participant::new(0)];
    let signers = Set::from_iter_dedup(alloc, signers).expect(rt, "memory");
    let certificate = Certificate { value, signers };
    let shown = format!(in alloc; "{certificate:?}").expect(rt, "memory");
    let wanted = "Certificate { value: [170, 0], signers: Set([Participant(0), Participant(7)]) }";
    shown.as_str() == wanted
}

/// Whether the error is shown by these words.
fn says(alloc: Global, error: ConflictError, words: &str) -> Result<bool, AllocError> {
    Ok(format!(in alloc; "{error}")?.as_str() == words)
}

/// Errors, and their words.
static WORDS: [(ConflictError, &str); 3] = [
    (
        ConflictError::Outside,
        "a signer is no member of the committee",
    ),
    (ConflictError::TooFew, "fewer signers than a quorum"),
    (ConflictError::Memory, "out of memory"),
];

#[test]
fn certificates_and_errors_are_shown(rt: HostRuntime) {
    assert!(rt; is_shown(&rt, rt.alloc()));
    for (error, words) in &WORDS {
        assert!(rt; says(rt.alloc(), *error, words) == Ok(true), "{words}");
    }
}
