//! The encoding of certificates of votes, with bytes worked out by hand.
use crate::made::{signers, vote};
use committee_votes::{VoteCertificate, VoteRanges};
use commonware_base::codec::{EncodeSize, Error, RangeCfg, Read, Source, Write};
use std::alloc::{AllocError, Global};
use std::process::Abort;

/// The ranges of votes whose fields have up to 4 bytes.
fn ranges() -> (VoteRanges, RangeCfg<usize>) {
    let range = RangeCfg::from(0..=4usize);
    let vote = VoteRanges {
        domain: range,
        slot: range,
        decision: range,
    };
    (vote, range)
}

/// Whether a certificate is written as these bytes, and read back.
fn is_written(alloc: Global) -> Result<bool, AllocError> {
    let certificate = VoteCertificate {
        vote: vote(alloc, (b"\x01", b"\x07", b"\xaa"))?,
        signers: signers(alloc, &[0, 1, 2])?,
    };
    if !certificate.is_writable() {
        return Ok(false);
    }
    let mut sink = Vec::new(alloc);
    certificate.write(&mut sink)?;
    let mut source = Source::new(sink.as_slice());
    let read = VoteCertificate::read_cfg(alloc, &mut source, &ranges());
    Ok(
        sink.as_slice() == b"\x01\x01\x01\x07\x01\xaa\x03\x00\x01\x02".as_slice()
            && certificate.encode_size() == 10
            && source.remaining() == 0
            && matches!(read, Ok(same) if same == certificate),
    )
}

#[test]
fn a_certificate_is_written_and_read(rt: HostRuntime) {
    assert!(rt; is_written(rt.alloc()) == Ok(true));
}

/// Returns the first fault of an input.
fn fault_of(alloc: Global, input: &[u8]) -> Option<Error> {
    let mut source = Source::new(input);
    VoteCertificate::<Global>::read_cfg(alloc, &mut source, &ranges()).err()
}

#[test]
fn the_first_fault_is_named(rt: HostRuntime) {
    let rows: [(&[u8], Error); 7] = [
        (b"", Error::EndOfBuffer),
        (b"\x05", Error::InvalidLength(5)),
        (b"\x01\x01\x05\x80\x00", Error::InvalidLength(5)),
        (b"\x01\x01\x80\x00", Error::InvalidVarint),
        (b"\x01\x01\x01\x07\x05", Error::InvalidLength(5)),
        (b"\x01\x01\x01\x07\x00\x05", Error::InvalidLength(5)),
        (b"\x01\x01\x01\x07\x00\x02\x00", Error::EndOfBuffer),
    ];
    for (input, wanted) in &rows {
        let found = fault_of(rt.alloc(), input);
        assert!(rt;
            matches!(&found, Some(error) if error == wanted),
            "{input:?}"
        );
    }
}
