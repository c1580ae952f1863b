//! Certificates of votes found in place, beside the reader that allocates.
use committee_votes::{VoteCertificate, VoteCertificateAt, VoteRanges, find_vote_certificate};
use commonware_base::codec::{Error, RangeCfg, Read, Source};
use std::alloc::Global;
use std::process::Abort;

/// Ranges in which each field has a limit of its own.
fn limits() -> (VoteRanges, RangeCfg<usize>) {
    let ranges = VoteRanges {
        domain: RangeCfg::from(..=1),
        slot: RangeCfg::from(..=2),
        decision: RangeCfg::from(1..),
    };
    (ranges, RangeCfg::from(..=2))
}

/// Finds a certificate within the limits.
fn find_within<'a>(source: &mut Source<'a>) -> Result<VoteCertificateAt<'a>, Error> {
    let limits = limits();
    find_vote_certificate(source, limits.0, limits.1)
}

/// Whether a certificate is found as the reader that allocates reads it: the same parts, the same
/// error, and the same place in the source after it.
fn is_found_as_read(alloc: Global, bytes: &[u8]) -> bool {
    let mut one = Source::new(bytes);
    let mut other = Source::new(bytes);
    let read: Result<VoteCertificate<Global>, Error> = Read::read_cfg(alloc, &mut one, &limits());
    let found = find_within(&mut other);
    let is_alike = match (read, found) {
        (Ok(read), Ok(found)) => has_parts(&read, &found),
        (Err(error), Err(other)) => error == other,
        _ => false,
    };
    is_alike && one.position() == other.position()
}

/// Whether what is found has the parts of a certificate of at most two signers.
fn has_parts(certificate: &VoteCertificate<Global>, found: &VoteCertificateAt<'_>) -> bool {
    let signers = certificate.signers.as_slice();
    let mut room = [9u32; 2];
    found.signers.write_indices(&mut room);
    let Some((indices, after)) = room.split_at_checked(signers.len()) else {
        return false;
    };
    certificate.vote.domain.as_slice() == found.vote.domain
        && certificate.vote.slot.as_slice() == found.vote.slot
        && certificate.vote.decision.as_slice() == found.vote.decision
        && signers.len() == found.signers.count()
        && signers
            .iter()
            .map(|it| it.get())
            .eq(indices.iter().copied())
        && after.iter().all(|it| *it == 9)
}

static BYTES: [u8; 6] = [0, 1, 2, 3, 128, 255];

/// How many inputs of 0 to 7 of these bytes there are.
static COUNTS: [u32; 8] = [1, 6, 36, 216, 1296, 7776, 46656, 279936];

#[test]
fn certificates_of_votes_are_found_as_they_are_read(rt: HostRuntime) {
    for length in 0..8usize {
        for number in 0..COUNTS[length] {
            let mut bytes = [0u8; 8];
            let mut left = number;
            for i in 0..length {
                bytes[i] = BYTES[(left % 6) as usize];
                left /= 6;
            }
            let bytes = &bytes[..length];
            assert!(rt; is_found_as_read(rt.alloc(), bytes), "{bytes:?}");
        }
    }
}

/// Returns where a certificate with a long domain, slot and decision ends behind a prefix, and how
/// long its parts are.
fn long_parts(bytes: &[u8]) -> Option<(usize, usize, usize, usize, usize)> {
    let any = RangeCfg::from(..);
    let ranges = VoteRanges {
        domain: any,
        slot: any,
        decision: any,
    };
    let mut source = Source::new(bytes);
    if source.remaining() < 3 {
        return None;
    }
    source.advance(3);
    let found = find_vote_certificate(&mut source, ranges, any).ok()?;
    let vote = found.vote;
    Some((
        source.position(),
        vote.domain.len(),
        vote.slot.len(),
        vote.decision.len(),
        found.signers.count(),
    ))
}

#[test]
fn long_fields_are_found_behind_a_prefix(rt: HostRuntime) {
    // Three bytes; 127, 128 and 300 bytes behind lengths of 1, 2 and 2; two signers; two bytes.
    let mut bytes = [7u8; 568];
    bytes[3] = 127;
    bytes[131] = 128;
    bytes[132] = 1;
    bytes[261] = 172;
    bytes[262] = 2;
    bytes[563] = 2;
    bytes[564] = 3;
    bytes[565] = 4;
    assert!(rt; long_parts(&bytes) == Some((566, 127, 128, 300, 2)));
}
