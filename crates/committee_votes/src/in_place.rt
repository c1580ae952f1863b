//! Certificates of votes decoded in place: nothing is allocated, and what is found is borrowed.
ghost use Rattle.std.specs.Prelude.{◌≡◌, ℕ, List, IfErr, IfOk, OnErr};
ghost use Rattle.commonware_base.specs.Refusal.{Refuses};
ghost use Rattle.commonware_base.specs.Source.{rest_of, Consumes};
ghost use Rattle.commonware_base.specs.Text.{Accepts};
ghost use Rattle.committee_certificates.specs.InPlace.{AreSignersAt};
ghost use Rattle.committee_votes.specs.Encodings.{AreWritableBytes, BytesFault, HasAllowedLength};
ghost use Rattle.committee_votes.specs.Encodings.{IsAllowedVote, IsAllowedVoteCertificate};
ghost use Rattle.committee_votes.specs.Encodings.{IsWritableVote, IsWritableVoteCertificate};
ghost use Rattle.committee_votes.specs.Encodings.{VoteCertificateFault, VoteFault, bytes_enc};
ghost use Rattle.committee_votes.specs.Encodings.{fields_at, vote_certificate_enc, vote_enc};

use crate::votes::{VoteAt, VoteRanges};
use committee_certificates::{SignersAt, find_signers};
use commonware_base::codec::{Error, RangeCfg, Source, read_varint};

/// A certificate of a vote that was found in an input: the fields of its vote are borrowed, and its
/// signers stay where they are.
///
/// Of `01 01 01 07 01 aa 03 00 01 02` the domain is the second byte, the slot the fourth and the
/// decision the sixth, and the signers are 0, 1 and 2.
#[derive(Clone, Copy, Debug)]
pub struct VoteCertificateAt<'a> {
    /// What was signed.
    pub vote: VoteAt<'a>,
    /// Those that signed.
    pub signers: SignersAt<'a>,
}

/// Finds the certificate of a vote that comes next in a source, as `VoteCertificate::read_cfg`
/// decodes it under these ranges: it accepts the same inputs, and returns the same errors but
/// `Memory`, since nothing is allocated. After an error the source is where it was.
pub fn find_vote_certificate<'a>(
    src: &mut Source<'a>,
    ranges: VoteRanges,
    signers_range: RangeCfg<usize>,
) -> Result<VoteCertificateAt<'a>, Error>
    ensures accepted { IfOk result (λ found. (indices : List ℕ)
        × Accepts vote_certificate_enc IsWritableVoteCertificate
        (IsAllowedVoteCertificate ranges.domain ranges.slot ranges.decision signers_range)
        (rest_of src.old) (fields_at found.vote, indices) (rest_of src.new)
        × Consumes src.old src.new (vote_certificate_enc (fields_at found.vote, indices))
        × AreSignersAt found.signers indices) }
    ensures refused { IfErr result (Refuses (VoteCertificateFault
        ranges.domain ranges.slot ranges.decision signers_range (rest_of src.old)) (Unit {0})) }
    ensures stays { OnErr result (src.new ≡ src.old) }
{
    let mut here = *src;
    let vote = find_vote(&mut here, ranges)?;
    let signers = find_signers(&mut here, signers_range)?;
    *src = here;
    Ok(VoteCertificateAt { vote, signers })
}

/// Finds the vote that comes next in a source, as `Vote::read_cfg` decodes it under these ranges.
/// Nothing is allocated. After an error the source is where it was.
///
/// Of `01 01 01 07 01 aa` the domain is `01`, the slot `07` and the decision `aa`.
pub fn find_vote<'a>(src: &mut Source<'a>, ranges: VoteRanges) -> Result<VoteAt<'a>, Error>
    ensures accepted { IfOk result (λ found. Accepts vote_enc IsWritableVote
        (IsAllowedVote ranges.domain ranges.slot ranges.decision)
        (rest_of src.old) (fields_at found) (rest_of src.new)
        × Consumes src.old src.new (vote_enc (fields_at found))) }
    ensures refused { IfErr result (Refuses
        (VoteFault ranges.domain ranges.slot ranges.decision (rest_of src.old)) (Unit {0})) }
    ensures stays { OnErr result (src.new ≡ src.old) }
{
    let mut here = *src;
    let domain = find_bytes(&mut here, ranges.domain)?;
    let slot = find_bytes(&mut here, ranges.slot)?;
    let decision = find_bytes(&mut here, ranges.decision)?;
    *src = here;
    Ok(VoteAt {
        domain,
        slot,
        decision,
    })
}

/// Finds the list of bytes that comes next in a source, of a length in the range.
fn find_bytes<'a>(src: &mut Source<'a>, range: RangeCfg<usize>) -> Result<&'a [u8], Error>
    ensures accepted { IfOk result (λ found.
        Accepts bytes_enc AreWritableBytes (HasAllowedLength range)
        (rest_of src.old) found.now (rest_of src.new)
        × Consumes src.old src.new (bytes_enc found.now)) }
    ensures refused { IfErr result (Refuses (BytesFault range (rest_of src.old)) (Unit {0})) }
    ensures stays { OnErr result (src.new ≡ src.old) }
{
    let mut here = *src;
    let length = read_varint(&mut here)?;
    let length = length as usize;
    if !range.contains(&length) {
        return Err(Error::InvalidLength(length));
    }
    if here.remaining() < length {
        return Err(Error::EndOfBuffer);
    }
    let bytes = &here.rest()[..length];
    here.advance(length);
    *src = here;
    Ok(bytes)
}
