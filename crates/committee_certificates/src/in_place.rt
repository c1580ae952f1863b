//! Certificates decoded in place: nothing is allocated, and what is found is borrowed.
ghost use Rattle.std.specs.Prelude.{◌≡◌, ◌≤◌, ◌<◌, ◌^◌, ◌↔◌, ℕ, List, IfErr, IfOk, IsFalse, IsTrue, OnErr, length};
ghost use Rattle.std.specs.Ordering.{nat_cmp};
ghost use Rattle.commonware_base.specs.Lists.{list_enc};
ghost use Rattle.commonware_base.specs.Refusal.{Refuses};
ghost use Rattle.commonware_base.specs.Source.{rest_of, Consumes};
ghost use Rattle.commonware_base.specs.Text.{Accepts};
ghost use Rattle.commonware_base.specs.Varint.{varint};
ghost use Rattle.commonware_base.specs.Words.{IsWord};
ghost use Rattle.commonware_ordered.specs.Sets.{IsWritableSet};
ghost use Rattle.committee_certificates.specs.Certificates.{AreAllowedSigners, IsAllowedCertificate};
ghost use Rattle.committee_certificates.specs.Certificates.{CertificateFault, SignersFault};
ghost use Rattle.committee_certificates.specs.Certificates.{IsWritableCertificate, certificate_enc};
ghost use Rattle.committee_certificates.specs.InPlace.{AreSignersAt};
ghost use Rattle.committee_certificates.specs.Signers.{AreMembers, HasOutsider};

use commonware_base::codec::{Error, RangeCfg, Source, read_varint};

/// The signers of a certificate, which stay where the input has them.
///
/// Of `01 aa 03 00 01 02` it is the last three bytes, with 3 signers, who are members of every
/// committee of 3 members or more.
#[derive(Clone, Copy, Debug)]
pub struct SignersAt<'a> {
    /// Where the first index begins.
    pub(crate) start: Source<'a>,
    /// How many there are.
    pub(crate) count: u32,
    /// The number after the greatest index, or 0 where there is no signer.
    pub(crate) past: u64,
}

/// A certificate that was found in an input: its value is borrowed, and its signers stay where they
/// are.
///
/// Of `01 aa 03 00 01 02` the value is the second byte, and the signers are 0, 1 and 2.
#[derive(Clone, Copy, Debug)]
pub struct CertificateAt<'a> {
    /// The bytes that were signed.
    pub value: &'a [u8],
    /// Those that signed.
    pub signers: SignersAt<'a>,
}

impl SignersAt<'_> {
    /// Returns how many signers there are.
    pub fn count(&self) -> usize
        ensures count { (indices : List ℕ) → AreSignersAt self.now indices
            → result ≡ length indices }
        ensures short { result < 2 ^ 32 }
    {
        self.count as usize
    }

    /// Whether every signer is a member of a committee of `members` members.
    pub fn are_members(&self, members: usize) -> bool
        ensures is_true { IsTrue result → (indices : List ℕ) → AreSignersAt self.now indices
            → AreMembers members indices }
        ensures is_false { IsFalse result → (indices : List ℕ) → AreSignersAt self.now indices
            → HasOutsider members indices }
    {
        self.past <= members as u64
    }
}

/// Finds the certificate that comes next in a source, as `Certificate::read_cfg` decodes it under
/// these ranges: it accepts the same inputs, and returns the same errors but `Memory`, since
/// nothing is allocated. After an error the source is where it was.
pub fn find_certificate<'a>(
    src: &mut Source<'a>,
    value_range: RangeCfg<usize>,
    signers_range: RangeCfg<usize>,
) -> Result<CertificateAt<'a>, Error>
    ensures accepted { IfOk result (λ found. (indices : List ℕ)
        × Accepts certificate_enc IsWritableCertificate
        (IsAllowedCertificate value_range signers_range)
        (rest_of src.old) (found.value.now, indices) (rest_of src.new)
        × Consumes src.old src.new (certificate_enc (found.value.now, indices))
        × AreSignersAt found.signers indices) }
    ensures refused { IfErr result
        (Refuses (CertificateFault value_range signers_range (rest_of src.old)) (Unit {0})) }
    ensures stays { OnErr result (src.new ≡ src.old) }
{
    let mut here = *src;
    let length = read_varint(&mut here)?;
    let length = length as usize;
    if !value_range.contains(&length) {
        return Err(Error::InvalidLength(length));
    }
    if here.remaining() < length {
        return Err(Error::EndOfBuffer);
    }
    let value = &here.rest()[..length];
    here.advance(length);
    let signers = find_signers(&mut here, signers_range)?;
    *src = here;
    Ok(CertificateAt { value, signers })
}

/// Finds the signers that come next in a source, as a set of participants is decoded under this
/// range. Nothing is allocated. After an error the source is where it was.
pub fn find_signers<'a>(
    src: &mut Source<'a>,
    range: RangeCfg<usize>,
) -> Result<SignersAt<'a>, Error>
    ensures accepted { IfOk result (λ found. (indices : List ℕ)
        × Accepts (list_enc varint) (IsWritableSet IsWord nat_cmp) (AreAllowedSigners range)
        (rest_of src.old) indices (rest_of src.new)
        × Consumes src.old src.new (list_enc varint indices)
        × AreSignersAt found indices) }
    ensures refused { IfErr result (Refuses (SignersFault range (rest_of src.old)) (Unit {0})) }
    ensures stays { OnErr result (src.new ≡ src.old) }
{
    let mut here = *src;
    let count = read_varint(&mut here)?;
    if !range.contains(&(count as usize)) {
        return Err(Error::InvalidLength(count as usize));
    }
    let start = here;
    let mut past = 0;
    let mut rising = true;
    for _ in 0..count {
        let index = read_varint(&mut here)?;
        rising = is_still_rising(rising, past, index);
        past = u64::from(index) + 1;
    }
    if !rising {
        return Err(Error::Invalid("Set", "items must be sorted and unique"));
    }
    *src = here;
    Ok(SignersAt { start, count, past })
}

/// Whether the indices rise with another one, which has to be at least `past`.
#[inline(always)]
fn is_still_rising(rising: bool, past: u64, index: u32) -> bool
    ensures { IsTrue result ↔ (IsTrue rising × (past ≤ index)) }
{
    rising && past <= u64::from(index)
}
