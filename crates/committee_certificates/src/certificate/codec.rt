//! The encoding of a certificate: its value as a list of bytes, and then its signers as a set.
ghost use Rattle.std.specs.Prelude.{◌≡◌, ◌≤◌, ℕ, List, IfErr, IfOk, OnErr, length};
ghost use Rattle.commonware_base.specs.Fault.{Fault};
ghost use Rattle.commonware_base.specs.Range.{Within};
ghost use Rattle.commonware_base.specs.Refusal.{Refuses};
ghost use Rattle.commonware_base.specs.Sequence.{sequence_case};
ghost use Rattle.commonware_base.specs.Source.{rest_of, Consumes};
ghost use Rattle.commonware_base.specs.Text.{Accepts};
ghost use Rattle.commonware_base.specs.laws.TextLaws.{canonical_on, laws_on, prefix_free_on};
ghost use Rattle.commonware_ordered.specs.Costs.{IsOrderCost, IsWholeOrderCost};
ghost use Rattle.committee_certificates.specs.Certificates.{are_equal_parts, certificate_enc, parts};
ghost use Rattle.committee_certificates.specs.Certificates.{CertificateFault, IsAllowedCertificate};
ghost use Rattle.committee_certificates.specs.Certificates.{IsCertificateMemoryFree, IsWritableCertificate};
ghost use Rattle.committee_certificates.specs.ReadCosts.{IsCertificateReadCost, StatesSigners};
ghost use Rattle.committee_certificates.specs.laws.CertificateLaws.{certificate_bytes, certificate_laws};
ghost use Rattle.committee_certificates.specs.laws.CertificateLaws.{certificate_canonical, certificate_of};
ghost use Rattle.committee_certificates.specs.laws.CertificateLaws.{certificate_prefix_free};

use super::Certificate;
use commonware_base::Participant;
use commonware_base::codec::{
    Canonical, EncodeSize, Error, RangeCfg, Read, Source, Write, read_list,
};
use commonware_ordered::{Counter, Uncounted, read_set_counted};
use std::alloc::{AllocError, Allocator};

impl<A: Allocator> EncodeSize for Certificate<A> {
    ghost enc = { λ c. certificate_enc (parts c) };

    ghost writable = { λ c. IsWritableCertificate (parts c) };

    ghost prefix_free = { prefix_free_on parts certificate_enc IsWritableCertificate
        certificate_prefix_free };

    ghost text_of_bytes = { λ c w. certificate_bytes (parts c) w };

    fn encode_size(&self) -> usize {
        self.value.encode_size() + self.signers.encode_size()
    }

    fn is_writable(&self) -> bool {
        self.value.is_writable() && self.signers.is_writable()
    }
}

impl<A: Allocator> Write<A> for Certificate<A> {
    fn write(&self, sink: &mut Vec<u8, A>) -> Result<(), AllocError> {
        let start = sink.len();
        self.value.write(sink)?;
        match self.signers.write(sink) {
            Ok(()) => Ok(()),
            Err(error) => {
                sink.truncate(start);
                Err(error)
            }
        }
    }
}

impl<A: Allocator + Copy> Read<A> for Certificate<A> {
    type Cfg = (RangeCfg<usize>, RangeCfg<usize>);

    ghost allowed = { λ c v. IsAllowedCertificate c.0 c.1 (parts v) };

    ghost fault = { λ c. CertificateFault c.0 c.1 };

    ghost memory_free = { λ c. IsCertificateMemoryFree c.0 c.1 };

    ghost read_laws = { λ alloc c. laws_on parts certificate_enc IsWritableCertificate
        (IsAllowedCertificate c.0 c.1) (CertificateFault c.0 c.1)
        (λ x w _. certificate_of alloc x w) (certificate_laws c.0 c.1) };

    /// Decodes the value as a list of bytes under the first range, and then the signers as a set
    /// under the second.
    fn read_cfg(alloc: A, src: &mut Source<'_>, cfg: &Self::Cfg) -> Result<Certificate<A>, Error> {
        read_certificate_counted(alloc, src, cfg.0, cfg.1, &mut Uncounted)
    }
}

/// Decodes a certificate under a range for the length of its value and one for the number of its
/// signers, as `Certificate::read_cfg` does, and counts the comparisons of two signers: whatever
/// the input, none, or fewer than the signers that it states and than the most that the range
/// allows; and none after the first that isn't less than the next. In a certificate that it returns
/// each signer was compared with the next, and counted.
pub fn read_certificate_counted<A: Allocator + Copy, C: Counter>(
    alloc: A,
    src: &mut Source<'_>,
    value_range: RangeCfg<usize>,
    signers_range: RangeCfg<usize>,
    count: &mut C,
) -> Result<Certificate<A>, Error>
    ensures accepted { IfOk result (λ c. Accepts certificate_enc IsWritableCertificate
        (IsAllowedCertificate value_range signers_range)
        (rest_of src.old) (parts c) (rest_of src.new)) }
    ensures consumed { IfOk result (λ c. Consumes src.old src.new (certificate_enc (parts c))) }
    ensures refused { IfErr result
        (Refuses (CertificateFault value_range signers_range (rest_of src.old))
        (IsCertificateMemoryFree value_range signers_range (rest_of src.old))) }
    ensures stays { OnErr result (src.new ≡ src.old) }
    ensures cost { (most : ℕ) → ((n : ℕ) → Within signers_range n → n ≤ most)
        → IsOrderCost most (C.counted count.old) (C.counted count.new) }
    ensures cost_ok { IfOk result (λ c.
        IsOrderCost (length c.signers) (C.counted count.old) (C.counted count.new)) }
    ensures stops { IsCertificateReadCost (rest_of src.old)
        (C.counted count.old) (C.counted count.new) }
    ensures stated { (n : ℕ) → StatesSigners (rest_of src.old) n
        → IsOrderCost n (C.counted count.old) (C.counted count.new) }
    ensures least { IfOk result (λ c. IsWholeOrderCost C.step (length c.signers)
        (C.counted count.old) (C.counted count.new)) }
{
    let mut here = *src;
    let value = read_list::<u8, A>(alloc, &mut here, value_range, &())?;
    let signers = read_set_counted::<Participant, A, C>(
        alloc,
        &mut here,
        signers_range,
        &(),
        count,
    )?;
    *src = here;
    Ok(Certificate { value, signers })
}

impl<A: Allocator> Canonical for Certificate<A> {
    ghost canonical = { canonical_on parts certificate_enc IsWritableCertificate are_equal_parts
        certificate_canonical };
}

/// The error cases in which an input is no certificate exclude one another: no input has a fault of
/// the value and one of the signers.
pub fn certificate_fault_law(value: RangeCfg<usize>, signers: RangeCfg<usize>)
    ensures { (s : List ℕ) (f g : Fault)
        (v : CertificateFault value signers s f) (w : CertificateFault value signers s g)
        → sequence_case v ≡ sequence_case w }
{
    // They are named so that no parameter is unused: only the contract speaks of them.
    let _ = (value, signers);
}
