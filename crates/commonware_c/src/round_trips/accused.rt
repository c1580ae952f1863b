//! Who is named by two certificates that were written: those that signed both, and no one else.
ghost use Rattle.std.specs.Prelude.{◌≡◌, ◌≤◌, ℕ, Bool, List, IfSome, IsTrue, length, take};
ghost use Rattle.committee_certificates.specs.Accountability.{EachHasEquivocated, EachSigned, InLog};
ghost use Rattle.committee_certificates.specs.Signers.{AreInBoth};
ghost use Rattle.committee_weights.specs.Members.{weight_of};
ghost use Rattle.commonware_c.specs.Certificates.{IsWhole};

use crate::conflicts::commonware_conflict;
use crate::encoded::commonware_certificate_encode;
use crate::equivocations::commonware_equivocation;
use crate::statuses::OK;
use crate::weighted_conflicts::commonware_weighted_conflict;
use crate::weighted_equivocations::commonware_weighted_equivocation;
use crate::weights::commonware_weights_quorum;

/// A value, and those that signed it.
#[derive(Clone, Copy, Drop)]
struct Signed<'a> {
    value: &'a [u8],
    signers: &'a [u32],
}

/// Writes the certificate to the room, and returns what is written. `None` where none is.
fn certificate_in<'a>(signed: &Signed<'_>, room: &'a mut [u8]) -> Option<&'a [u8]>
    ensures { IfSome result (λ bytes.
        IsWhole bytes.now (signed.now.value.now, signed.now.signers.now)) }
{
    let written = commonware_certificate_encode(signed.value, signed.signers, room);
    if written.status != OK {
        return None;
    }
    Some(&room[..written.size])
}

/// Writes two certificates to the rooms, and returns how many a conflict names, whose indices are
/// in `out`: they are those that signed both. `None` where none is written, or no one is named.
fn accused_of_two(
    k: u32,
    members: u32,
    first: &Signed<'_>,
    second: &Signed<'_>,
    room: &mut [u8],
    other: &mut [u8],
    out: &mut [u32],
) -> Option<usize>
    ensures { IfSome result (λ count. (count ≤ length out.new)
        × AreInBoth first.now.signers.now second.now.signers.now (take count out.new)) }
{
    let Some(one) = certificate_in(first, room) else {
        return None;
    };
    let Some(two) = certificate_in(second, other) else {
        return None;
    };
    let view = commonware_conflict(k, members, one, two, out);
    if view.status == OK {
        Some(view.count)
    } else {
        None
    }
}

/// The same of an equivocation: in each log that has the signatures of both certificates, each that
/// is named signed two different decisions for one slot.
fn equivocators_of_two(
    k: u32,
    members: u32,
    first: &Signed<'_>,
    second: &Signed<'_>,
    room: &mut [u8],
    other: &mut [u8],
    out: &mut [u32],
) -> Option<usize>
    ensures { IfSome result (λ count. (count ≤ length out.new) × ((log : ℕ → List ℕ → Bool)
        → EachSigned (InLog log) first.now.signers.now first.now.value.now
        → EachSigned (InLog log) second.now.signers.now second.now.value.now
        → EachHasEquivocated (InLog log) (take count out.new))) }
{
    let Some(one) = certificate_in(first, room) else {
        return None;
    };
    let Some(two) = certificate_in(second, other) else {
        return None;
    };
    let view = commonware_equivocation(k, members, one, two, out);
    if view.status == OK {
        Some(view.count)
    } else {
        None
    }
}

/// Whether those that a conflict by weight names weigh more than may be faulty, at a resilience of
/// 3 or more: they always do. `None` where no one is named.
fn outweigh_faults(
    k: u32,
    weights: &[u64],
    first: &[u8],
    second: &[u8],
    out: &mut [u32],
) -> Option<bool>
    requires { 3 ≤ k }
    ensures { IfSome result (λ more. IsTrue more) }
{
    let view = commonware_weighted_conflict(k, weights, first, second, out);
    if view.status != OK {
        return None;
    }
    Some(view.weight > commonware_weights_quorum(k, weights).tolerated)
}

/// Writes two certificates to the rooms, and returns how many an equivocation by weight names,
/// whose indices are in `out`, and what they weigh: they are those that signed both, and did what
/// `equivocators_of_two` says. `None` where none is written, or no one is named.
fn equivocators_by_weight(
    k: u32,
    weights: &[u64],
    first: &Signed<'_>,
    second: &Signed<'_>,
    room: &mut [u8],
    other: &mut [u8],
    out: &mut [u32],
) -> Option<(usize, u64)>
    ensures { IfSome result (λ named. (named.0 ≤ length out.new)
        × (named.1 ≡ weight_of weights.now (take named.0 out.new))
        × AreInBoth first.now.signers.now second.now.signers.now (take named.0 out.new)
        × ((log : ℕ → List ℕ → Bool)
        → EachSigned (InLog log) first.now.signers.now first.now.value.now
        → EachSigned (InLog log) second.now.signers.now second.now.value.now
        → EachHasEquivocated (InLog log) (take named.0 out.new))) }
{
    let Some(one) = certificate_in(first, room) else {
        return None;
    };
    let Some(two) = certificate_in(second, other) else {
        return None;
    };
    let view = commonware_weighted_equivocation(k, weights, one, two, out);
    if view.status == OK {
        Some((view.count, view.weight))
    } else {
        None
    }
}

/// The decisions `aa` and `bb` for the slot `07`; of four members 1 and 2 signed both.
#[test]
fn those_that_signed_both_are_named(rt: HostRuntime) {
    let one = Signed {
        value: &[1, 7, 0xaa],
        signers: &[0, 1, 2],
    };
    let two = Signed {
        value: &[1, 7, 0xbb],
        signers: &[1, 2, 3],
    };
    let mut room = [0xffu8; 8];
    let mut other = [0xffu8; 8];
    let mut out = [9u32; 4];
    assert!(rt;
        accused_of_two(3, 4, &one, &two, &mut room, &mut other, &mut out) == Some(2)
            && out == [1, 2, 9, 9]
    );
    assert!(rt; accused_of_two(3, 4, &one, &one, &mut room, &mut other, &mut out).is_none());
    out = [9; 4];
    assert!(rt; equivocators_of_two(3, 4, &one, &two, &mut room, &mut other, &mut out) == Some(2));
    assert!(rt; out == [1, 2, 9, 9]);
    assert!(rt;
        equivocators_of_two(3, 4, &one, &two, &mut room[..7], &mut other, &mut out).is_none()
    );
}

/// Of the weights 40, 30, 20 and 10, those that signed both weigh more than the 33 that may be
/// faulty.
#[test]
fn those_that_are_named_outweigh_faults(rt: HostRuntime) {
    let weights = [40, 30, 20, 10];
    let one = Signed {
        value: &[1, 7, 0xaa],
        signers: &[0, 1],
    };
    let two = Signed {
        value: &[1, 7, 0xbb],
        signers: &[0, 2, 3],
    };
    let mut room = [0xffu8; 8];
    let mut other = [0xffu8; 8];
    let mut out = [9u32; 2];
    assert!(rt;
        equivocators_by_weight(3, &weights, &one, &two, &mut room, &mut other, &mut out)
            == Some((1, 40))
    );
    assert!(rt; out == [0, 9]);
    let first = [1, 0xaa, 2, 0, 1];
    let second = [1, 0xbb, 3, 0, 2, 3];
    assert!(rt; outweigh_faults(3, &weights, &first, &second, &mut out) == Some(true));
    assert!(rt; outweigh_faults(3, &weights, &first, &first, &mut out).is_none());
}
