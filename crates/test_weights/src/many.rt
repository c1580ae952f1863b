//! Weights of 70,000 participants, more than every buffer, every first room and two bytes count:
//! with ample memory each call succeeds.
use crate::conflicts::conflict_of;
use committee_certificates::Certificate;
use committee_weights::{
    WeightedConflictError, WeightedEquivocationError, WeightedQuorumError, Weights, check_weight,
    weighted_equivocation,
};
use commonware_base::Participant;
use commonware_ordered::Set;
use std::alloc::{AllocError, Global};
use std::iter;
use std::ops::Range;

/// How many participants there are.
const COUNT: u32 = 70_000;

/// The participants in two ranges of indices.
fn among(
    alloc: Global,
    one: Range<u32>,
    other: Range<u32>,
) -> Result<Set<Participant, Global>, AllocError> {
    Set::from_iter_dedup(alloc, one.chain(other).map(Participant::new))
}

/// The weights 1, 2, 3 and so on.
fn counted(alloc: Global) -> Option<Weights<Global>> {
    let mut items = Vec::new(alloc);
    for weight in 1..=u64::from(COUNT) {
        items.push(weight).ok()?;
    }
    Weights::new(items).ok()
}

/// 70,000 * 70,001 / 2 are 2,450,035,000, and 65,536 * 65,537 / 2 are 2,147,516,416, so that the
/// members after the first 65,536 weigh 302,518,584.
#[test]
fn weights_past_two_bytes(rt: HostRuntime) {
    let alloc = rt.alloc();
    let weights = counted(alloc).expect(&rt, "weights");
    assert!(rt; weights.len() == 70_000 && weights.total() == 2_450_035_000);
    assert!(rt; weights.max_faulty_weight(3) == 816_678_333);
    assert!(rt; weights.quorum_weight(3) == 1_633_356_667);
    for index in [0, 255, 256, 65_535, 65_536, 69_999u32] {
        let weight = weights.get(Participant::new(index));
        assert!(rt; weight == Some(u64::from(index) + 1), "{index}");
    }
    assert!(rt; weights.get(Participant::new(70_000)).is_none());
    let rows = [
        (0..0, Some(0)),
        (0..70_000, Some(2_450_035_000)),
        (65_536..70_000, Some(302_518_584)),
        (69_999..70_000, Some(70_000)),
        (69_999..70_001, None),
        (4_294_967_294..4_294_967_295, None),
    ];
    for (range, weight) in rows {
        let members = among(alloc, range, 0..0).expect(&rt, "memory");
        assert!(rt; weights.weight_of(&members) == weight, "{weight:?}");
    }
}

/// Weights of which the first 65,536 are 1 and the others 1,000: 4,529,536 in all. At a k of 3
/// 1,509,845 are tolerated, and a quorum weighs 3,019,691.
fn late(alloc: Global) -> Option<Weights<Global>> {
    let light = iter::repeat_n(1, 65_536);
    let items = light.chain(iter::repeat_n(1_000, 4_464)).collect(alloc);
    Weights::new(items.ok()?).ok()
}

/// A certificate of a value that the members in two ranges of indices signed.
fn signed(
    alloc: Global,
    value: &[u8],
    one: Range<u32>,
    other: Range<u32>,
) -> Result<Certificate<Global>, AllocError> {
    let value = Vec::from_slice(alloc, value)?;
    let signers = among(alloc, one, other)?;
    Ok(Certificate { value, signers })
}

/// Whether the members in a range of indices are named as those that signed both, for a conflict
/// and for equivocation.
fn are_named(
    alloc: Global,
    weights: &Weights<Global>,
    first: &Certificate<Global>,
    second: &Certificate<Global>,
    named: Range<u32>,
) -> bool {
    let conflict = conflict_of(alloc, 3, weights, first, second);
    let equivocation = weighted_equivocation(alloc, 3, weights, first, second);
    match (conflict, equivocation) {
        (Some(Ok(both)), Ok(guilty)) => {
            both == guilty && both.iter().map(|signer| signer.get()).eq(named)
        }
        _ => false,
    }
}

/// 691 of the light ones and 3,019 of the others weigh a quorum, and with 690 they don't.
#[test]
fn signers_past_two_bytes_are_named(rt: HostRuntime) {
    let alloc = rt.alloc();
    let weights = late(alloc).expect(&rt, "weights");
    let first = signed(alloc, b"\x01\x07A", 0..691, 65_536..68_555).expect(&rt, "memory");
    let second = signed(alloc, b"\x01\x07B", 691..1_382, 66_981..70_000).expect(&rt, "memory");
    assert!(rt; check_weight(3, &weights, &first) == Ok(()));
    assert!(rt; are_named(alloc, &weights, &first, &second, 66_981..68_555));
    let light = signed(alloc, b"\x01\x07B", 691..1_381, 66_981..70_000).expect(&rt, "memory");
    assert!(rt; check_weight(3, &weights, &light) == Err(WeightedQuorumError::TooLight));
    let refused = conflict_of(alloc, 3, &weights, &first, &light);
    assert!(rt; refused == Some(Err(WeightedConflictError::TooLight)));
    let refused = weighted_equivocation(alloc, 3, &weights, &light, &first);
    assert!(rt; refused == Err(WeightedEquivocationError::TooLight));
}
