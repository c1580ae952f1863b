//! What a caller decides by a version, by a number of participants, and by weights.
ghost use Rattle.std.specs.Prelude.{◌≡◌, ◌+◌, ◌-◌, ◌<◌, ◌≤◌, ◌↔◌, ℕ, IfSome, IsTrue};
ghost use Rattle.commonware_faults.specs.Subsets.{Overlap};
ghost use Rattle.commonware_faults.specs.Tolerance.{IsFaultTolerance};
ghost use Rattle.committee_weights.specs.Members.{AreWeightedQuorum};
ghost use Rattle.commonware_c.specs.Version.{version_number};
ghost use Rattle.commonware_c.specs.Weights.{IsWeightedModel};

use crate::encoded::commonware_certificate_encode;
use crate::numbers::commonware_smaller_quorum;
use crate::statuses::OK;
use crate::version::commonware_version;
use crate::weighted_checks::{WeightedCheckView, commonware_weighted_check};
use crate::weights::commonware_weights_quorum;

/// Whether a program that was compiled for this version may call the library, which is so for each
/// version with the major version 2.
fn may_call(compiled: u32) -> bool
    ensures { (major minor patch : ℕ) → minor < 1000 → patch < 1000
        → compiled ≡ version_number major minor patch → IsTrue result ↔ (major ≡ 2) }
{
    compiled / 1_000_000 == commonware_version() / 1_000_000
}

/// Whether any `count` of `n` participants share one more than may be faulty with each quorum.
fn outlasts_faults(k: u32, n: u32, count: u32) -> bool
    requires { (2 ≤ k) × (1 ≤ n) }
    ensures { IsTrue result ↔ ((f : ℕ) × IsFaultTolerance k n f × Overlap n (n - f) count (f + 1)) }
{
    commonware_smaller_quorum(k, n) <= count
}

/// Whether the numbers are the weights of a committee, of which what may be faulty and what a
/// quorum weighs are all: they always are.
fn are_all_by_weight(k: u32, weights: &[u64]) -> bool
    ensures { IsTrue result ↔ IsWeightedModel k weights.now }
{
    let view = commonware_weights_quorum(k, weights);
    view.status == OK && view.tolerated + view.quorum == view.total
}

/// Writes a certificate to the room, and asks of what is written whether signers that weigh a
/// quorum signed it. `None` where none is written.
fn certificate_there_and_weighed(
    k: u32,
    weights: &[u64],
    value: &[u8],
    signers: &[u32],
    room: &mut [u8],
) -> Option<WeightedCheckView>
    ensures { IfSome result (λ view. (view.status ≡ 0) ↔ (IsWeightedModel k weights.now
        × AreWeightedQuorum k weights.now signers.now)) }
{
    let written = commonware_certificate_encode(value, signers, room);
    if written.status != OK {
        return None;
    }
    Some(commonware_weighted_check(k, weights, &room[..written.size]))
}

/// Three of four participants outlast a fault, and so do three of seven at a resilience of 5; of
/// the weights 40, 30, 20 and 10 the first two weigh a quorum, and the last three don't.
#[test]
fn numbers_decide(rt: HostRuntime) {
    assert!(rt; may_call(2_000_000) && may_call(2_999_999));
    assert!(rt; !may_call(1_999_999) && !may_call(3_000_000));
    assert!(rt; outlasts_faults(3, 4, 3) && !outlasts_faults(3, 4, 2));
    assert!(rt; outlasts_faults(5, 7, 3) && !outlasts_faults(5, 7, 2));
    let weights = [40, 30, 20, 10];
    assert!(rt; are_all_by_weight(3, &weights) && !are_all_by_weight(1, &weights));
    assert!(rt; !are_all_by_weight(3, &[]) && !are_all_by_weight(3, &[40, 0]));
    let mut room = [0xffu8; 8];
    let heavy = certificate_there_and_weighed(3, &weights, &[0xaa], &[0, 1], &mut room);
    assert!(rt; heavy.is_some_and(|it| it.status == 0 && it.weight == 70));
    let light = certificate_there_and_weighed(3, &weights, &[0xaa], &[1, 2, 3], &mut room);
    assert!(rt; light.is_some_and(|it| it.status == 22));
    assert!(rt; certificate_there_and_weighed(3, &weights, &[0xaa], &[1, 1], &mut room).is_none());
}
