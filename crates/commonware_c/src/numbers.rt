//! How many of n participants may be faulty at a resilience of k, and how many make a quorum.
ghost use Rattle.std.specs.Prelude.{◌≡◌, ◌<◌, ◌≤◌};
ghost use Rattle.commonware_faults.specs.Tolerance.{IsFaultTolerance};
ghost use Rattle.commonware_c.specs.Quorums.{IsQuorumSize, IsSmallerQuorumSize};

use commonware_faults::tolerated_faults;

/// What stands for a quorum where there is none: more than any number of signers.
const NO_QUORUM: u32 = u32::MAX;

/// How many of n participants may be faulty at a resilience n >= kf + 1: the greatest f that fits.
/// It is the greatest for which any two quorums share (k - 2)f + 1 participants. 0 where n is 0 or
/// k below 2.
#[unsafe(no_mangle)]
pub extern "C" fn commonware_max_faults(k: u32, n: u32) -> u32
    ensures tolerance { 2 ≤ k → 1 ≤ n → IsFaultTolerance k n result }
    ensures no_model { k < 2 → result ≡ 0 }
    ensures no_members { n ≡ 0 → result ≡ 0 }
{
    if k < 2 || n == 0 {
        return 0;
    }
    tolerated_faults(k, n)
}

/// How many of n participants make a quorum, n - f. 4294967295 where n is 0 or k below 2, so that
/// no number of signers is taken for a quorum of nothing.
#[unsafe(no_mangle)]
pub extern "C" fn commonware_quorum(k: u32, n: u32) -> u32
    ensures quorum { 2 ≤ k → 1 ≤ n → IsQuorumSize k n result }
    ensures no_model { k < 2 → result ≡ 4294967295 }
    ensures no_members { n ≡ 0 → result ≡ 4294967295 }
{
    if k < 2 || n == 0 {
        return NO_QUORUM;
    }
    n - tolerated_faults(k, n)
}

/// The least size whose subsets share f + 1 participants with each quorum, 2f + 1. 4294967295 where
/// n is 0 or k below 2, for the same reason.
#[unsafe(no_mangle)]
pub extern "C" fn commonware_smaller_quorum(k: u32, n: u32) -> u32
    ensures quorum { 2 ≤ k → 1 ≤ n → IsSmallerQuorumSize k n result }
    ensures no_model { k < 2 → result ≡ 4294967295 }
    ensures no_members { n ≡ 0 → result ≡ 4294967295 }
{
    if k < 2 || n == 0 {
        return NO_QUORUM;
    }
    2 * tolerated_faults(k, n) + 1
}
