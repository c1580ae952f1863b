//! The numbers of a fault model, and why no greater number of faults is tolerated.
ghost use Rattle.std.specs.Prelude.{◌≤◌, IfNone, IfSome, ◌+◌, ◌-◌, ◌*◌};
ghost use Rattle.commonware_utils.specs.Faults.{Overlap};
ghost use Rattle.judge_verdicts.specs.Numbers.{AreNumbers, IsRefutation};

use commonware_utils::faults::tolerated_faults;
use std::ops::Range;

/// The numbers of a fault model of a resilience `n >= kf + 1`.
///
/// Of 11 members at a resilience 5, 2 may be faulty, 9 are a quorum and 5 the smaller one.
#[derive(Clone, Copy, PartialEq, Eq)]
pub struct FaultNumbers {
    /// The greatest number of members that may be faulty.
    pub faults: u32,
    /// How many make a quorum.
    pub quorum: u32,
    /// How many make the smaller quorum, which shares a member more than may be faulty with each
    /// quorum.
    pub smaller_quorum: u32,
}

/// The numbers of `n` members at a resilience `k`. `k` is at least 2 and `n` at least 1.
pub fn fault_numbers(k: u32, n: u32) -> FaultNumbers
    requires resilience { 2 ≤ k }
    requires some { 1 ≤ n }
    ensures { AreNumbers k n result }
{
    let faults = tolerated_faults(k, n);
    FaultNumbers {
        faults,
        quorum: n - faults,
        smaller_quorum: 2 * faults + 1,
    }
}

/// Two ranges of the positions of members that share too few.
///
/// For 3 of 20 members at a resilience 7, `first` is `0..17` and `second` `3..20`: they share 14,
/// and 16 are needed.
#[derive(PartialEq, Eq, Drop)]
pub struct Refutation {
    /// The first of the positions.
    pub first: Range<u32>,
    /// The last of the positions.
    pub second: Range<u32>,
    /// How many positions are in both.
    pub shared: u32,
    /// How many would have to.
    pub needed: u64,
}

/// Why `f` of `n` members can't be faulty at a resilience `k`, or `None` where they can. `k` is at
/// least 2, `n` at least 1, and `f` at most `n`.
pub fn refute(k: u32, n: u32, f: u32) -> Option<Refutation>
    requires resilience { 2 ≤ k }
    requires some { 1 ≤ n }
    requires at_most { f ≤ n }
    ensures refuted { IfSome result (IsRefutation k n f) }
    ensures tolerated { IfNone result (Overlap n (n - f) (n - f) ((k - 2) * f + 1)) }
{
    if f <= tolerated_faults(k, n) {
        return None;
    }
    Some(Refutation {
        first: 0..n - f,
        second: f..n,
        shared: (n - f).saturating_sub(f),
        needed: (k as u64 - 2) * f as u64 + 1,
    })
}
