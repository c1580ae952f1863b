//! Fault models of consensus: how many of n participants may be faulty, and how many make a quorum.
//!
//! A model is defined for every number of participants from 1 to `u32::MAX`, given as a whole
//! number of any type. No call allocates. What the numbers of `N3f1` and `N5f1` mean is said by
//! quorum intersection: how many participants any two subsets of such sizes share. That a quorum
//! overlaps another outside every set of f Byzantine participants is what the safety of a protocol
//! rests on.
ghost use Rattle.std.specs.Prelude.{◌≡◌, ℕ, ◌+◌, ◌-◌, ◌*◌, ◌/◌, ◌^◌, ◌<◌, ◌≤◌};
ghost use Rattle.std.proofs.Common.{arith};
ghost use Rattle.commonware_faults.specs.Counts.{IsCommitteeSize, GreatestFit, amount, n3f1_faults, n5f1_faults};
ghost use Rattle.commonware_faults.specs.Subsets.{Greatest3, Greatest5, LeastM, MeetsOutside, OverlapAtLeast};

use crate::count::Count;
use crate::resilience::smaller_quorum;

/// A fault model. Its numbers depend on the number of participants alone: those of `N3f1` among 6
/// are 1 faulty and a quorum of 5.
pub trait Faults {
    /// How many of n participants may be faulty.
    ghost faults: { ℕ → ℕ };

    /// Returns how many of `n` participants may be faulty. It requires that `n` is from 1 to
    /// `u32::MAX`.
    fn max_faults<N: Count>(n: N) -> u32
        requires { IsCommitteeSize (N.number n) }
        ensures faults { result ≡ faults (amount (N.number n)) }
        ensures at_most { result ≤ amount (N.number n) };

    /// Returns how many of `n` participants make a quorum: all but as many as may be faulty. It
    /// requires that `n` is from 1 to `u32::MAX`.
    fn quorum<N: Count>(n: N) -> u32
        requires { IsCommitteeSize (N.number n) }
        ensures { let total = amount (N.number n) in result + faults total ≡ total }
    {
        let n = n.to_u32().unwrap();
        n - Self::max_faults(n)
    }

    /// No more may be faulty than there are.
    ghost at_most: { (n : ℕ) → 1 ≤ n → n < 2 ^ 32 → faults n ≤ n };
}

/// The model that needs `n >= 3f + 1` participants for f faulty (Byzantine) ones: any two quorums
/// share one that isn't faulty. Among 6 participants one may be faulty and 5 are a quorum; among
/// 100, 33 and 67.
#[derive(Clone, Copy, Debug, Default, PartialEq, Eq)]
pub struct N3f1;

impl Faults for N3f1 {
    ghost faults = { n3f1_faults };

    ghost at_most = { λ n h k. Prim.omega arith };

    /// Returns the greatest f for which `3f + 1` is at most `n`, which is the greatest f for which
    /// any two subsets of n - f participants share at least f + 1. It requires that `n` is from 1
    /// to `u32::MAX`.
    fn max_faults<N: Count>(n: N) -> u32
        requires { IsCommitteeSize (N.number n) }
        ensures faults { result ≡ (amount (N.number n) - 1) / 3 }
        ensures at_most { result ≤ amount (N.number n) }
        ensures fits { GreatestFit 3 (amount (N.number n)) result }
        ensures greatest { Greatest3 (amount (N.number n)) result }
        ensures meets { let total = amount (N.number n) in
            MeetsOutside total (total - result) result }
    {
        let total = n.to_u32().unwrap();
        (total - 1) / 3
    }

    /// Returns `n - max_faults(n)`. Two quorums share a participant outside any subset of at most
    /// `max_faults(n)`. It requires that `n` is from 1 to `u32::MAX`.
    fn quorum<N: Count>(n: N) -> u32
        requires { IsCommitteeSize (N.number n) }
        ensures value { let total = amount (N.number n) in result + n3f1_faults total ≡ total }
        ensures meets { let total = amount (N.number n) in
            MeetsOutside total result (n3f1_faults total) }
    {
        let total = n.to_u32().unwrap();
        total - N3f1::max_faults(total)
    }
}

/// The model that needs `n >= 5f + 1` participants for f faulty (Byzantine) ones, with a larger and
/// a smaller quorum. Among 10 participants one may be faulty, 9 are the larger quorum and 3 the
/// smaller one; among 100, 19, 81 and 39.
#[derive(Clone, Copy, Debug, Default, PartialEq, Eq)]
pub struct N5f1;

impl Faults for N5f1 {
    ghost faults = { n5f1_faults };

    ghost at_most = { λ n h k. Prim.omega arith };

    /// Returns the greatest f for which `5f + 1` is at most `n`, which is the greatest f for which
    /// any two subsets of n - f participants share at least 3f + 1. It requires that `n` is from 1
    /// to `u32::MAX`.
    fn max_faults<N: Count>(n: N) -> u32
        requires { IsCommitteeSize (N.number n) }
        ensures faults { result ≡ (amount (N.number n) - 1) / 5 }
        ensures at_most { result ≤ amount (N.number n) }
        ensures fits { GreatestFit 5 (amount (N.number n)) result }
        ensures greatest { Greatest5 (amount (N.number n)) result }
        ensures meets { let total = amount (N.number n) in
            MeetsOutside total (total - result) result }
    {
        let total = n.to_u32().unwrap();
        (total - 1) / 5
    }

    /// Returns `n - max_faults(n)`. Two quorums share a participant outside any subset of at most
    /// `max_faults(n)`. It requires that `n` is from 1 to `u32::MAX`.
    fn quorum<N: Count>(n: N) -> u32
        requires { IsCommitteeSize (N.number n) }
        ensures value { let total = amount (N.number n) in result + n5f1_faults total ≡ total }
        ensures meets { let total = amount (N.number n) in
            MeetsOutside total result (n5f1_faults total) }
    {
        let total = n.to_u32().unwrap();
        total - N5f1::max_faults(total)
    }
}

impl N5f1 {
    /// Returns the larger quorum of `n` participants, which is `quorum(n)`. It requires that `n` is
    /// from 1 to `u32::MAX`.
    pub fn l_quorum<N: Count>(n: N) -> u32
        requires { IsCommitteeSize (N.number n) }
        ensures { let total = amount (N.number n) in result + n5f1_faults total ≡ total }
    {
        Self::quorum(n)
    }

    /// Returns the smaller quorum of `n` participants, `2f + 1` for f faults: the least size whose
    /// subsets share at least f + 1 participants with each larger quorum. It requires that `n` is
    /// from 1 to `u32::MAX`.
    pub fn m_quorum<N: Count>(n: N) -> u32
        requires { IsCommitteeSize (N.number n) }
        ensures value { result ≡ 2 * n5f1_faults (amount (N.number n)) + 1 }
        ensures least { let total = amount (N.number n) in LeastM total (n5f1_faults total) result }
        ensures shares { let total = amount (N.number n) in
            OverlapAtLeast total (total - n5f1_faults total) result (n5f1_faults total + 1) }
    {
        smaller_quorum::<Self, N>(n)
    }
}
