//! Fault models of a resilience `n >= kf + 1`, and what every fault model is by counting.
ghost use Rattle.std.specs.Prelude.{◌≡◌, ℕ, ◌-◌, ◌/◌, ◌+◌, ◌*◌, ◌^◌, ◌<◌, ◌≤◌, ◌↔◌, refl};
ghost use Rattle.std.proofs.Common.{arith};
ghost use Rattle.commonware_faults.specs.Counts.{GreatestFit, IsCommitteeSize, amount};
ghost use Rattle.commonware_faults.specs.Subsets.{Greatest, Greatest3, Greatest5, LeastM};
ghost use Rattle.commonware_faults.specs.Subsets.{MeetsOutside, Overlap, OverlapAtLeast};
ghost use Rattle.commonware_faults.specs.Tolerance.{IsFaultTolerance};

use crate::count::Count;
use crate::faults::{Faults, N3f1, N5f1};

/// A fault model whose number of faults is the greatest f for which kf + 1 is at most n. All that
/// `resilience_law` says holds of it.
///
/// A model of your own becomes one by naming its k and proving the one law:
///
/// ```text
/// impl Resilience for N4f1 {
///     ghost factor = { 4 };
///     ghost divides = { (Prim.omega arith, λ n h l. refl) };
/// }
/// ```
pub trait Resilience: Faults {
    /// The k of `n >= kf + 1`.
    ghost factor: { ℕ };

    /// It is at least 2, and the faults of n are (n - 1) / k.
    ghost divides: { (2 ≤ factor)
        × ((n : ℕ) → 1 ≤ n → n < 2 ^ 32 → Self.faults n ≡ (n - 1) / factor) };
}

impl Resilience for N3f1 {
    ghost factor = { 3 };

    ghost divides = { (Prim.omega arith, λ n h l. refl) };
}

impl Resilience for N5f1 {
    ghost factor = { 5 };

    ghost divides = { (Prim.omega arith, λ n h l. refl) };
}

/// Quorum intersection: what any two quorums share in every model, one of your own among them. They
/// share n - 2f, and no greater number is always shared. Where 3f + 1 is at most n, they share a
/// participant outside any subset of at most f.
pub fn overlap_law<M: Faults>()
    ensures shares { (n : ℕ) → let f = M.faults n in OverlapAtLeast n (n - f) (n - f) (n - 2 * f) }
    ensures most { (n : ℕ) → 1 ≤ n → n < 2 ^ 32 → (s : ℕ) → let f = M.faults n in
        Overlap n (n - f) (n - f) s → s ≤ n - 2 * f }
    ensures meets { (n : ℕ) → let f = M.faults n in 3 * f + 1 ≤ n → MeetsOutside n (n - f) f }
{}

/// What the faults of a model of resilience k are by counting, for every number of participants:
/// the greatest f for which any two quorums share (k - 2)f + 1, and all else that
/// `IsFaultTolerance` says.
pub fn resilience_law<M: Resilience>()
    ensures { (n : ℕ) → 1 ≤ n → n < 2 ^ 32 → IsFaultTolerance M.factor n (M.faults n) }
{}

/// What holds for every k from 2 on, whatever any model returns: (n - 1) / k satisfies all that
/// `IsFaultTolerance` says; the greatest f by counting is the greatest with kf + 1 at most n, at
/// three and at five in the words of `N3f1` and `N5f1` too; and 2f + 1 is the least m, and the
/// only one, exactly where it is at most n.
pub fn counting_law()
    ensures tolerance { (k n : ℕ) → 2 ≤ k → 1 ≤ n → IsFaultTolerance k n ((n - 1) / k) }
    ensures fit { (k n f : ℕ) → 2 ≤ k → (Greatest k n f ↔ GreatestFit k n f) }
    ensures three { (n f : ℕ) → Greatest3 n f ↔ Greatest 3 n f }
    ensures five { (n f : ℕ) → Greatest5 n f ↔ Greatest 5 n f }
    ensures least { (n f m : ℕ) → LeastM n f m ↔ ((m ≡ 2 * f + 1) × (2 * f + 1 ≤ n)) }
{}

/// Returns how many of `n` participants may be faulty at a resilience `n >= kf + 1` whose `k` is a
/// number of the running program: the greatest f that fits, 2 of 20 at a `k` of 7. A model whose
/// `k` is known before has this as its `max_faults`. It requires that `k` is at least 2 and `n` at
/// least 1.
pub fn tolerated_faults(k: u32, n: u32) -> u32
    requires resilience { 2 ≤ k }
    requires some { 1 ≤ n }
    ensures { IsFaultTolerance k n result }
{
    (n - 1) / k
}

/// Returns the least size whose subsets share at least f + 1 participants with each quorum of a
/// model, which is `2f + 1`. It requires that `n` is from 1 to `u32::MAX`.
pub fn smaller_quorum<M: Resilience, N: Count>(n: N) -> u32
    requires { IsCommitteeSize (N.number n) }
    ensures value { result ≡ 2 * M.faults (amount (N.number n)) + 1 }
    ensures least { let total = amount (N.number n) in LeastM total (M.faults total) result }
    ensures shares { let total = amount (N.number n) in
        OverlapAtLeast total (total - M.faults total) result (M.faults total + 1) }
{
    2 * M::max_faults(n) + 1
}
