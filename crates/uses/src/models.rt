//! Module `faults`: two fault models of one's own, with all that the library proves of `N3f1`, and
//! what it proves of any model.
ghost use Rattle.std.specs.Prelude.{◌≡◌, ℕ, ◌+◌, ◌-◌, ◌*◌, ◌/◌, ◌≤◌, refl, IsFalse, IsTrue};
ghost use Rattle.std.proofs.Common.{arith};
ghost use Rattle.commonware_utils.specs.Faults.{Greatest, IsCommitteeSize, IsFaultTolerance};
ghost use Rattle.commonware_utils.specs.Faults.{LeastM, MeetsOutside, Overlap, OverlapAtLeast, amount};

use commonware_utils::Faults;
use commonware_utils::faults::{Count, Resilience, overlap_law, smaller_quorum};
use commonware_utils::headline::{Numbers, resilience_numbers};

/// The model of crash faults, `n >= 2f + 1`: any two quorums share a participant.
#[derive(Clone, Copy, Debug)]
pub struct N2f1;

impl Faults for N2f1 {
    ghost faults = { λ n. (n - 1) / 2 };

    ghost at_most = { λ n h k. Prim.omega arith };

    fn max_faults<N: Count>(n: N) -> u32
        requires { IsCommitteeSize (N.number n) }
        ensures faults { result ≡ (amount (N.number n) - 1) / 2 }
        ensures at_most { result ≤ amount (N.number n) }
        ensures greatest { Greatest 2 (amount (N.number n)) result }
    {
        (n.to_u32().unwrap() - 1) / 2
    }
}

impl Resilience for N2f1 {
    ghost factor = { 2 };

    ghost divides = { (Prim.omega arith, λ n h l. refl) };
}

/// A model between `N3f1` and `N5f1`, `n >= 4f + 1`, in the fewest lines.
#[derive(Clone, Copy, Debug)]
pub struct N4f1;

impl Faults for N4f1 {
    ghost faults = { λ n. (n - 1) / 4 };

    ghost at_most = { λ n h k. Prim.omega arith };

    fn max_faults<N: Count>(n: N) -> u32 {
        (n.to_u32().unwrap() - 1) / 4
    }
}

impl Resilience for N4f1 {
    ghost factor = { 4 };

    ghost divides = { (Prim.omega arith, λ n h l. refl) };
}

/// What `N2f1` returns: any two quorums share a participant, and for no greater f they do.
pub fn crash_numbers(n: u32) -> Numbers
    requires { 1 ≤ n }
    ensures greatest { Greatest 2 n result.max_faults }
    ensures shares { OverlapAtLeast n result.quorum result.quorum 1 }
{
    resilience_numbers::<N2f1>(n)
}

/// What `N4f1` returns, and its smaller quorum: all that the library says of a resilience.
pub fn fourth_numbers(n: u32) -> (Numbers, u32)
    requires { 1 ≤ n }
    ensures all { IsFaultTolerance 4 n result.0.max_faults }
    ensures meets { MeetsOutside n result.0.quorum result.0.max_faults }
    ensures least { LeastM n result.0.max_faults result.1 }
{
    (
        resilience_numbers::<N4f1>(n),
        smaller_quorum::<N4f1, u32>(n),
    )
}

/// Whether any two quorums share a participant that isn't faulty, in any model. Where they don't,
/// no more than the faulty are always shared.
pub fn is_safe<M: Faults>(n: u32) -> bool
    requires { 1 ≤ n }
    ensures safe { IsTrue result → MeetsOutside n (n - M.faults n) (M.faults n) }
    ensures short { IsFalse result → (shared : ℕ)
        → Overlap n (n - M.faults n) (n - M.faults n) shared → shared ≤ M.faults n }
{
    overlap_law::<M>();
    3 * u64::from(M::max_faults(n)) < u64::from(n)
}
