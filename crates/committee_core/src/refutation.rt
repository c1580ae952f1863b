//! Why no better numbers of the fault models hold: counterexamples, which are two subsets of the
//! positions that share too few.
ghost use Rattle.std.specs.Prelude.{◌≡◌, ◌+◌, ◌-◌, ◌*◌, ◌/◌, ℕ, ◌<◌, ◌≤◌};
ghost use Rattle.commonware_faults.specs.Subsets.{shared, size};
ghost use Rattle.committee_core.specs.Refutations.{subset_of};

use crate::Refutation;
use commonware_faults::{Faults, N3f1, N5f1};

/// Returns the first n - f and the last n - f of `n` positions, and how many are in both. It
/// requires that `n` is at least 1 and `f` at most `n`.
///
/// Where `f` is above (n - 1) / k, for a k of at least 2, fewer than (k - 2)f + 1 are in both. So
/// above the faults of `N3f1` fewer than f + 1 are, and above those of `N5f1` fewer than 3f + 1,
/// and no such f can be tolerated.
pub fn refutation(n: u32, f: u32) -> Refutation
    requires some { 1 ≤ n }
    requires at_most { f ≤ n }
    ensures first { result.first ≡ record { start = 0; end = n - f } }
    ensures second { result.second ≡ record { start = f; end = n } }
    ensures first_size { size (subset_of n result.first) ≡ n - f }
    ensures second_size { size (subset_of n result.second) ≡ n - f }
    ensures shared { result.shared
        ≡ shared (subset_of n result.first) (subset_of n result.second) }

    // What it refutes.
    ensures refutes { (k : ℕ) → 2 ≤ k → (n - 1) / k < f → result.shared < (k - 2) * f + 1 }
    ensures refutes_n3f1 { ⟦<N3f1 as Faults>⟧.faults n < f → result.shared < f + 1 }
    ensures refutes_n5f1 { ⟦<N5f1 as Faults>⟧.faults n < f → result.shared < 3 * f + 1 }
{
    Refutation {
        first: 0..n - f,
        second: f..n,
        shared: (n - f).saturating_sub(f),
    }
}

/// Returns the first `l_quorum(n)` and the last `m` of `n` positions, and how many are in both. It
/// requires that `n` is at least 1 and `m` at most `n`.
///
/// Where `m` is below the smaller quorum of `N5f1`, fewer than f + 1 are in both, where f is the
/// model's faults.
pub fn m_refutation(n: u32, m: u32) -> Refutation
    requires some { 1 ≤ n }
    requires at_most { m ≤ n }
    ensures first { result.first ≡ record { start = 0; end = n - ⟦<N5f1 as Faults>⟧.faults n } }
    ensures second { result.second ≡ record { start = n - m; end = n } }
    ensures first_size { size (subset_of n result.first) ≡ n - ⟦<N5f1 as Faults>⟧.faults n }
    ensures second_size { size (subset_of n result.second) ≡ m }
    ensures shared { result.shared
        ≡ shared (subset_of n result.first) (subset_of n result.second) }

    // What it refutes.
    ensures refutes { m < 2 * ⟦<N5f1 as Faults>⟧.faults n + 1
        → result.shared < ⟦<N5f1 as Faults>⟧.faults n + 1 }
{
    let larger = N5f1::l_quorum(n);
    Refutation {
        first: 0..larger,
        second: n - m..n,
        shared: larger.saturating_sub(n - m),
    }
}
