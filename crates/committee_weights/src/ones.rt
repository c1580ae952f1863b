//! Where each participant weighs 1, numbers by weight are numbers by heads.
ghost use Rattle.std.specs.Prelude.{◌≡◌, ◌-◌, ◌/◌, ◌↔◌, ℕ, All, List, length, sum};
ghost use Rattle.std.specs.Ordering.{nat_cmp};
ghost use Rattle.commonware_ordered.specs.Strict.{IsStrict};
ghost use Rattle.committee_certificates.specs.Signers.{AreMembers, AreQuorum};
ghost use Rattle.committee_weights.specs.Members.{AreWeightedQuorum, faulty_weight};
ghost use Rattle.committee_weights.specs.Members.{quorum_weight, weight_of};

use commonware_faults::{Faults, N3f1, N5f1};

/// What holds of weights that are all 1: n participants weigh n (`total`); members weigh as many as
/// they are (`weighs`); what may be faulty weighs (n - 1) / k, and what a quorum weighs is n less
/// that (`faulty`, `quorum`); so members are a quorum by weight exactly where they are one by heads
/// (`heads`), at a `k` of 3 in the model `N3f1` and at a `k` of 5 in `N5f1` (`thirds`, `fifths`).
///
/// Of four weights of 1, the participants 0, 2 and 3 weigh 3, which is a quorum at a `k` of 3: one
/// may be faulty.
pub fn ones_law()
    ensures total { (weights : List ℕ) → All (λ w. w ≡ 1) weights
        → sum weights ≡ length weights }
    ensures weighs { (weights signers : List ℕ) → All (λ w. w ≡ 1) weights
        → IsStrict nat_cmp signers → AreMembers (length weights) signers
        → weight_of weights signers ≡ length signers }
    ensures faulty { (weights : List ℕ) (k : ℕ) → All (λ w. w ≡ 1) weights
        → faulty_weight k (sum weights) ≡ (length weights - 1) / k }
    ensures quorum { (weights : List ℕ) (k : ℕ) → All (λ w. w ≡ 1) weights
        → quorum_weight k (sum weights) ≡ length weights - (length weights - 1) / k }
    ensures heads { (weights signers : List ℕ) (k : ℕ) → All (λ w. w ≡ 1) weights
        → IsStrict nat_cmp signers
        → AreWeightedQuorum k weights signers
        ↔ AreQuorum (λ n. (n - 1) / k) (length weights) signers }
    ensures thirds { (weights signers : List ℕ) → All (λ w. w ≡ 1) weights
        → IsStrict nat_cmp signers
        → AreWeightedQuorum 3 weights signers
        ↔ AreQuorum ⟦<N3f1 as Faults>⟧.faults (length weights) signers }
    ensures fifths { (weights signers : List ℕ) → All (λ w. w ≡ 1) weights
        → IsStrict nat_cmp signers
        → AreWeightedQuorum 5 weights signers
        ↔ AreQuorum ⟦<N5f1 as Faults>⟧.faults (length weights) signers }
{}
