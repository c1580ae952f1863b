//! What follows from equivocation, where participants have weights.
ghost use Rattle.std.specs.Prelude.{ℕ, ◌+◌, ◌*◌, ◌≤◌, Bool, List, sum};
ghost use Rattle.committee_certificates.specs.Accountability.{InLog, Passes, SignOneDecision};
ghost use Rattle.committee_certificates.specs.Slots.{Contradict};
ghost use Rattle.committee_weights.specs.Accountability.{FaultyWeighAtMost, IsCertifiedByWeight};

/// Safety by weight: where those that aren't honest weigh at most f together, and 3f + 1 is at most
/// the total, no two quorum certificates are different decisions for one slot, if honest
/// participants sign at most one decision for each slot. That whoever signed two isn't honest is
/// `accountability_law`, which speaks of no quorums.
pub fn weighted_safety_law()
    ensures { (weights : List ℕ) (f : ℕ)
        → (honest : ℕ → Bool) (log : ℕ → List ℕ → Bool)
        → 3 * f + 1 ≤ sum weights → SignOneDecision (Passes honest) (InLog log)
        → FaultyWeighAtMost weights f (Passes honest)
        → (first second value other : List ℕ)
        → IsCertifiedByWeight weights f (InLog log) first value
        → IsCertifiedByWeight weights f (InLog log) second other
        → ¬ Contradict value other }
{}
