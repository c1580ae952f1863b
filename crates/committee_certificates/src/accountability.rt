//! What follows from equivocation, in the words of the field.
ghost use Rattle.std.specs.Prelude.{ℕ, ◌+◌, ◌*◌, ◌≤◌, Bool, List};
ghost use Rattle.committee_certificates.specs.Accountability.{AtMostFaulty, EachHasEquivocated};
ghost use Rattle.committee_certificates.specs.Accountability.{EachSigned, HasEquivocated, InLog, Passes};
ghost use Rattle.committee_certificates.specs.Accountability.{IsCertifiedBy, SignOneDecision};
ghost use Rattle.committee_certificates.specs.Signers.{AreInBoth};
ghost use Rattle.committee_certificates.specs.Slots.{Contradict};

/// Accountability and safety.
///
/// `guilty`: who is in both of two lists of signers, each of which signed its value, has signed two
/// different decisions for one slot, where the values are such. `innocent`: where honest
/// participants sign at most one decision for each slot, whoever has signed two is not honest.
/// `safe`: where besides at most f of n members aren't honest, and 3f + 1 is at most n, no two
/// quorum certificates are different decisions for one slot.
pub fn accountability_law()
    ensures guilty { (log : ℕ → List ℕ → Bool) (first second named value other : List ℕ)
        → EachSigned (InLog log) first value → EachSigned (InLog log) second other
        → Contradict value other → AreInBoth first second named
        → EachHasEquivocated (InLog log) named }
    ensures innocent { (honest : ℕ → Bool) (log : ℕ → List ℕ → Bool)
        → SignOneDecision (Passes honest) (InLog log)
        → (index : ℕ) → HasEquivocated (InLog log) index → ¬ Passes honest index }
    ensures safe { (n f : ℕ) (honest : ℕ → Bool) (log : ℕ → List ℕ → Bool)
        → 3 * f + 1 ≤ n → SignOneDecision (Passes honest) (InLog log)
        → AtMostFaulty n f (Passes honest)
        → (first second value other : List ℕ)
        → IsCertifiedBy n f (InLog log) first value → IsCertifiedBy n f (InLog log) second other
        → ¬ Contradict value other }
{}

/// Any relation of who signed what, and any participants that are taken for honest: what
/// `accountability_law` says of logs and tests is so for every type of this trait.
pub trait Signing {
    /// The participant signed the value.
    ghost signed: { ℕ → List ℕ → Type 0 };

    /// The participant is honest.
    ghost honest: { ℕ → Type 0 };
}

/// `accountability_law`, for any relations.
pub fn accountability_of<S: Signing>()
    ensures guilty { (first second named value other : List ℕ)
        → EachSigned S.signed first value → EachSigned S.signed second other
        → Contradict value other → AreInBoth first second named
        → EachHasEquivocated S.signed named }
    ensures innocent { SignOneDecision S.honest S.signed
        → (index : ℕ) → HasEquivocated S.signed index → ¬ S.honest index }
    ensures safe { (n f : ℕ) → 3 * f + 1 ≤ n → SignOneDecision S.honest S.signed
        → AtMostFaulty n f S.honest
        → (first second value other : List ℕ)
        → IsCertifiedBy n f S.signed first value → IsCertifiedBy n f S.signed second other
        → ¬ Contradict value other }
{}
