//! The signers of both of two certificates, whichever is named first.
ghost use Rattle.std.specs.Prelude.{◌≡◌, ◌↔◌, ℕ, List};
ghost use Rattle.committee_certificates.specs.Signers.{AreInBoth};

/// What holds of the participants in both of two lists, whatever the lists are. `symmetric`: they
/// are those in both of the same two in the other order. `only`: no other list is of these
/// participants and strictly increasing, so two calls that name them return the same.
///
/// Those in both of 0, 1, 2 and 1, 2, 3 are 1, 2, and so are those in both of 1, 2, 3 and 0, 1, 2.
pub fn both_law()
    ensures symmetric { (first second both : List ℕ)
        → AreInBoth first second both ↔ AreInBoth second first both }
    ensures only { (first second both other : List ℕ)
        → AreInBoth first second both → AreInBoth first second other → both ≡ other }
{}
