//! What the signers of both of two lists weigh.
ghost use Rattle.std.specs.Prelude.{◌≤◌, ℕ, List};
ghost use Rattle.committee_certificates.specs.Signers.{AreInBoth};
ghost use Rattle.committee_vote_weights.specs.WeightShares.{AreSharedByWeight};
ghost use Rattle.committee_weights.specs.Members.{weight_of};

/// What lists that weigh at least a and at least b share. It asks nothing of the weights: some may
/// be 0, as that of a validator that has left, and count for nothing.
pub fn overlap_weight_law()
    ensures { (weights first second both : List ℕ) (a b : ℕ) → AreInBoth first second both
        → a ≤ weight_of weights first → b ≤ weight_of weights second
        → AreSharedByWeight weights a b both }
{}
