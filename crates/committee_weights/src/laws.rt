//! What weighted quorums share, for all weights and every resilience.
ghost use Rattle.std.specs.Prelude.{◌≡◌, ℕ, ◌-◌, ◌/◌, ◌+◌, ◌*◌, ◌<◌, ◌≤◌, ◌↔◌, Bool, List, [], ◌∷◌, length, map, not, replicate, sum};
ghost use Rattle.commonware_faults.specs.Counts.{GreatestFit};
ghost use Rattle.commonware_faults.specs.Subsets.{Greatest, OverlapAtLeast};
ghost use Rattle.committee_weights.specs.Tolerance.{GreatestMeeting, GreatestSafe, IsWeightTolerance};
ghost use Rattle.committee_weights.specs.Weights.{IsSafe, IsSubset, NoThreeCover, WeightedMeetsOutside, WeightedOverlap, weight};

/// What holds of all weights and of every k from 2 on: (total - 1) / k satisfies all that
/// `IsWeightTolerance` says of a total; the greatest number that is safe for all weights of a total
/// is the greatest with kf + 1 at most the total, which is the greatest by counting that many
/// participants; at a k of 3 it is the greatest f, too, for which any two quorums of all but f meet
/// outside any f, whatever they share; and where each participant weighs 1, what subsets share is
/// what they share by counting.
///
/// Of one list of weights, whatever it is: quorums of all but f meet outside any f exactly where no
/// three subsets of at most f cover all; those outside a subset of at most f make such a quorum;
/// and each number below a safe one is safe. More than (total - 1) / k may be safe for it: of the
/// weights 2 and 1, 1 is, since all subsets that weigh 2 or more have the first.
pub fn weight_law()
    ensures tolerance { (k total : ℕ) → 2 ≤ k → 1 ≤ total
        → IsWeightTolerance k total ((total - 1) / k) }
    ensures fit { (k total f : ℕ) → 2 ≤ k
        → (GreatestSafe k total f ↔ GreatestFit k total f) }
    ensures counting { (k n f : ℕ) → 2 ≤ k → (GreatestSafe k n f ↔ Greatest k n f) }
    ensures meeting { (total f : ℕ) → GreatestMeeting total f ↔ GreatestFit 3 total f }
    ensures ones { (n q s : ℕ)
        → WeightedOverlap (replicate n 1) q s ↔ OverlapAtLeast n q q s }
    ensures shares { (weights : List ℕ) (f : ℕ)
        → WeightedOverlap weights (sum weights - f) (sum weights - 2 * f) }
    ensures meets { (weights : List ℕ) (f : ℕ) → 3 * f + 1 ≤ sum weights
        → WeightedMeetsOutside weights (sum weights - f) f }
    ensures covers { (weights : List ℕ) (f : ℕ)
        → WeightedMeetsOutside weights (sum weights - f) f ↔ NoThreeCover weights f }
    ensures rest { (weights : List ℕ) (f : ℕ) (faulty : List Bool) → IsSubset weights faulty
        → weight weights faulty ≤ f → sum weights - f ≤ weight weights (map not faulty) }
    ensures two_thirds { (total : ℕ) → 1 ≤ total
        → total - (total - 1) / 3 ≡ 2 * total / 3 + 1 }
    ensures below { (k : ℕ) (weights : List ℕ) (f g : ℕ) → g ≤ f → IsSafe k weights f
        → IsSafe k weights g }
    ensures lumps { IsSafe 3 (2 ∷ 1 ∷ []) 1 }
{}
