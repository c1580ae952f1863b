//! Participants that are accused for the first time.
ghost use Rattle.std.specs.Prelude.{◌≡◌, ◌<◌, ◌≤◌, ℕ, Contains, IfNone, IfSome, IsSome, length};
ghost use Rattle.committee_certificates.specs.Signers.{LeavesOneOutside};

use commonware_base::Participant;
use commonware_ordered::Set;
use std::alloc::Allocator;

/// Returns the least of some participants that isn't among those that are known already, or `None`
/// where all of them are: of 1, 2 and 3, where 1 and 3 are known, it is 2.
///
/// Where any f members leave one of the participants outside, as `conflict` says of those it
/// names, and at most f are known, it returns one.
pub fn first_new<A: Allocator, B: Allocator>(
    accused: &Set<Participant, A>,
    known: &Set<Participant, B>,
) -> Option<Participant>
    ensures found { IfSome result (λ new. Contains accused.now new × (¬ Contains known.now new)) }
    ensures least { IfSome result (λ new. (earlier : ℕ) → earlier < new
        → Contains accused.now earlier → Contains known.now earlier) }
    ensures none { IfNone result ((participant : ℕ) → Contains accused.now participant
        → Contains known.now participant) }
    ensures outlasts { (n f : ℕ) → LeavesOneOutside n f accused.now → length known.now ≤ f
        → IsSome result }
{
    for participant in accused.as_slice() {
        if !known.contains(participant) {
            return Some(*participant);
        }
    }
    None
}
