//! Module `vec`: the last votes, and non-empty lists.
ghost use Rattle.std.specs.Prelude.{◌≡◌, ◌*◌, ◌-◌, ◌<◌, ◌≤◌, ◌++◌, ◌∷◌, [], IfErr, IfOk, MatchResult, None, Some, drop, length, map, min, slice_get, take};

use commonware_utils::vec::{Bounded, Error, Mutate, NonEmptyVec};
use std::alloc::Global;

/// Remembers a vote, and returns the one that is forgotten for it, or the vote itself after an
/// allocation failure.
pub fn remember(votes: &mut Bounded<u32, Global>, vote: u32) -> Result<Option<u32>, u32>
    ensures room { length votes.old.items < votes.old.capacity → MatchResult result
        (λ out. (out ≡ None) × (votes.new.items ≡ votes.old.items ++ vote ∷ []))
        (λ back. (back ≡ vote) × (votes.new.items ≡ votes.old.items)) }
    ensures full { votes.old.capacity ≤ length votes.old.items → MatchResult result
        (λ out. (out ≡ slice_get votes.old.items 0)
        × (votes.new.items ≡ drop 1 votes.old.items ++ vote ∷ []))
        (λ _. ⊥) }
{
    votes.push(vote)
}

/// The latest of the votes, of which there is at least one.
pub fn latest(votes: &NonEmptyVec<u32, Global>) -> u32
    ensures { slice_get votes.now (length votes.now - 1) ≡ Some result }
{
    *votes.last()
}

/// Forgets all votes but the first.
pub fn keep_the_first(votes: &mut NonEmptyVec<u32, Global>)
    ensures { votes.new ≡ take 1 votes.old }
{
    votes.mutate(|items| items.truncate(1))
}

/// Each vote twice.
pub fn doubled(votes: &NonEmptyVec<u32, Global>) -> Result<NonEmptyVec<u32, Global>, Error>
    ensures twice { IfOk result (λ list. list ≡ map (λ vote. min (vote * 2) 4294967295) votes.now) }
    ensures memory { IfErr result (λ error. error ≡ Error.Memory) }
{
    votes.map(
        |vote| -> u32
            ensures { result ≡ min (vote.now * 2) 4294967295 }
        { vote.saturating_mul(2) },
    )
}
