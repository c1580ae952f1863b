//! Module `ordered`: the powers of the members, and whose each key is.
ghost use Rattle.std.specs.Prelude.{◌≡◌, ◌==◌, ◌↔◌, ◌≤◌, ℕ, [], IsOk, IsSomeAnd, MatchResult, length, true};
ghost use Rattle.std.specs.Map.{lookup, values_of};
ghost use Rattle.commonware_utils.specs.Ordered.{HasEqualItems, MatchError};
ghost use Rattle.commonware_utils.specs.Ordered.{IsWholeBiMap, IsWholeSetOfClones, on_both, on_keys};

use commonware_utils::ordered::{BiMap, Error, Map};
use std::alloc::Global;

/// The powers of the members, none of whom may be named twice.
pub fn powers(alloc: Global, members: &[(u32, u64)]) -> Result<Map<u32, u64, Global>, Error>
    ensures { IsWholeSetOfClones (on_keys ◌==◌) (on_keys ⟦<u32 as Ord>⟧.cmp)
        (on_both ⟦<u32 as Clone>⟧.is_clone ⟦<u64 as Clone>⟧.is_clone) members.now result }
{
    Map::try_from_slice(alloc, members)
}

/// The keys of the members. No two members share one, and none is named twice.
pub fn registry(members: Vec<(u32, u64)>) -> Result<BiMap<u32, u64, Global>, Error>
    ensures { IsWholeBiMap (λ k l. k == l) ⟦<u32 as Ord>⟧.cmp (λ v w. v == w) members.items result }
{
    BiMap::try_from_vec(members)
}

/// The keys of the members, or `DuplicateValue` where two of them share one.
pub fn registry_of(keys: Map<u32, u64, Global>) -> Result<BiMap<u32, u64, Global>, Error>
    ensures whole { MatchResult result
        (λ b. (b ≡ keys) × (¬ HasEqualItems ◌==◌ (values_of keys)))
        (λ error. MatchError error ⊥ (HasEqualItems ◌==◌ (values_of keys)) (1 ≤ length keys)) }
    ensures empty { keys ≡ [] → IsOk result }
{
    BiMap::try_from_map(keys)
}

/// The member that a key belongs to, or `None` where it belongs to none.
pub fn owner(keys: &BiMap<u32, u64, Global>, key: u64) -> Option<u32>
    ensures { (member : ℕ) → IsSomeAnd result (λ k. (k == member) ≡ true)
        ↔ IsSomeAnd (lookup (λ k. k == member) keys.now) (λ held. (held == key) ≡ true) }
{
    keys.get_key(&key).copied()
}
