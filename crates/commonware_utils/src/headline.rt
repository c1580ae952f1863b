//! The library's main theorem, as three calls whose contracts are its three parts: canonical
//! encodings, exact decoding, and the numbers of the fault models.
//!
//! Each part follows from the public contracts of the calls below it, and from nothing else.
ghost use Rattle.std.specs.Prelude.{◌≡◌, ◌-◌, ◌≤◌, ◌↔◌, ℕ, List, IfErr, IfOk, true};
ghost use Rattle.std.specs.Cmp.Lexicographic.{pointwise};
ghost use Rattle.commonware_utils.specs.Codec.{Accepts, Refuses, list_enc};
ghost use Rattle.commonware_utils.specs.Faults.{Greatest3, Greatest5, IsFaultTolerance};
ghost use Rattle.commonware_utils.specs.Ordered.{IsWritableBiMap, IsWritableMap, IsWritableSet};
ghost use Rattle.commonware_utils.specs.Ordered.{are_equal_pairs, map_enc};

use crate::codec::{Canonical, Error, Read, Source};
use crate::faults::{Faults, N3f1, N5f1, Resilience, resilience_law};
use crate::ordered::{BiMap, Map, Set};
use std::alloc::Allocator;
use std::hash::Hash;

/// Encodings are canonical: two writable values are equal exactly where their encodings are.
/// `equal_sets`, `equal_maps` and `equal_bimaps` are three instances.
pub fn equal_by_bytes<T: Canonical>()
    ensures { (x y : T) → T.writable x → T.writable y
        → (T.eq x y ≡ true) ↔ (T.enc x ≡ T.enc y) }
{}

/// Two writable sets are equal exactly where their encodings are, whatever their items are.
pub fn equal_sets<T: Ord + Canonical, A: Allocator>()
    ensures { (x y : List T)
        → IsWritableSet T.writable T.cmp x → IsWritableSet T.writable T.cmp y
        → (pointwise T.eq x y ≡ true) ↔ (list_enc T.enc x ≡ list_enc T.enc y) }
{
    equal_by_bytes::<Set<T, A>>()
}

/// Two writable maps are equal exactly where their encodings are, whatever their keys and values
/// are.
pub fn equal_maps<K: Ord + Canonical, V: Canonical, A: Allocator>()
    ensures { (x y : List (K × V))
        → IsWritableMap K.writable K.cmp V.writable x → IsWritableMap K.writable K.cmp V.writable y
        → (are_equal_pairs K.eq V.eq x y ≡ true) ↔ (map_enc K.enc V.enc x ≡ map_enc K.enc V.enc y) }
{
    equal_by_bytes::<Map<K, V, A>>()
}

/// Two writable bimaps are equal exactly where their encodings are, whatever their keys and values
/// are.
pub fn equal_bimaps<K: Ord + Canonical, V: Canonical + Hash, A: Allocator>()
    ensures { (x y : List (K × V))
        → IsWritableBiMap K.writable K.cmp V.writable V.eq x
        → IsWritableBiMap K.writable K.cmp V.writable V.eq y
        → (are_equal_pairs K.eq V.eq x y ≡ true) ↔ (map_enc K.enc V.enc x ≡ map_enc K.enc V.enc y) }
{
    equal_by_bytes::<BiMap<K, V, A>>()
}

/// Decodes the value at the start of the input, and returns it with the rest of the input.
///
/// Allocation failures aside, the inputs that are accepted are exactly the encodings of writable
/// values within the limits, with anything after them.
pub fn decode<'a, T: Read<A>, A: Allocator>(
    alloc: A,
    input: &'a [u8],
    limits: &T::Cfg,
) -> Result<(T, &'a [u8]), Error>
    ensures accepted { IfOk result (λ p.
        Accepts T.enc T.writable (T.allowed limits.now) input.now p.0 p.1.now) }
    ensures only { IfErr result (Refuses
        (λ _. (v : T) (rest : List ℕ)
        → ¬ Accepts T.enc T.writable (T.allowed limits.now) input.now v rest)
        (T.memory_free limits.now input.now)) }
{
    let mut source = Source::new(input);
    let value = T::read_cfg(alloc, &mut source, limits)?;
    Ok((value, source.rest()))
}

/// The numbers of a fault model for some participants. For 6 participants under `N3f1`,
/// `max_faults` is 1 and `quorum` is 5.
#[derive(Clone, Copy, Debug, PartialEq, Eq)]
pub struct Numbers {
    /// How many of them may be faulty.
    pub max_faults: u32,
    /// How many of them make a quorum.
    pub quorum: u32,
}

/// Returns the numbers of a fault model of a resilience `n >= kf + 1` for `n` participants, one of
/// your own among them. It requires that `n` is at least 1.
///
/// The faults are the greatest f for which any two subsets of n - f share at least (k - 2)f + 1,
/// with all that `IsFaultTolerance` says; a quorum is n - f.
pub fn resilience_numbers<M: Resilience>(n: u32) -> Numbers
    requires { 1 ≤ n }
    ensures value { result.max_faults ≡ M.faults n }
    ensures faults { IsFaultTolerance M.factor n result.max_faults }
    ensures quorum { result.quorum ≡ n - result.max_faults }
{
    resilience_law::<M>();
    Numbers {
        max_faults: M::max_faults(n),
        quorum: M::quorum(n),
    }
}

/// Returns the numbers of both models for `n` participants, `N3f1` first and then `N5f1`. It
/// requires that `n` is at least 1.
///
/// The faults of `N3f1` are the greatest f for which any two subsets of n - f share at least
/// f + 1, those of `N5f1` the greatest for which they share at least 3f + 1; a quorum is n - f.
pub fn fault_numbers(n: u32) -> (Numbers, Numbers)
    requires { 1 ≤ n }
    ensures n3f1 { Greatest3 n result.0.max_faults }
    ensures n3f1_quorum { result.0.quorum ≡ n - result.0.max_faults }
    ensures n5f1 { Greatest5 n result.1.max_faults }
    ensures n5f1_quorum { result.1.quorum ≡ n - result.1.max_faults }
{
    let thirds = Numbers {
        max_faults: N3f1::max_faults(n),
        quorum: N3f1::quorum(n),
    };
    let fifths = Numbers {
        max_faults: N5f1::max_faults(n),
        quorum: N5f1::quorum(n),
    };
    (thirds, fifths)
}
