//! Values of which no two are equal.
ghost use Rattle.std.specs.Prelude.{◌≡◌, ◌↔◌, [], IfOk, IsOk, IsTrue};
ghost use Rattle.commonware_ordered.specs.Whole.{HasEqualItems};

use std::alloc::{AllocError, Allocator};
use std::collections::HashSet;
use std::hash::Hash;

/// Returns whether two positions hold equal values. Each value is looked up among those before it
/// in a hash set: linear time, unless hashes collide. It allocates for as many references, and for
/// no values nothing; the error is an allocation failure.
pub fn has_equal_values<V: Eq + Hash, A: Allocator + Copy>(
    alloc: A,
    values: &[V],
) -> Result<bool, AllocError>
    ensures found { IfOk result (λ found. IsTrue found ↔ HasEqualItems V.eq values.now) }
    ensures empty { values.now ≡ [] → IsOk result }
{
    let mut seen = HashSet::new(alloc);
    seen.reserve(values.len())?;
    for value in values {
        if !seen.insert(value)? {
            return Ok(true);
        }
    }
    Ok(false)
}
