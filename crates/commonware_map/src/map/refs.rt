//! Maps where the set of their keys is expected.
ghost use Rattle.std.specs.Prelude.{◌≡◌};
ghost use Rattle.std.specs.Map.{keys_of};

use super::Map;
use commonware_ordered::Set;
use std::alloc::Allocator;
use std::convert::AsRef;
use std::ops::Deref;

impl<K: Ord, V, A: Allocator> Deref for Map<K, V, A> {
    type Target = Set<K, A>;

    ghost deref_gives = { λ m keys. keys ≡ keys_of m };

    /// Returns the keys.
    fn deref(&self) -> &Set<K, A> {
        self.keys()
    }
}

impl<K: Ord, V, A: Allocator> AsRef<Set<K, A>> for Map<K, V, A> {
    /// Returns the keys.
    fn as_ref(&self) -> &Set<K, A>
        ensures { result.now ≡ keys_of self.now }
    {
        self.keys()
    }
}
