//! How many items a value has.
ghost use Rattle.std.specs.Prelude.{◌≡◌, ℕ, length, vec_len};

use committee_certificates::Certificate;
use commonware_utils::Participant;
use commonware_utils::codec::UInt;
use commonware_utils::ordered::{BiMap, Map, Set};
use commonware_utils::sequence::{FixedBytes, U64};
use commonware_utils::vec::NonEmptyVec;
use std::alloc::Allocator;
use std::hash::Hash;

/// A type whose values have a number of items: a collection has those of its outermost list, a
/// certificate its signers, and everything else counts as one.
///
/// The set of 5 and 9 has 2 items, and the number 7 is one.
pub trait CountItems {
    /// How many items the value has.
    ghost items: { Self → ℕ };

    /// How many items the value has.
    fn count(&self) -> usize
        ensures { result ≡ items self.now };
}

impl CountItems for u8 {
    ghost items = { λ _. 1 };

    fn count(&self) -> usize {
        1
    }
}

impl CountItems for u32 {
    ghost items = { λ _. 1 };

    fn count(&self) -> usize {
        1
    }
}

impl CountItems for U64 {
    ghost items = { λ _. 1 };

    fn count(&self) -> usize {
        1
    }
}

impl CountItems for usize {
    ghost items = { λ _. 1 };

    fn count(&self) -> usize {
        1
    }
}

impl CountItems for UInt {
    ghost items = { λ _. 1 };

    fn count(&self) -> usize {
        1
    }
}

impl CountItems for Participant {
    ghost items = { λ _. 1 };

    fn count(&self) -> usize {
        1
    }
}

impl<const N: usize> CountItems for FixedBytes<N> {
    ghost items = { λ _. 1 };

    fn count(&self) -> usize {
        1
    }
}

impl<T, A: Allocator> CountItems for Vec<T, A> {
    ghost items = { vec_len };

    fn count(&self) -> usize {
        self.len()
    }
}

impl<T: Ord, A: Allocator> CountItems for Set<T, A> {
    ghost items = { length };

    fn count(&self) -> usize {
        self.len()
    }
}

impl<K: Ord, V, A: Allocator> CountItems for Map<K, V, A> {
    ghost items = { length };

    fn count(&self) -> usize {
        self.len()
    }
}

impl<K: Ord, V: Eq + Hash, A: Allocator> CountItems for BiMap<K, V, A> {
    ghost items = { length };

    fn count(&self) -> usize {
        self.len()
    }
}

impl<T, A: Allocator> CountItems for NonEmptyVec<T, A> {
    ghost items = { length };

    fn count(&self) -> usize {
        self.len().get()
    }
}

impl<A: Allocator> CountItems for Certificate<A> {
    ghost items = { λ certificate. length certificate.signers };

    fn count(&self) -> usize {
        self.signers.len()
    }
}
