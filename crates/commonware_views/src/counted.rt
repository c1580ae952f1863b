//! Keys that can be compared only by a call that counts it, and the places where they are. A search
//! and a check of an order over these have no bytes at hand: each comparison is one of the two
//! calls below.
ghost use Rattle.std.specs.Prelude.{◌≡◌, ◌+◌, ◌<◌, ◌≤◌, ℕ, IfSome, List, length, slice_index_or};
ghost use Rattle.commonware_sequence.specs.FixedBytes.{bytes_cmp};

use commonware_ordered::Counter;
use commonware_sequence::Prefixed;
use std::cmp::Ordering;
use std::marker::Model;

/// A key that is compared by a call that counts it, and by no other: a function whose only bound on
/// its keys is this one can't compare two of them without the counter, and has no counter but the
/// one that it was passed.
pub(crate) trait CountedKey<C: Counter>: Drop {
    /// The bytes of the key.
    ghost bytes: { Self → List ℕ };

    /// Returns the order of two keys, and counts it.
    fn order(&self, other: &Self, counter: &mut C) -> Ordering
        ensures value { result ≡ bytes_cmp (bytes self.now) (bytes other.now) }
        ensures count { C.counted counter.new ≡ C.counted counter.old + C.step }
        ensures cost { C.counted counter.new ≤ C.counted counter.old + 1 };

    /// Returns the order of two keys where what is read of both tells it, and `None` elsewhere. It
    /// counts one comparison.
    fn order_by_prefix(&self, other: &Self, counter: &mut C) -> Option<Ordering>
        ensures some { IfSome result (λ order.
            order ≡ bytes_cmp (bytes self.now) (bytes other.now)) }
        ensures count { C.counted counter.new ≡ C.counted counter.old + C.step }
        ensures cost { C.counted counter.new ≤ C.counted counter.old + 1 };
}

/// Keys at places from 0 on.
pub(crate) trait Keys<C: Counter> {
    /// What is at a place.
    type Key: CountedKey<C>;

    /// The bytes of each key, in the order of the places.
    ghost keys: { Self → List (List ℕ) };

    /// Returns how many keys there are.
    fn count(&self) -> usize
        ensures { result ≡ length (keys self.now) };

    /// Returns the key at a place, which has one.
    fn key_at(&self, place: usize) -> Self::Key
        requires { place < length (keys self.now) }
        ensures { (d : List ℕ) → Self.Key.bytes result ≡ slice_index_or (keys self.now) place d };
}

/// A key in place, of which the first eight bytes are read once, as one number. It is seen as the
/// list of its bytes.
#[derive(Drop)]
pub(crate) struct PrefixedKey<'a> {
    bytes: Prefixed<'a>,
}

impl<'a> Model for PrefixedKey<'a> {
    ghost use Rattle.std.specs.Prelude.{ℕ, List};

    ghost Value = { List ℕ };

    ghost view = { λ key. key.bytes };
}

impl<'a> PrefixedKey<'a> {
    /// Returns the key of these bytes.
    #[inline(always)]
    pub(crate) fn new(bytes: &'a [u8]) -> Self
        ensures { result ≡ bytes.now }
    {
        PrefixedKey {
            bytes: Prefixed::new(bytes),
        }
    }
}

impl<'a, C: Counter> CountedKey<C> for PrefixedKey<'a> {
    ghost bytes = { λ key. key };

    #[inline(always)]
    fn order(&self, other: &Self, counter: &mut C) -> Ordering {
        counter.tick();
        self.bytes.order(&other.bytes)
    }

    #[inline(always)]
    fn order_by_prefix(&self, other: &Self, counter: &mut C) -> Option<Ordering> {
        counter.tick();
        self.bytes.order_by_prefix(&other.bytes)
    }
}
