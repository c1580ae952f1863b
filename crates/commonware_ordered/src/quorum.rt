//! Sets of participants as committees.
ghost use Rattle.std.specs.Prelude.{◌≡◌, ◌+◌, ◌≤◌, ◌^◌, ◌↔◌, ℕ, List, Some, length, pos};
ghost use Rattle.std.specs.Slice.{IsItemAt};
ghost use Rattle.commonware_faults.specs.Counts.{IsCommitteeSize};
ghost use Rattle.commonware_ordered.specs.Costs.{IsLookUpCost};
ghost use Rattle.commonware_ordered.specs.Strict.{HasEqualAt, IsPlaceOf};

use crate::counted::{CountedOrd, Order};
use crate::counter::{Counter, Uncounted};
use crate::set::Set;
use commonware_base::Participant;
use commonware_faults::Faults;
use std::alloc::Allocator;

/// A committee: its members in order, each with its index, and its numbers under a fault model. In
/// the set of 1, 3, 5 and 9 the key of index 2 is 5, and 4 has no index.
pub trait Quorum {
    /// What the members are.
    type Item: Ord;

    /// The members in order.
    ghost members: { Self → List Self.Item };

    /// Returns how many members make a quorum under the fault model. It requires that there are 1
    /// to `u32::MAX` members.
    fn quorum<M: Faults>(&self) -> u32
        requires { IsCommitteeSize (pos (length (members self.now))) }
        ensures { result + M.faults (length (members self.now)) ≡ length (members self.now) };

    /// Returns how many members may be faulty under the fault model. It requires that there are 1
    /// to `u32::MAX` members.
    fn max_faults<M: Faults>(&self) -> u32
        requires { IsCommitteeSize (pos (length (members self.now))) }
        ensures { result ≡ M.faults (length (members self.now)) };

    /// Returns the member at an index, or `None` past the last.
    fn key(&self, index: Participant) -> Option<&Self::Item>
        ensures { IsItemAt (members self.now) index result };

    /// Returns the index of the member that equals `key`, or `None` where none does. It requires
    /// that all indices fit a `u32`: there are at most 4294967296 members. The member at an index
    /// equals `key` exactly where the index is the one returned.
    fn index(&self, key: &Self::Item) -> Option<Participant>
        requires { length (members self.now) ≤ 2 ^ 32 }
        ensures place { IsPlaceOf Self.Item.eq (members self.now) key.now result }
        ensures only { (p : ℕ)
            → (result ≡ Some p) ↔ HasEqualAt Self.Item.eq (members self.now) key.now p };
}

impl<T: Ord, A: Allocator> Quorum for Set<T, A> {
    type Item = T;

    ghost members = { λ items. items };

    fn quorum<M: Faults>(&self) -> u32 {
        M::quorum(self.len())
    }

    fn max_faults<M: Faults>(&self) -> u32 {
        M::max_faults(self.len())
    }

    fn key(&self, index: Participant) -> Option<&T> {
        self.get(usize::from(index))
    }

    fn index(&self, key: &T) -> Option<Participant> {
        self.index_counted(key, &mut Uncounted)
    }
}

impl<T: Order, A: Allocator> Set<T, A> {
    /// Returns what `index` of `Quorum` does, and counts its comparisons: of n members, where n has
    /// k binary digits, at most 1 + 3k/2. It requires that all indices fit a `u32`.
    /// ```
    /// let set = Set::try_from_array(alloc, [5u8, 1, 3])?;
    /// assert!(rt; set.index_counted(&3, &mut Uncounted) == Some(Participant::new(1)));
    /// ```
    #[inline(always)]
    pub fn index_counted<C: Counter>(&self, key: &T, count: &mut C) -> Option<Participant>
    where
        T: CountedOrd<C>,
        requires { length self.now ≤ 2 ^ 32 }
        ensures place { IsPlaceOf T.same self.now key.now result }
        ensures only { (p : ℕ) → (result ≡ Some p) ↔ HasEqualAt T.same self.now key.now p }
        ensures cost { IsLookUpCost (length self.now) (C.counted count.old) (C.counted count.new) }
    {
        let place = self.position_counted(key, count)?;
        Some(Participant::from_usize(place))
    }
}
