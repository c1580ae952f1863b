//! The encoding of a non-empty list, which is that of the list of its items.
ghost use Rattle.std.specs.Prelude.{◌≡◌, ℕ, List};
ghost use Rattle.commonware_base.specs.Fault.{Fault};
ghost use Rattle.commonware_base.specs.laws.ListLaws.{list_bytes};
ghost use Rattle.commonware_base.specs.Lists.{list_enc, IsAllowedList, IsListMemoryFree};
ghost use Rattle.commonware_base.specs.Range.{as_numbers};
ghost use Rattle.commonware_vec.specs.NonEmpty.{IsWritableNonEmpty, NonEmptyFault, non_empty_case};
ghost use Rattle.commonware_vec.specs.laws.NonEmptyLaws.{non_empty_canonical, non_empty_laws, non_empty_prefix_free};

use super::NonEmptyVec;
use commonware_base::codec::{
    Canonical, EncodeSize, Error, RangeCfg, Read, Source, Write, read_list,
};
use std::alloc::{AllocError, Allocator};
use std::num::NonZeroUsize;

impl<T: EncodeSize, A: Allocator> EncodeSize for NonEmptyVec<T, A> {
    ghost enc = { list_enc T.enc };

    ghost writable = { IsWritableNonEmpty T.writable };

    ghost prefix_free = { non_empty_prefix_free T.enc T.writable T.prefix_free };

    ghost text_of_bytes = { λ v h. list_bytes T.enc T.writable T.text_of_bytes v h.list };

    fn encode_size(&self) -> usize {
        self.items.encode_size()
    }

    fn is_writable(&self) -> bool {
        self.items.is_writable()
    }
}

impl<T: Write<A>, A: Allocator> Write<A> for NonEmptyVec<T, A> {
    fn write(&self, sink: &mut Vec<u8, A>) -> Result<(), AllocError> {
        self.items.write(sink)
    }
}

impl<T: Read<A> + Drop, A: Allocator + Copy> Read<A> for NonEmptyVec<T, A> {
    type Cfg = (RangeCfg<NonZeroUsize>, T::Cfg);

    ghost allowed = { λ c. IsAllowedList (as_numbers c.0) (T.allowed c.1) };

    ghost fault = { λ c.
        NonEmptyFault T.enc T.writable (T.allowed c.1) (T.fault c.1) (as_numbers c.0) };

    ghost memory_free = { λ c.
        IsListMemoryFree (T.fault c.1) (T.memory_free c.1) (as_numbers c.0) };

    ghost read_laws = { λ alloc c. non_empty_laws T.enc T.writable T.prefix_free (T.allowed c.1)
        (T.fault c.1) (as_numbers c.0) (T.read_laws alloc c.1) };

    /// Decodes a list, which must have an item.
    fn read_cfg(
        alloc: A,
        src: &mut Source<'_>,
        cfg: &Self::Cfg,
    ) -> Result<NonEmptyVec<T, A>, Error> {
        let mut here = *src;
        let range = RangeCfg::<usize>::from(cfg.0);
        let items = read_list::<T, A>(alloc, &mut here, range, &cfg.1)?;
        if items.is_empty() {
            return Err(Error::Invalid("NonEmptyVec", "cannot decode empty vector"));
        }
        *src = here;
        Ok(NonEmptyVec { items })
    }
}

impl<T: Canonical, A: Allocator> Canonical for NonEmptyVec<T, A> {
    ghost canonical = { non_empty_canonical T.enc T.writable T.prefix_free T.eq T.canonical };
}

/// The error cases in which an input is no list that has an item exclude one another: no input has
/// a fault of the list and is an empty list.
pub fn non_empty_fault_law<T: Read<A>, A: Allocator>(
    alloc: A,
    range: RangeCfg<NonZeroUsize>,
    item: &T::Cfg,
)
    ensures { let numbers = as_numbers range in (s : List ℕ) (f g : Fault)
        (v : NonEmptyFault T.enc T.writable (T.allowed item.now) (T.fault item.now) numbers s f)
        (w : NonEmptyFault T.enc T.writable (T.allowed item.now) (T.fault item.now) numbers s g)
        → non_empty_case v ≡ non_empty_case w }
{
    // They are named so that no parameter is unused: only the contract speaks of them.
    let _ = (alloc, range);
}
