//! The encoding of a set, which is that of the list of its items.
ghost use Rattle.std.specs.Prelude.{◌≡◌, ◌+◌, ◌-◌, ◌*◌, ◌<◌, ◌≤◌, ◌^◌, ℕ, List, OnErr, IfOk, IfErr, length};
ghost use Rattle.commonware_base.specs.Fault.{Fault};
ghost use Rattle.commonware_base.specs.Lists.{list_enc, IsAllowedList, IsListMemoryFree};
ghost use Rattle.commonware_base.specs.laws.ListLaws.{list_bytes};
ghost use Rattle.commonware_base.specs.Range.{Within};
ghost use Rattle.commonware_base.specs.Refusal.{Refuses};
ghost use Rattle.commonware_base.specs.Source.{rest_of, Consumes};
ghost use Rattle.commonware_base.specs.Varint.{varint_size};
ghost use Rattle.commonware_ordered.specs.Costs.{IsOrderCost, IsReadCost, IsWholeOrderCost, StatesLength};
ghost use Rattle.commonware_ordered.specs.Sets.{IsWritableSet, SetFault, set_case};
ghost use Rattle.commonware_ordered.specs.laws.SetLaws.{set_prefix_free, set_laws, set_canonical};

use super::Set;
use crate::counted::CountedOrd;
use crate::counter::{Counter, Uncounted};
use commonware_base::codec::{
    Canonical, EncodeSize, Error, MaxEncodeSize, RangeCfg, Read, Source, UInt, Write, read_list,
};
use std::alloc::{AllocError, Allocator};

impl<T: Ord + EncodeSize, A: Allocator> EncodeSize for Set<T, A> {
    ghost enc = { list_enc T.enc };

    ghost writable = { IsWritableSet T.writable T.cmp };

    ghost prefix_free = { set_prefix_free T.enc T.writable T.cmp T.prefix_free };

    ghost text_of_bytes = { λ v h. list_bytes T.enc T.writable T.text_of_bytes v h.list };

    fn encode_size(&self) -> usize {
        self.items.encode_size()
    }

    fn is_writable(&self) -> bool {
        self.items.is_writable()
    }
}

impl<T: Ord + Write<A>, A: Allocator> Write<A> for Set<T, A> {
    #[inline(always)]
    fn write(&self, sink: &mut Vec<u8, A>) -> Result<(), AllocError> {
        self.items.write(sink)
    }
}

impl<T: Ord + Canonical + Read<A> + Drop, A: Allocator + Copy> Read<A> for Set<T, A> {
    type Cfg = (RangeCfg<usize>, T::Cfg);

    ghost allowed = { λ c. IsAllowedList c.0 (T.allowed c.1) };

    ghost fault = { λ c. SetFault T.enc T.writable T.cmp (T.allowed c.1) (T.fault c.1) c.0 };

    ghost memory_free = { λ c. IsListMemoryFree (T.fault c.1) (T.memory_free c.1) c.0 };

    ghost read_laws = { λ alloc c. set_laws T.enc T.writable T.cmp T.prefix_free T.eq T.total
        T.matches_eq T.canonical (T.allowed c.1) (T.fault c.1) c.0 (T.read_laws alloc c.1) };

    fn read_cfg(alloc: A, src: &mut Source<'_>, cfg: &Self::Cfg) -> Result<Set<T, A>, Error> {
        read_set_counted::<T, A, Uncounted>(alloc, src, cfg.0, &cfg.1, &mut Uncounted)
    }
}

impl<T: Ord + Canonical, A: Allocator> Canonical for Set<T, A> {
    ghost canonical = { set_canonical T.enc T.writable T.cmp T.prefix_free T.eq T.total
        T.matches_eq T.canonical };
}

impl<T: Ord + MaxEncodeSize, A: Allocator> Set<T, A> {
    /// Returns the most bytes that the encoding of a set of at most `len` items can have: the size
    /// of `len` as a varint, and `len` times the bound of an item. It requires that `len` is at
    /// most 4294967295, and that the result fits a `usize`.
    /// ```
    /// assert!(rt; Set::<u8, Global>::max_encode_size(200) == 202);
    /// ```
    pub fn max_encode_size(len: usize) -> usize
        requires short { len < 2 ^ 32 }
        requires fits { varint_size len + len * T.MAX_ENCODE_SIZE < 2 ^ 64 }
        ensures size { result ≡ varint_size len + len * T.MAX_ENCODE_SIZE }
        ensures enough { (items : List T) → IsWritableSet T.writable T.cmp items
            → length items ≤ len → length (list_enc T.enc items) ≤ result }
    {
        UInt(len as u32).encode_size() + len * T::MAX_ENCODE_SIZE
    }
}

/// The error cases in which an input is no set exclude one another: no input has a fault of the
/// list and one of the order.
pub fn set_fault_law<T: Ord + Canonical + Read<A>, A: Allocator>(
    alloc: A,
    range: RangeCfg<usize>,
    item: &T::Cfg,
)
    ensures { (s : List ℕ) (f g : Fault)
        (v : SetFault T.enc T.writable T.cmp (T.allowed item.now) (T.fault item.now) range s f)
        (w : SetFault T.enc T.writable T.cmp (T.allowed item.now) (T.fault item.now) range s g)
        → set_case v ≡ set_case w }
{
    // They are named so that no parameter is unused: only the contract speaks of them.
    let _ = (alloc, range);
}

/// Decodes a set under a range for its length and a configuration for its items. The order is
/// checked once the whole list is read, so a fault of a later item comes before that of the order.
///
/// It counts its comparisons of items: whatever the input, none, or fewer than the length that the
/// input states and than the most items that the range allows; none where the input doesn't begin
/// with such a list; and none after the first item that isn't less than the next. In a set that it
/// returns each item was compared with the next, and counted.
pub fn read_set_counted<T: CountedOrd<C> + Read<A> + Drop, A: Allocator + Copy, C: Counter>(
    alloc: A,
    src: &mut Source<'_>,
    range: RangeCfg<usize>,
    item: &T::Cfg,
    count: &mut C,
) -> Result<Set<T, A>, Error>
    ensures consumed { IfOk result (λ v. Consumes src.old src.new (list_enc T.enc v)) }
    ensures writable { IfOk result (IsWritableSet T.writable T.order) }
    ensures allowed { IfOk result (IsAllowedList range (T.allowed item.now)) }
    ensures refused { let text = rest_of src.old in IfErr result (Refuses
        (SetFault T.enc T.writable T.order (T.allowed item.now) (T.fault item.now) range text)
        (IsListMemoryFree (T.fault item.now) (T.memory_free item.now) range text)) }
    ensures stays { OnErr result (src.new ≡ src.old) }
    ensures cost { (most : ℕ) → ((n : ℕ) → Within range n → n ≤ most)
        → IsOrderCost most (C.counted count.old) (C.counted count.new) }
    ensures cost_ok { IfOk result (λ v.
        IsOrderCost (length v) (C.counted count.old) (C.counted count.new)) }
    ensures stops { IsReadCost T.enc T.order (rest_of src.old)
        (C.counted count.old) (C.counted count.new) }
    ensures stated { (n : ℕ) → StatesLength (rest_of src.old) n
        → IsOrderCost n (C.counted count.old) (C.counted count.new) }
    ensures least { IfOk result (λ v.
        IsWholeOrderCost C.step (length v) (C.counted count.old) (C.counted count.new)) }
{
    let mut here = *src;
    let items = read_list::<T, A>(alloc, &mut here, range, item)?;
    let Some(set) = Set::checked(items, count) else {
        return Err(Error::Invalid("Set", "items must be sorted and unique"));
    };
    *src = here;
    Ok(set)
}
