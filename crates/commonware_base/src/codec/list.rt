//! Lists of items that have an encoding: the length, and then each item.
ghost use Rattle.std.specs.Prelude.{◌≡◌, ℕ, ◌+◌, ◌<◌, ◌≤◌, ◌++◌, ◌∷◌, [], vec_capacity, vec_len, List, length, OnOk, OnErr, IfOk, IfErr};
ghost use Rattle.std.specs.List.{AllByRecursion, flat_map};
ghost use Rattle.std.specs.Cmp.Lexicographic.{pointwise};
ghost use Rattle.commonware_base.specs.Refusal.{Refuses};
ghost use Rattle.commonware_base.specs.Lists.{list_enc, IsWritableList, IsAllowedList, ListFault, IsListMemoryFree};
ghost use Rattle.commonware_base.specs.laws.ListLaws.{list_prefix_free, list_laws, list_canonical, list_bytes};
ghost use Rattle.commonware_base.specs.laws.VecLaws.{vec_of};
ghost use Rattle.commonware_base.specs.Source.{rest_of, Consumes};
ghost use Rattle.commonware_base.specs.laws.TextLaws.{prefix_free_on, laws_on, canonical_on};

use crate::codec::config::RangeCfg;
use crate::codec::error::Error;
use crate::codec::source::Source;
use crate::codec::traits::{Canonical, EncodeSize, Read, Write};
use crate::codec::varint::{push_varint, read_varint, varint_size};
use std::alloc::{AllocError, Allocator};
use std::mem::size_of;

impl<T: EncodeSize, A: Allocator> EncodeSize for Vec<T, A> {
    ghost enc = { λ v. list_enc T.enc v.items };

    ghost writable = { λ v. IsWritableList T.writable v.items };

    ghost prefix_free = { prefix_free_on (λ v. v.items) (list_enc T.enc)
        (IsWritableList T.writable) (list_prefix_free T.enc T.writable T.prefix_free) };

    ghost text_of_bytes = { λ v h. list_bytes T.enc T.writable T.text_of_bytes v.items h };

    fn encode_size(&self) -> usize {
        let mut size = varint_size(self.len() as u32);
        for item in self {
            size += item.encode_size();
        }
        size
    }

    fn is_writable(&self) -> bool {
        if self.len() > u32::MAX as usize {
            return false;
        }
        for item in self {
            if !item.is_writable() {
                return false;
            }
        }
        true
    }
}

/// Appends the bytes of the items. After an allocation failure, some of them may be in the sink.
#[inline(always)]
fn push_items<T: Write<A>, A: Allocator>(
    sink: &mut Vec<u8, A>,
    items: &[T],
) -> Result<(), AllocError>
    requires { AllByRecursion T.writable items.now }
    ensures ok { OnOk result (sink.new.items ≡ sink.old.items ++ flat_map T.enc items.now) }
    ensures err { OnErr result ((more : List ℕ) × (sink.new.items ≡ sink.old.items ++ more)) }
{
    for item in items {
        item.write(sink)?;
    }
    Ok(())
}

/// Appends the bytes of the list. After an allocation failure, some of them may be in the sink.
///
/// Items of a type that writes many at once are written so. For other types, once the first item is
/// written, room is reserved for the others, as if each took as many bytes as the first, but for no
/// more bytes than they take in memory.
///
/// It is inlined, and so are its loop and its caller, so that a loop over a list that the caller
/// holds keeps the length in a register.
#[inline(always)]
fn push_list<T: Write<A>, A: Allocator>(
    sink: &mut Vec<u8, A>,
    items: &[T],
) -> Result<(), AllocError>
    requires { IsWritableList T.writable items.now }
    ensures ok { OnOk result (sink.new.items ≡ sink.old.items ++ list_enc T.enc items.now) }
    ensures err { OnErr result ((more : List ℕ) × (sink.new.items ≡ sink.old.items ++ more)) }
{
    push_varint(sink, items.len() as u32)?;
    match T::write_at_once(items, sink) {
        Some(written) => return written,
        None => {}
    }
    let Some((first, others)) = items.split_first() else {
        return Ok(());
    };
    let start = sink.len();
    first.write(sink)?;
    let alike = (sink.len() - start).saturating_mul(others.len());
    sink.reserve(alike.min(others.len() * size_of::<T>()))?;
    push_items(sink, others)
}

impl<T: Write<A>, A: Allocator> Write<A> for Vec<T, A> {
    #[inline(always)]
    fn write(&self, sink: &mut Vec<u8, A>) -> Result<(), AllocError> {
        let start = sink.len();
        match push_list(sink, self.as_slice()) {
            Ok(()) => Ok(()),
            Err(error) => {
                sink.truncate(start);
                Err(error)
            }
        }
    }
}

/// The most items of a list for which room is reserved with the first, whatever the input states.
const MOST_ROOM: usize = 1024;

/// What an input tells about the room for its items: the length that it states, and how many bytes
/// follow.
#[derive(Clone, Copy)]
struct Stated {
    count: usize,
    bytes: usize,
}

/// For how many items room is reserved with the first one.
fn first_room(stated: Stated) -> usize
    ensures { 1 ≤ result }
{
    stated.count.min(stated.bytes).min(MOST_ROOM).max(1)
}

/// Reserves room for more items, where `left` bytes are left: for no more than are stated, and for
/// no more than the bytes hold, if each takes as many as those that were read.
#[cold]
#[inline(never)]
fn make_room<T, A: Allocator>(
    items: &mut Vec<T, A>,
    stated: Stated,
    left: usize,
) -> Result<(), AllocError>
    ensures items { items.new.items ≡ items.old.items }
    ensures room { OnOk result (vec_len items.new < vec_capacity items.new) }
{
    let held = items.len();
    let taken = stated.bytes.saturating_sub(left);
    let each = (taken / held.saturating_add(1)).max(1);
    let others = stated.count.saturating_sub(held);
    items.reserve(others.min((left / each).saturating_add(1)).max(1))
}

/// Returns the list with another item last, after which `left` bytes are left.
///
/// The list goes in and out by value, and only a full one is mutably borrowed, so that a loop keeps
/// the length in a register.
#[inline(always)]
fn put<T: Drop, A: Allocator>(
    alloc: A,
    items: Vec<T, A>,
    value: T,
    stated: Stated,
    left: usize,
) -> Result<Vec<T, A>, AllocError>
    ensures { IfOk result (λ v. v.items ≡ items.items ++ value ∷ []) }
{
    let mut items = if items.len() < items.capacity() {
        items
    } else if items.is_empty() {
        Vec::with_capacity(alloc, first_room(stated))?
    } else {
        let mut full = items;
        make_room(&mut full, stated, left)?;
        full
    };
    items.push_reserved(value);
    Ok(items)
}

/// Decodes a list under a range for its length and a configuration for its items, as `Vec` does.
///
/// It returns the first fault: that of the length's varint, then a length out of the range, then
/// that of the first item that has one. Once the first item is read, it reserves room for as many
/// items as the input states, but for no more than there are bytes after the length, nor than 1024.
/// Where that is full, it reserves room for as many others as are stated, but for no more than the
/// bytes that are left hold, if each takes as many as those before it. After an error the source is
/// where it was. The items of a type that reads many at once are read so, and then room is reserved
/// as its `read_at_once` says.
pub fn read_list<T: Read<A> + Drop, A: Allocator + Copy>(
    alloc: A,
    src: &mut Source<'_>,
    range: RangeCfg<usize>,
    item: &T::Cfg,
) -> Result<Vec<T, A>, Error>
    ensures consumed { IfOk result (λ v. Consumes src.old src.new (list_enc T.enc v.items)) }
    ensures writable { IfOk result (λ v. IsWritableList T.writable v.items) }
    ensures allowed { IfOk result (λ v. IsAllowedList range (T.allowed item.now) v.items) }
    ensures refused { let text = rest_of src.old in IfErr result (Refuses
        (ListFault T.enc T.writable (T.allowed item.now) (T.fault item.now) range text)
        (IsListMemoryFree (T.fault item.now) (T.memory_free item.now) range text)) }
    ensures stays { OnErr result (src.new ≡ src.old) }
{
    let mut here = *src;
    let count = read_varint(&mut here)?;
    let count = count as usize;
    if !range.contains(&count) {
        return Err(Error::InvalidLength(count));
    }
    match T::read_at_once(alloc, &mut here, count, item) {
        Some(read) => {
            let items = read?;
            *src = here;
            return Ok(items);
        }
        None => {}
    }
    let bytes = here.remaining();
    let stated = Stated { count, bytes };
    let mut items = Vec::new(alloc);
    for _ in 0..count {
        let value = T::read_cfg(alloc, &mut here, item)?;
        let Ok(more) = put(alloc, items, value, stated, here.remaining()) else {
            return Err(Error::Memory);
        };
        items = more;
    }
    *src = here;
    Ok(items)
}

impl<T: Read<A> + Drop, A: Allocator + Copy> Read<A> for Vec<T, A> {
    type Cfg = (RangeCfg<usize>, T::Cfg);

    ghost allowed = { λ c v. IsAllowedList c.0 (T.allowed c.1) v.items };

    ghost fault = { λ c. ListFault T.enc T.writable (T.allowed c.1) (T.fault c.1) c.0 };

    ghost memory_free = { λ c. IsListMemoryFree (T.fault c.1) (T.memory_free c.1) c.0 };

    ghost read_laws = { λ alloc c. laws_on (λ v. v.items) (list_enc T.enc)
        (IsWritableList T.writable) (IsAllowedList c.0 (T.allowed c.1))
        (ListFault T.enc T.writable (T.allowed c.1) (T.fault c.1) c.0)
        (λ items p _. vec_of alloc items p.short)
        (list_laws T.enc T.writable T.prefix_free (T.allowed c.1) (T.fault c.1) c.0
        (T.read_laws alloc c.1)) };

    fn read_cfg(alloc: A, src: &mut Source<'_>, cfg: &Self::Cfg) -> Result<Vec<T, A>, Error> {
        read_list::<T, A>(alloc, src, cfg.0, &cfg.1)
    }
}

impl<T: Canonical, A: Allocator> Canonical for Vec<T, A> {
    ghost canonical = { canonical_on (λ v. v.items) (list_enc T.enc) (IsWritableList T.writable)
        (pointwise T.eq) (list_canonical T.enc T.writable T.prefix_free T.eq T.canonical) };
}
