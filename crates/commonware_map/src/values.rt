//! The values of a map, which are as many as its keys.
ghost use Rattle.std.specs.Prelude.{◌≡◌, ◌≤◌, IfErr, IfOk, OnErr, length, zip};
ghost use Rattle.commonware_base.specs.Calls.{CallableAlong, CallsGiveAll};
ghost use Rattle.commonware_base.specs.Lists.{IsAllowedList, IsListMemoryFree, IsWritableList};
ghost use Rattle.commonware_base.specs.Lists.{ListFault, list_enc};
ghost use Rattle.commonware_base.specs.Range.{exactly};
ghost use Rattle.commonware_base.specs.Refusal.{Refuses};
ghost use Rattle.commonware_base.specs.Source.{Consumes, rest_of};
ghost use Rattle.commonware_map.specs.ValueCalls.{CalledAtPair, TakesPair};

use commonware_base::codec::{Error, RangeCfg, Read, Source, read_list};
use std::alloc::{AllocError, Allocator};

/// Decodes a list of values, whose length has to be `count`. After an error the source is where it
/// was.
///
/// It returns the first fault: that of the length's varint, then another length, then that of the
/// first value that has one. Room is reserved as `read_list` says.
pub(crate) fn read_values<V: Read<A> + Drop, A: Allocator + Copy>(
    alloc: A,
    src: &mut Source<'_>,
    count: usize,
    value: &V::Cfg,
) -> Result<Vec<V, A>, Error>
    ensures consumed { IfOk result (λ v. Consumes src.old src.new (list_enc V.enc v.items)) }
    ensures writable { IfOk result (λ v. IsWritableList V.writable v.items) }
    ensures allowed { IfOk result (λ v.
        IsAllowedList (exactly count) (V.allowed value.now) v.items) }
    ensures refused { let text = rest_of src.old in IfErr result (Refuses
        (ListFault V.enc V.writable (V.allowed value.now) (V.fault value.now)
        (exactly count) text)
        (IsListMemoryFree (V.fault value.now) (V.memory_free value.now) (exactly count) text)) }
    ensures stays { OnErr result (src.new ≡ src.old) }
{
    read_list::<V, A>(alloc, src, RangeCfg::exact(count), value)
}

/// Returns what `f` returns for each key and its value, in order. It requires that there are as
/// many values as keys. Room for all results is reserved before the first call; the only error is
/// an allocation failure.
pub(crate) fn called_values<K, V: Drop, U: Drop, A: Allocator + Copy, F: FnMut(&K, V) -> U>(
    keys: &[K],
    values: Vec<V, A>,
    mut f: F,
) -> Result<Vec<U, A>, AllocError>
    requires even { length values.items ≡ length keys.now }
    requires callable { CallableAlong (CalledAtPair F.FnMut) (TakesPair F.FnMut) f
        (zip keys.now values.items) }
    ensures called { IfOk result (λ called. CallsGiveAll (CalledAtPair F.FnMut) f
        (zip keys.now values.items) called.items) }
    ensures nothing { OnErr result (1 ≤ length values.items) }
{
    let mut called = Vec::with_capacity(*values.allocator(), values.len())?;
    for (key, value) in keys.iter().zip(values) {
        called.push_reserved(f(key, value));
    }
    Ok(called)
}
