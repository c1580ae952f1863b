//! Bytes, words of four bytes, and numbers in a range.
ghost use Rattle.std.specs.Prelude.{ℕ, ◌≡◌, ◌+◌, ◌<◌, ◌≤◌, ◌^◌, ◌++◌, length, vec_capacity, vec_len};
ghost use Rattle.commonware_base.specs.Text.{IsByte};
ghost use Rattle.commonware_base.specs.Bytes.{byte, byte_fault};
ghost use Rattle.commonware_base.specs.laws.ByteLaws.{byte_prefix_free, byte_laws, byte_canonical, byte_length};
ghost use Rattle.commonware_base.specs.Varint.{varint};
ghost use Rattle.commonware_base.specs.laws.VarintLaws.{varint_bytes};
ghost use Rattle.commonware_base.specs.Words.{IsWord, word_bytes, word_fault};
ghost use Rattle.commonware_base.specs.laws.WordLaws.{word_prefix_free, word_laws, word_canonical, word_text, word_length};
ghost use Rattle.commonware_base.specs.Numbers.{NumberFault};
ghost use Rattle.commonware_base.specs.laws.NumberLaws.{number_prefix_free, number_laws, number_canonical};
ghost use Rattle.commonware_base.specs.Range.{Within};
ghost use Rattle.commonware_base.specs.Source.{rest_of, Consumes};

use crate::codec::config::RangeCfg;
use crate::codec::error::Error;
use crate::codec::source::Source;
use crate::codec::traits::{Canonical, EncodeSize, MaxEncodeSize, Read, Write};
use crate::codec::varint::{UInt, read_varint, varint_size};
use std::alloc::{AllocError, Allocator};

impl EncodeSize for u8 {
    ghost enc = { byte };

    ghost writable = { IsByte };

    ghost prefix_free = { byte_prefix_free };

    ghost text_of_bytes = { λ v h. (h, tt) };

    fn encode_size(&self) -> usize {
        1
    }

    fn is_writable(&self) -> bool {
        // The prover knows the range of a value only once the body reads it: each value in the
        // range of its type is writable.
        let _byte = *self;
        true
    }
}

impl<A: Allocator> Write<A> for u8 {
    fn write(&self, sink: &mut Vec<u8, A>) -> Result<(), AllocError> {
        sink.push(*self)?;
        Ok(())
    }

    /// A byte is its own encoding, so the bytes are copied.
    #[inline(always)]
    fn write_at_once(items: &[u8], sink: &mut Vec<u8, A>) -> Option<Result<(), AllocError>> {
        Some(sink.extend_from_slice(items))
    }
}

impl<A: Allocator> Read<A> for u8 {
    type Cfg = ();

    ghost allowed = { λ _ _. Unit {0} };

    ghost fault = { λ _ s f. byte_fault s f };

    ghost memory_free = { λ _ _. Unit {0} };

    ghost read_laws = { λ _ _. byte_laws };

    fn read_cfg(_alloc: A, src: &mut Source<'_>, _cfg: &()) -> Result<u8, Error> {
        match src.rest() {
            [] => Err(Error::EndOfBuffer),
            [byte, ..] => {
                let byte = *byte;
                src.advance(1);
                Ok(byte)
            }
        }
    }

    /// A byte is its own encoding, so the bytes are copied, into room for exactly `count`. Where
    /// fewer are left, none is copied, and nothing is allocated.
    #[inline(always)]
    fn read_at_once(
        alloc: A,
        src: &mut Source<'_>,
        count: usize,
        _cfg: &(),
    ) -> Option<Result<Vec<u8, A>, Error>> {
        if src.lacks(count) {
            return Some(Err(Error::EndOfBuffer));
        }
        if count == 0 {
            return Some(Ok(Vec::new(alloc)));
        }
        let rest = src.rest();
        let Ok(items) = Vec::from_slice(alloc, &rest[..count]) else {
            return Some(Err(Error::Memory));
        };
        src.advance(count);
        Some(Ok(items))
    }
}

impl Canonical for u8 {
    ghost canonical = { byte_canonical };
}

impl MaxEncodeSize for u8 {
    ghost MAX_ENCODE_SIZE = { 1 };

    const MAX_ENCODE_SIZE: usize = 1;

    ghost bounded = { λ v h. byte_length v };
}

impl EncodeSize for u32 {
    ghost enc = { word_bytes };

    ghost writable = { IsWord };

    ghost prefix_free = { word_prefix_free };

    ghost text_of_bytes = { λ v h. word_text v };

    fn encode_size(&self) -> usize {
        4
    }

    fn is_writable(&self) -> bool {
        // The prover knows the range of a value only once the body reads it: each value in the
        // range of its type is writable.
        let _word = *self;
        true
    }
}

impl<A: Allocator> Write<A> for u32 {
    fn write(&self, sink: &mut Vec<u8, A>) -> Result<(), AllocError> {
        // Four bytes into room that is there: one store, where the list is in registers.
        sink.reserve(4)?;
        push_word(sink, *self);
        Ok(())
    }

    /// The words go into room that is reserved for all of them.
    #[inline(always)]
    fn write_at_once(items: &[u32], sink: &mut Vec<u8, A>) -> Option<Result<(), AllocError>> {
        if let Err(error) = sink.reserve(items.len() * 4) {
            return Some(Err(error));
        }
        for item in items {
            push_word(sink, *item);
        }
        Some(Ok(()))
    }
}

/// Appends the bytes of the word, for which there is room.
#[inline(always)]
fn push_word<A: Allocator>(sink: &mut Vec<u8, A>, word: u32)
    requires { vec_len sink.old + 4 ≤ vec_capacity sink.old }
    ensures items { sink.new.items ≡ sink.old.items ++ word_bytes word }
    ensures capacity { vec_capacity sink.new ≡ vec_capacity sink.old }
{
    let [first, second, third, fourth] = word.to_be_bytes();
    sink.push_reserved(first);
    sink.push_reserved(second);
    sink.push_reserved(third);
    sink.push_reserved(fourth);
}

impl<A: Allocator> Read<A> for u32 {
    type Cfg = ();

    ghost allowed = { λ _ _. Unit {0} };

    ghost fault = { λ _ s f. word_fault s f };

    ghost memory_free = { λ _ _. Unit {0} };

    ghost read_laws = { λ _ _. word_laws };

    fn read_cfg(_alloc: A, src: &mut Source<'_>, _cfg: &()) -> Result<u32, Error> {
        if src.lacks(4) {
            return Err(Error::EndOfBuffer);
        }
        Ok(take_word(src))
    }

    /// The words are taken into room for exactly `count`. Where fewer are left, none is taken, and
    /// nothing is allocated.
    #[inline(always)]
    fn read_at_once(
        alloc: A,
        src: &mut Source<'_>,
        count: usize,
        _cfg: &(),
    ) -> Option<Result<Vec<u32, A>, Error>> {
        if src.remaining() / 4 < count {
            return Some(Err(Error::EndOfBuffer));
        }
        let Ok(mut items) = Vec::with_capacity(alloc, count) else {
            return Some(Err(Error::Memory));
        };
        let mut here = *src;
        for _ in 0..count {
            items.push_reserved(take_word(&mut here));
        }
        *src = here;
        Some(Ok(items))
    }
}

/// Takes the word that comes next, whose bytes are there.
///
/// It is inlined and branchless, so that a loop of it works on several words at a time.
#[inline(always)]
fn take_word(src: &mut Source<'_>) -> u32
    requires { 4 ≤ length (rest_of src.old) }
    ensures { Consumes src.old src.new (word_bytes result) }
{
    let rest = src.rest();
    let number = u32::from_be_bytes([rest[0], rest[1], rest[2], rest[3]]);
    src.advance(4);
    number
}

impl MaxEncodeSize for u32 {
    ghost MAX_ENCODE_SIZE = { 4 };

    const MAX_ENCODE_SIZE: usize = 4;

    ghost bounded = { λ v h. word_length v };
}

impl Canonical for u32 {
    ghost canonical = { word_canonical };
}

impl EncodeSize for usize {
    ghost enc = { varint };

    ghost writable = { IsWord };

    ghost prefix_free = { number_prefix_free };

    ghost text_of_bytes = { varint_bytes };

    fn encode_size(&self) -> usize {
        varint_size(*self as u32)
    }

    fn is_writable(&self) -> bool {
        *self <= u32::MAX as usize
    }
}

impl<A: Allocator> Write<A> for usize {
    fn write(&self, sink: &mut Vec<u8, A>) -> Result<(), AllocError> {
        UInt(*self as u32).write(sink)
    }
}

impl<A: Allocator> Read<A> for usize {
    type Cfg = RangeCfg<usize>;

    ghost allowed = { λ c n. Within c n };

    ghost fault = { NumberFault };

    ghost memory_free = { λ _ _. Unit {0} };

    ghost read_laws = { λ _ c. number_laws c };

    fn read_cfg(_alloc: A, src: &mut Source<'_>, cfg: &RangeCfg<usize>) -> Result<usize, Error> {
        let start = *src;
        let number = read_varint(src)?;
        let number = number as usize;
        if cfg.contains(&number) {
            return Ok(number);
        }
        *src = start;
        Err(Error::InvalidLength(number))
    }
}

impl Canonical for usize {
    ghost canonical = { number_canonical };
}
