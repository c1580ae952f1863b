//! Varints: numbers below 2^32 in groups of seven bits, the lowest group first, one group a byte,
//! the top bit set on every byte but the last, in the fewest bytes. An overlong encoding is
//! refused.
ghost use Rattle.std.specs.Prelude.{◌≡◌, ℕ, ◌+◌, ◌≤◌, ◌<◌, ◌^◌, ◌==◌, ◌++◌, List, length, take, OnOk, OnErr, IfOk, IfErr, IfSome, refl};
ghost use Rattle.commonware_base.specs.Refusal.{Refuses};
ghost use Rattle.commonware_base.specs.Source.{rest_of, Consumes};
ghost use Rattle.commonware_base.specs.laws.TextLaws.{prefix_free_on, laws_on, canonical_on};
ghost use Rattle.commonware_base.specs.Varint.{varint, IsVarint, varint_fault, groups_sum};
ghost use Rattle.commonware_base.specs.laws.VarintLaws.{varint_bytes, varint-length};
ghost use Rattle.commonware_base.specs.Words.{IsWord};
ghost use Rattle.commonware_base.specs.laws.NumberLaws.{number_prefix_free, varint_laws, number_canonical};

use crate::codec::error::Error;
use crate::codec::source::Source;
use crate::codec::traits::{Canonical, EncodeSize, MaxEncodeSize, Read, Write};
use std::alloc::{AllocError, Allocator};

/// A number that is encoded as a varint: `UInt(300)` as `[0xac, 0x02]`.
#[derive(Clone, Copy, Debug, PartialEq, Eq, PartialOrd, Ord, Hash)]
pub struct UInt(pub u32);

impl EncodeSize for UInt {
    ghost enc = { λ v. varint v.0 };

    ghost writable = { λ v. IsWord v.0 };

    ghost prefix_free = { prefix_free_on (λ v. v.0) varint IsWord number_prefix_free };

    ghost text_of_bytes = { λ v h. varint_bytes v.0 h };

    fn encode_size(&self) -> usize {
        varint_size(self.0)
    }

    fn is_writable(&self) -> bool {
        // The prover knows the range of a value only once the body reads it: each value in the
        // range of its type is writable.
        let _value = self.0;
        true
    }
}

impl<A: Allocator> Write<A> for UInt {
    fn write(&self, sink: &mut Vec<u8, A>) -> Result<(), AllocError> {
        let start = sink.len();
        match push_varint(sink, self.0) {
            Ok(()) => Ok(()),
            Err(error) => {
                sink.truncate(start);
                Err(error)
            }
        }
    }
}

impl MaxEncodeSize for UInt {
    ghost MAX_ENCODE_SIZE = { 5 };

    const MAX_ENCODE_SIZE: usize = 5;

    ghost bounded = { λ v h. varint-length v.0 h };
}

impl<A: Allocator> Read<A> for UInt {
    type Cfg = ();

    ghost allowed = { λ _ _. Unit {0} };

    ghost fault = { λ _ s f. varint_fault s f };

    ghost memory_free = { λ _ _. Unit {0} };

    ghost read_laws = { λ _ _. laws_on (λ v. v.0) varint IsWord (λ _. Unit {0}) varint_fault
        (λ n _ _. (record { 0 = n }, refl)) varint_laws };

    fn read_cfg(_alloc: A, src: &mut Source<'_>, _cfg: &()) -> Result<UInt, Error> {
        let number = read_varint(src)?;
        Ok(UInt(number))
    }
}

impl Canonical for UInt {
    ghost canonical = { canonical_on (λ v. v.0) varint IsWord ◌==◌ number_canonical };
}

/// Returns the length of the number's varint encoding.
pub(crate) fn varint_size(number: u32) -> usize
    ensures size { result ≡ length (varint number) }
    ensures at_most_five { result ≤ 5 }
{
    let mut left = number;
    let mut size = 1;
    while left >= 128 {
        left /= 128;
        size += 1;
    }
    size
}

/// Appends the bytes of the number. After an allocation failure, some of them may be in the sink.
pub(crate) fn push_varint<A: Allocator>(
    sink: &mut Vec<u8, A>,
    number: u32,
) -> Result<(), AllocError>
    ensures ok { OnOk result (sink.new.items ≡ sink.old.items ++ varint number) }
    ensures err { OnErr result ((more : List ℕ) × (sink.new.items ≡ sink.old.items ++ more)) }
{
    let mut left = number;
    while left >= 128 {
        sink.push((left % 128) as u8 + 128)?;
        left /= 128;
    }
    sink.push(left as u8)?;
    Ok(())
}

/// Decodes the varint that comes next. It takes no memory, and after an error the source is where
/// it was.
pub fn read_varint(src: &mut Source<'_>) -> Result<u32, Error>
    ensures consumed { IfOk result (λ number. Consumes src.old src.new (varint number)) }
    ensures fits { IfOk result (λ number. number < 2 ^ 32) }
    ensures refused { IfErr result (Refuses (varint_fault (rest_of src.old)) (Unit {0})) }
    ensures stays { OnErr result (src.new ≡ src.old) }
{
    let rest = src.rest();
    if let Some((number, count)) = short_varint(rest) {
        src.advance(count);
        return Ok(number);
    }
    let count = varint_len(rest)?;
    let number = groups_value(&rest[..count]);
    src.advance(count);
    Ok(number)
}

/// Returns the number at the start of the bytes, and its length, where that is one or two bytes, as
/// most are.
#[inline(always)]
fn short_varint(bytes: &[u8]) -> Option<(u32, usize)>
    ensures within { IfSome result (λ found. found.1 ≤ length bytes.now) }
    ensures found { IfSome result (λ found. IsVarint found.0 (take found.1 bytes.now)) }
{
    let low = *bytes.first()?;
    if low < 128 {
        return Some((u32::from(low), 1));
    }
    let high = *bytes.get(1)?;
    if high == 0 || high >= 128 {
        return None;
    }
    Some((u32::from(low % 128) + 128 * u32::from(high), 2))
}

/// Returns the length of the varint at the start of the bytes.
fn varint_len(bytes: &[u8]) -> Result<usize, Error>
    ensures within { IfOk result (λ count. count ≤ length bytes.now) }
    ensures found { IfOk result (λ count.
        IsVarint (groups_sum (take count bytes.now)) (take count bytes.now)) }
    ensures refused { IfErr result (Refuses (varint_fault bytes.now) (Unit {0})) }
{
    for (i, byte) in bytes.iter().enumerate() {
        let byte = *byte;
        if byte >= 128 && i < 4 {
            continue;
        }
        if byte == 0 && i > 0 {
            return Err(Error::InvalidVarint);
        }
        if byte > 15 && i == 4 {
            return Err(Error::InvalidVarint);
        }
        return Ok(i + 1);
    }
    Err(Error::EndOfBuffer)
}

/// Returns the number that the bytes encode.
fn groups_value(bytes: &[u8]) -> u32
    requires { groups_sum bytes.now < 2 ^ 32 }
    ensures { result ≡ groups_sum bytes.now }
{
    let mut number = 0;
    let mut i = bytes.len();
    while i > 0 {
        i -= 1;
        number = number * 128 + (bytes[i] % 128) as u32;
    }
    number
}
