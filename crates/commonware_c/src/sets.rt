//! The encoding of a set of keys of one size, decoded in place.
ghost use Rattle.std.specs.Prelude.{◌≡◌, ◌≢◌, ◌↔◌, ℕ, List, length};
ghost use Rattle.commonware_base.specs.Varint.{varint};
ghost use Rattle.commonware_views.specs.Lists.{StandBy};
ghost use Rattle.commonware_views.specs.Sets.{IsKeySetOf, key_set_fault};
ghost use Rattle.commonware_c.specs.Committees.{between};
ghost use Rattle.commonware_c.specs.Status.{IsRefusedWith, number_of, status_of};

use crate::statuses::{OK, status_of};
use commonware_base::codec::{EncodeSize, Error, RangeCfg, Source, UInt};
use commonware_views::SetView;

/// A set of keys of one size, or a committee, at the start of the input.
///
/// Two keys of 20 bytes, which are `02` and twice 20 bytes, with three bytes after them have status
/// 0, count 2, start 1 and 3 left.
#[repr(C)]
#[derive(Clone, Copy, Drop)]
pub struct KeysView {
    /// OK, END_OF_INPUT, INVALID_VARINT, INVALID_LENGTH or NOT_STRICT.
    pub status: u32,
    /// At OK: how many keys there are.
    pub count: u32,
    /// At INVALID_LENGTH: how many the input states.
    pub number: usize,
    /// At OK: the offset of the first key.
    pub start: usize,
    /// At OK: how many bytes of the input follow the last.
    pub left: usize,
}

/// Decodes a set of `least` to `most` keys of `size` bytes each at the start of the input: OK
/// exactly where there is one, else the first fault (decoding error). Key i is the `size` bytes
/// from input + start + i * size on; the keys are strictly increasing in the order of memcmp. Where
/// `least` is greater than `most`, no number of keys is in range. At a size of 32 it is
/// commonware_committee_read.
///
/// Every number is a size. At OK count * size doesn't wrap, since the input has as many bytes from
/// `start` on. Keys of 0 bytes have no bytes in the input and are all the same key, so a set of
/// them has at most one.
#[inline(always)]
#[unsafe(no_mangle)]
pub extern "C" fn commonware_set_read(
    size: usize,
    input: &[u8],
    least: usize,
    most: usize,
) -> KeysView
    ensures accepted { result.status ≡ 0 → (keys : List (List ℕ)) × (rest : List ℕ)
        × IsKeySetOf size (between least most) input.now keys rest
        × (result.count ≡ length keys) × (result.left ≡ length rest)
        × StandBy size input.now result.start keys }
    ensures start { result.status ≡ 0 → result.start ≡ length (varint result.count) }
    ensures refused { result.status ≢ 0
        → IsRefusedWith (key_set_fault size (between least most) input.now)
        (Unit {0}) result.status result.number }
    ensures exactly { (result.status ≡ 0) ↔ ((keys : List (List ℕ)) × (rest : List ℕ)
        × IsKeySetOf size (between least most) input.now keys rest) }
    ensures no_number { result.status ≡ 0 → result.number ≡ 0 }
    ensures nothing_else { result.status ≢ 0 → result ≡ record {
      status = result.status;
      count = 0;
      number = result.number;
      start = 0;
      left = 0;
    } }
    ensures no_memory { result.status ≢ 5 }
{
    let mut source = Source::new(input);
    match SetView::read(&mut source, size, RangeCfg::from(least..=most)) {
        Ok(keys) => {
            let count = keys.len() as u32;
            KeysView {
                status: OK,
                count,
                number: 0,
                start: UInt(count).encode_size(),
                left: source.remaining(),
            }
        }
        Err(error) => refused(&error),
    }
}

/// Returns the view of a refusal.
#[inline(always)]
fn refused(error: &Error) -> KeysView
    ensures { result ≡ record {
      status = status_of error.now;
      count = 0;
      number = number_of error.now;
      start = 0;
      left = 0;
    } }
{
    let (status, number) = status_of(error);
    KeysView {
        status,
        count: 0,
        number,
        start: 0,
        left: 0,
    }
}
