//! The encoding of a map of keys and values, each of one size, decoded in place.
ghost use Rattle.std.specs.Prelude.{◌≡◌, ◌≢◌, ◌↔◌, ◌+◌, ◌*◌, ℕ, IfErr, IfOk, IsOk, List, length};
ghost use Rattle.std.specs.Map.{keys_of, values_of};
ghost use Rattle.commonware_base.specs.Refusal.{Refuses};
ghost use Rattle.commonware_base.specs.Varint.{varint};
ghost use Rattle.commonware_views.specs.Lists.{StandBy};
ghost use Rattle.commonware_views.specs.Maps.{IsSizedMapOf, sized_map_fault};
ghost use Rattle.commonware_c.specs.Committees.{between};
ghost use Rattle.commonware_c.specs.Maps.{IsMapAt};
ghost use Rattle.commonware_c.specs.Status.{IsRefusedWith, number_of, status_of};

use crate::statuses::{OK, status_of};
use commonware_base::codec::{EncodeSize, Error, RangeCfg, Source, UInt};
use commonware_views::MapView;

/// A map of keys of one size and values of another at the start of the input.
///
/// Two pairs of keys of 20 bytes and values of 8, which are `02`, 40 bytes, `02` and 16 bytes, have
/// status 0, count 2, keys 1, values 42 and 0 left.
#[repr(C)]
#[derive(Clone, Copy, Drop)]
pub struct PairsView {
    /// OK, END_OF_INPUT, INVALID_VARINT, INVALID_LENGTH or NOT_STRICT.
    pub status: u32,
    /// At OK: how many pairs there are.
    pub count: u32,
    /// At INVALID_LENGTH: the stated length, of the keys or the values.
    pub number: usize,
    /// At OK: the offset of the first key.
    pub keys: usize,
    /// At OK: the offset of the first value, which is that of the first key.
    pub values: usize,
    /// At OK: how many bytes of the input follow the last value.
    pub left: usize,
}

/// Decodes a map of `least` to `most` pairs at the start of the input: the set of its keys, of
/// `key_size` bytes each, and a list of as many values, of `value_size` bytes each, in the order of
/// the keys. OK exactly where there is one, else the first fault (decoding error): that of the keys
/// as commonware_set_read has it, and then that of the values, which is INVALID_LENGTH where the
/// input states another number of them than of keys. Key i is the key_size bytes from input + keys
/// + i * key_size on, and its value the value_size bytes from input + values + i * value_size on.
/// The value of a key is found by the index of the key:
///
/// ```c
/// at = commonware_set_position(input + view.keys, view.count * key_size, key, key_size);
/// value = input + view.values + at.index * value_size; // where at.status is COMMONWARE_OK
/// ```
///
/// Every number is a size, of keys and of values. Values may be equal; those of 0 bytes have no
/// bytes in the input. Of keys of 0 bytes a map has at most one.
#[unsafe(no_mangle)]
pub extern "C" fn commonware_map_read(
    key_size: usize,
    value_size: usize,
    input: &[u8],
    least: usize,
    most: usize,
) -> PairsView
    ensures accepted { result.status ≡ 0
        → (pairs : List (List ℕ × List ℕ)) × (rest : List ℕ)
        × IsSizedMapOf key_size value_size (between least most) input.now pairs rest
        × (result.count ≡ length pairs) × (result.left ≡ length rest)
        × StandBy key_size input.now result.keys (keys_of pairs)
        × StandBy value_size input.now result.values (values_of pairs) }
    ensures keys { result.status ≡ 0 → result.keys ≡ length (varint result.count) }
    ensures values { result.status ≡ 0 → result.values
        ≡ result.keys + key_size * result.count + length (varint result.count) }
    ensures refused { result.status ≢ 0
        → IsRefusedWith (sized_map_fault key_size value_size (between least most) input.now)
        (Unit {0}) result.status result.number }
    ensures exactly { (result.status ≡ 0) ↔ ((pairs : List (List ℕ × List ℕ)) × (rest : List ℕ)
        × IsSizedMapOf key_size value_size (between least most) input.now pairs rest) }
    ensures no_number { result.status ≡ 0 → result.number ≡ 0 }
    ensures nothing_else { result.status ≢ 0 → result ≡ record {
      status = result.status;
      count = 0;
      number = result.number;
      keys = 0;
      values = 0;
      left = 0;
    } }
    ensures no_memory { result.status ≢ 5 }
{
    match find_map(key_size, value_size, input, least, most) {
        Ok(found) => PairsView {
            status: OK,
            count: found.pairs.len() as u32,
            number: 0,
            keys: found.keys,
            values: found.values,
            left: found.left,
        },
        Err(error) => refused(&error),
    }
}

/// A map at the start of an input, and where its parts are.
#[derive(Drop)]
pub(crate) struct MapAt<'a> {
    pub(crate) pairs: MapView<'a>,
    pub(crate) keys: usize,
    pub(crate) values: usize,
    pub(crate) left: usize,
}

/// Finds the map of `least` to `most` pairs at the start of the input.
pub(crate) fn find_map<'a>(
    key_size: usize,
    value_size: usize,
    input: &'a [u8],
    least: usize,
    most: usize,
) -> Result<MapAt<'a>, Error>
    ensures found { IfOk result (λ found. IsMapAt key_size value_size (between least most)
        input.now found.pairs found.keys found.values found.left) }
    ensures refused { IfErr result
        (Refuses (sized_map_fault key_size value_size (between least most) input.now) (Unit {0})) }
    ensures exactly { IsOk result ↔ ((pairs : List (List ℕ × List ℕ)) × (rest : List ℕ)
        × IsSizedMapOf key_size value_size (between least most) input.now pairs rest) }
{
    let mut source = Source::new(input);
    let range = RangeCfg::from(least..=most);
    let pairs = MapView::read(&mut source, key_size, value_size, range)?;
    let keys = UInt(pairs.len() as u32).encode_size();
    let values = source.position() - pairs.values().as_bytes().len();
    let left = source.remaining();
    Ok(MapAt {
        pairs,
        keys,
        values,
        left,
    })
}

/// Returns the view of a refusal.
fn refused(error: &Error) -> PairsView
    ensures { result ≡ record {
      status = status_of error.now;
      count = 0;
      number = number_of error.now;
      keys = 0;
      values = 0;
      left = 0;
    } }
{
    let (status, number) = status_of(error);
    PairsView {
        status,
        count: 0,
        number,
        keys: 0,
        values: 0,
        left: 0,
    }
}
