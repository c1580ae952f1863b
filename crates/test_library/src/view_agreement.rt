//! Views beside the collections of `FixedBytes` of the same sizes: over inputs that are drawn, each
//! accepts the same, with the same items at the same positions, and refuses the rest with the same
//! error.
ghost use Rattle.std.specs.Prelude.{◌≤◌};

use commonware_utils::codec::{RangeCfg, Read, Source};
use commonware_utils::ordered::{Map, Set};
use commonware_utils::sequence::FixedBytes;
use commonware_utils::views::{ListView, MapView, SetView};
use std::alloc::{AllocError, Global};

/// How many inputs are drawn for each pair of sizes.
const INPUTS: u32 = 400;

/// Numbers that look random, and are the same at each run: a linear congruence.
#[derive(Drop)]
struct Dice {
    state: u32,
}

impl Dice {
    /// A number below a bound, which isn't 0.
    fn below(&mut self, bound: u32) -> u32
        requires { 1 ≤ bound }
    {
        self.state = self
            .state
            .wrapping_mul(1_664_525)
            .wrapping_add(1_013_904_223);
        self.state / 65_536 % bound
    }

    /// One byte of a few.
    fn byte(&mut self) -> u8 {
        match self.below(6) {
            0 => 0,
            1 => 1,
            2 => 2,
            3 => 0x7f,
            4 => 0x80,
            _ => 0xff,
        }
    }

    /// Appends a length: mostly this one, now and then an overlong varint of it or another.
    fn put_length(&mut self, bytes: &mut Vec<u8>, count: u8) -> Result<(), AllocError> {
        match self.below(16) {
            0 => {
                bytes.push(count | 0x80)?;
                bytes.push(0)?;
            }
            1 => bytes.push(count.wrapping_add(1))?,
            2 => bytes.push(self.byte())?,
            _ => bytes.push(count)?,
        }
        Ok(())
    }

    /// Appends items of `size` bytes, most of which are in order: they begin with their positions.
    fn put_items(&mut self, bytes: &mut Vec<u8>, size: usize, count: u8) -> Result<(), AllocError> {
        for position in 0..count {
            for place in 0..size {
                let is_first = place == 0 && self.below(6) > 0;
                let byte = if is_first { position } else { self.byte() };
                bytes.push(byte)?;
            }
        }
        Ok(())
    }

    /// An input that is mostly a map of these sizes, with something after it, or cut.
    fn input(&mut self, alloc: Global, sizes: (usize, usize)) -> Result<Vec<u8>, AllocError> {
        let mut bytes = Vec::new(alloc);
        let most = if sizes.0 == 0 { 3 } else { 6 };
        let count = (self.below(most) % 256) as u8;
        self.put_length(&mut bytes, count)?;
        self.put_items(&mut bytes, sizes.0, count)?;
        self.put_length(&mut bytes, count)?;
        self.put_items(&mut bytes, sizes.1, count)?;
        bytes.push(self.byte())?;
        if self.below(4) == 0 {
            let left = self.below(64) as usize;
            bytes.truncate(left);
        }
        Ok(bytes)
    }
}

/// What a view and a collection said of an input.
#[derive(Clone, Copy, PartialEq, Eq)]
enum Said {
    /// Both accept it, with the same items.
    Accepted,
    /// Both refuse it, with the same error.
    Refused,
    /// They differ.
    Differ,
}

/// What is said where both accept an input, as they are alike or not.
fn accepted(alike: bool) -> Said {
    if alike { Said::Accepted } else { Said::Differ }
}

/// What is said where both refuse an input, as they are alike or not.
fn refused(alike: bool) -> Said {
    if alike { Said::Refused } else { Said::Differ }
}

/// Whether the items of a list are these, in order.
fn are_alike<const N: usize>(list: &ListView<'_>, items: &[FixedBytes<N>]) -> bool
    requires { N ≤ 96 }
{
    let mut left = list.iter();
    for item in items {
        if left.next() != Some(item.as_bytes().as_slice()) {
            return false;
        }
    }
    left.next().is_none() && list.len() == items.len()
}

/// What is said of a list.
fn lists<const N: usize>(alloc: Global, input: &[u8], range: RangeCfg<usize>) -> Said
    requires { N ≤ 96 }
{
    let (mut mine, mut others) = (Source::new(input), Source::new(input));
    let view = ListView::read(&mut mine, N, range);
    let read = Vec::<FixedBytes<N>>::read_cfg(alloc, &mut others, &(range, ()));
    let is_there = mine.position() == others.position();
    match (view, read) {
        (Ok(view), Ok(list)) => accepted(is_there && are_alike(&view, &list)),
        (Err(error), Err(other)) => refused(is_there && error == other),
        _ => Said::Differ,
    }
}

/// What is said of a set, where a key is looked up.
fn sets<const N: usize>(
    alloc: Global,
    input: &[u8],
    range: RangeCfg<usize>,
    key: &FixedBytes<N>,
) -> Said
    requires { N ≤ 96 }
{
    let (mut mine, mut others) = (Source::new(input), Source::new(input));
    let view = SetView::read(&mut mine, N, range);
    let read = Set::<FixedBytes<N>, Global>::read_cfg(alloc, &mut others, &(range, ()));
    let is_there = mine.position() == others.position();
    match (view, read) {
        (Ok(view), Ok(set)) => {
            let bytes = key.as_bytes().as_slice();
            let is_found = view.position(bytes) == set.position(key)
                && view.contains(bytes) == set.contains(key);
            accepted(is_there && is_found && are_alike(view.as_list(), set.as_slice()))
        }
        (Err(error), Err(other)) => refused(is_there && error == other),
        _ => Said::Differ,
    }
}

/// What is said of a map, where a key is looked up.
fn maps<const N: usize, const M: usize>(
    alloc: Global,
    input: &[u8],
    range: RangeCfg<usize>,
    key: &FixedBytes<N>,
) -> Said
    requires keys { N ≤ 96 }
    requires values { M ≤ 96 }
{
    let (mut mine, mut others) = (Source::new(input), Source::new(input));
    let view = MapView::read(&mut mine, N, M, range);
    let read = Map::<FixedBytes<N>, FixedBytes<M>, Global>::read_cfg(
        alloc,
        &mut others,
        &(range, (), ()),
    );
    let is_there = mine.position() == others.position();
    match (view, read) {
        (Ok(view), Ok(map)) => {
            let value = map.get_value(key).map(|value| value.as_bytes().as_slice());
            let is_found = view.get_value(key.as_bytes().as_slice()) == value;
            let keys = are_alike(view.keys().as_list(), map.keys().as_slice());
            accepted(is_there && is_found && keys && are_alike(view.values(), map.values()))
        }
        (Err(error), Err(other)) => refused(is_there && error == other),
        _ => Said::Differ,
    }
}

/// How many inputs were accepted and refused, by all three kinds together, or `None` once a view
/// and a collection differ.
fn tally<const N: usize, const M: usize>(alloc: Global) -> Result<Option<[u32; 2]>, AllocError>
    requires keys { N ≤ 96 }
    requires values { M ≤ 96 }
{
    let mut dice = Dice { state: 7 };
    let mut counts = [0u32; 2];
    for _ in 0..INPUTS {
        let input = dice.input(alloc, (N, M))?;
        let most = dice.below(8) as usize;
        let range = RangeCfg::from(0..=most);
        let mut key = [0u8; N];
        for (place, byte) in key.iter_mut().enumerate() {
            *byte = if place == 0 {
                (dice.below(6) % 256) as u8
            } else {
                dice.byte()
            };
        }
        let key = FixedBytes::new(key);
        let said = [
            lists::<N>(alloc, &input, range),
            sets::<N>(alloc, &input, range, &key),
            maps::<N, M>(alloc, &input, range, &key),
        ];
        for it in said {
            match it {
                Said::Accepted => counts[0] = counts[0].saturating_add(1),
                Said::Refused => counts[1] = counts[1].saturating_add(1),
                Said::Differ => return Ok(None),
            }
        }
    }
    Ok(Some(counts))
}

/// Whether views and collections of these sizes agree, with some hundred inputs of each kind.
fn agree<const N: usize, const M: usize>(alloc: Global) -> bool
    requires keys { N ≤ 96 }
    requires values { M ≤ 96 }
{
    match tally::<N, M>(alloc) {
        Ok(Some(counts)) => counts.iter().all(|count| *count > 100),
        _ => false,
    }
}

#[test]
fn views_and_collections_agree(rt: HostRuntime) {
    let alloc = rt.alloc();
    assert!(rt; agree::<0, 0>(alloc) && agree::<0, 8>(alloc));
    assert!(rt; agree::<1, 0>(alloc) && agree::<1, 33>(alloc));
    assert!(rt; agree::<8, 1>(alloc) && agree::<8, 8>(alloc));
    assert!(rt; agree::<33, 0>(alloc) && agree::<33, 8>(alloc) && agree::<33, 33>(alloc));
}
