//! The position of an item in a set.
ghost use Rattle.std.specs.Prelude.{◌≡◌, IfErr, IfOk};
ghost use Rattle.judge_verdicts.specs.Places.{IsFound, MayFailToAllocateToFind};
ghost use Rattle.judge_verdicts.specs.Readings.{reading_by};

use crate::whole::{Misread, read_whole};
use commonware_utils::codec::{Canonical, RangeCfg, Read};
use commonware_utils::ordered::Set;
use std::alloc::{AllocError, Allocator};

/// The position of an item in a set, both of which are encodings.
///
/// In the set of 5, 9 and 200, 9 is `At(1)` and 4 is `Nowhere`.
#[derive(PartialEq, Eq, Drop)]
pub enum Found {
    /// At this position.
    At(usize),
    /// Nowhere.
    Nowhere,
    /// The first input is no set of such items, or the second is no such item.
    Unread(Misread),
}

/// The position of the item in the set, each the whole of an input. What is wrong with the set
/// comes first. The error is an allocation failure, and comes only where the reading of the set
/// isn't memory-free, or where it is a set and the reading of the item isn't.
pub fn position_as<T: Ord + Canonical + Read<A> + Drop, A: Allocator + Copy>(
    alloc: A,
    set: &[u8],
    item: &[u8],
    cfg: &(RangeCfg<usize>, T::Cfg),
) -> Result<Found, AllocError>
    ensures found { let reading = reading_by T.enc T.writable (T.allowed cfg.now.1)
        (T.fault cfg.now.1) (T.memory_free cfg.now.1) in
        IfOk result (IsFound cfg.now.0 reading T.eq T.cmp set.now item.now) }
    ensures memory { let reading = reading_by T.enc T.writable (T.allowed cfg.now.1)
        (T.fault cfg.now.1) (T.memory_free cfg.now.1) in
        IfErr result (λ _. MayFailToAllocateToFind cfg.now.0 reading T.cmp set.now item.now) }
{
    let held = match read_whole::<Set<T, A>, A>(alloc, set, cfg)? {
        Ok(held) => held,
        Err(what) => return Ok(Found::Unread(what)),
    };
    let value = match read_whole::<T, A>(alloc, item, &cfg.1)? {
        Ok(value) => value,
        Err(what) => return Ok(Found::Unread(what)),
    };
    match held.position(&value) {
        Some(place) => Ok(Found::At(place)),
        None => Ok(Found::Nowhere),
    }
}
