//! What a builder makes of items in any order.
ghost use Rattle.std.specs.Prelude.{◌≡◌, IfErr, IfOk};
ghost use Rattle.commonware_utils.specs.Codec.{IsWritableList};
ghost use Rattle.commonware_utils.specs.Ordered.{IsDedup};
ghost use Rattle.judge_verdicts.specs.Builds.{IsSetBuilt, IsSetMade, MayFailToAllocateToBuild};
ghost use Rattle.judge_verdicts.specs.Readings.{list_of, reading_by};
ghost use Rattle.judge_verdicts.specs.Whole.{items_of};

use crate::whole::{Misread, read_whole};
use commonware_utils::codec::{RangeCfg, Read, Write};
use commonware_utils::ordered::{Error, Set};
use std::alloc::{AllocError, Allocator};

/// Why a builder makes nothing of an input that lists items.
///
/// Of the items 2, 1 and 2 of a set, where no two may be equal, it is `DuplicateKey`.
#[derive(PartialEq, Eq, Drop)]
pub enum NotBuilt {
    /// Two items of a set, or two keys, are equal.
    DuplicateKey,
    /// No two keys are equal, and two values are.
    DuplicateValue,
    /// The input is no list of such items.
    Unread(Misread),
}

/// The bytes of the set of the items that the input lists in any order: of equal ones the first
/// stays, or they are refused. The error is an allocation failure.
pub fn build_set<T: Ord + Read<A> + Write<A> + Drop, A: Allocator + Copy>(
    alloc: A,
    unique: bool,
    text: &[u8],
    cfg: &(RangeCfg<usize>, T::Cfg),
) -> Result<Result<Vec<u8, A>, NotBuilt>, AllocError>
    ensures built { let reading = reading_by T.enc T.writable (T.allowed cfg.now.1)
        (T.fault cfg.now.1) (T.memory_free cfg.now.1) in IfOk result (λ built.
        IsSetBuilt unique cfg.now.0 reading T.eq T.cmp text.now (items_of built)) }
    ensures memory { let reading = reading_by T.enc T.writable (T.allowed cfg.now.1)
        (T.fault cfg.now.1) (T.memory_free cfg.now.1) in
        IfErr result (λ _. MayFailToAllocateToBuild (list_of cfg.now.0 reading) text.now) }
{
    match read_whole::<Vec<T, A>, A>(alloc, text, cfg)? {
        Ok(items) => make_set(alloc, unique, items),
        Err(what) => Ok(Err(NotBuilt::Unread(what))),
    }
}

/// The bytes of the set of the items.
fn make_set<T: Ord + Write<A> + Drop, A: Allocator + Copy>(
    alloc: A,
    unique: bool,
    items: Vec<T, A>,
) -> Result<Result<Vec<u8, A>, NotBuilt>, AllocError>
    requires { IsWritableList T.writable items.items }
    ensures { IfOk result (λ built.
        IsSetMade unique T.enc T.eq T.cmp items.items (items_of built)) }
{
    if unique {
        return match Set::try_from_vec(items) {
            Ok(set) => Ok(Ok(bytes_of(alloc, &set)?)),
            Err(Error::DuplicateKey) => Ok(Err(NotBuilt::DuplicateKey)),
            Err(Error::DuplicateValue) => Ok(Err(NotBuilt::DuplicateValue)),
            Err(Error::Memory) => Err(AllocError),
        };
    }
    let set = dedup_set(alloc, items)?;
    Ok(Ok(bytes_of(alloc, &set)?))
}

/// The set of the items, where of equal ones the first stays.
fn dedup_set<T: Ord + Drop, A: Allocator + Copy>(
    alloc: A,
    items: Vec<T, A>,
) -> Result<Set<T, A>, AllocError>
    ensures { IfOk result (IsDedup T.eq T.cmp items.items) }
{
    Set::from_iter_dedup(alloc, items)
}

/// The bytes of a writable value.
pub(crate) fn bytes_of<T: Write<A>, A: Allocator>(
    alloc: A,
    value: &T,
) -> Result<Vec<u8, A>, AllocError>
    requires { T.writable value.now }
    ensures { IfOk result (λ bytes. bytes.items ≡ T.enc value.now) }
{
    let mut bytes = Vec::new(alloc);
    value.write(&mut bytes)?;
    Ok(bytes)
}
