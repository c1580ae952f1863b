//! The weights of participants, as an input lists them, and the numbers of a fault model for them.
ghost use Rattle.std.specs.Prelude.{◌≡◌, ◌≤◌, IfErr, IfOk, MatchResult, length};
ghost use Rattle.judge_verdicts.specs.Weights.{AreListed, AreNoWeights, AreNumbersOfWeights, MayFailToAllocateToWeigh, listed_numbers};
ghost use Rattle.judge_verdicts.specs.Whole.{IsMisread, IsWhole};

use crate::whole::{Misread, read_whole};
use committee_weights::{Weights, WeightsError};
use commonware_utils::sequence::U64;
use judge_questions::Limit;
use std::alloc::{AllocError, Allocator};

/// The numbers of weights at a resilience `n >= kf + 1`, where n is their total.
///
/// The weights 40, 30, 20 and 10 are 100 in all. At a resilience 3, 33 may be faulty, 67 are a
/// quorum and also the smaller one.
#[derive(Clone, Copy, PartialEq, Eq)]
pub struct WeightNumbers {
    /// What all participants weigh.
    pub total: u64,
    /// The greatest weight of faulty participants that the total tolerates.
    pub tolerated: u64,
    /// What a quorum weighs.
    pub quorum: u64,
    /// What the smaller quorum weighs, which shares more than may be faulty with each quorum.
    pub smaller_quorum: u64,
}

/// Why an input lists no weights of a committee.
///
/// Of the numbers 5, 0 and 0 it is `Zero(1)`, and of 2^64 - 1, 1 and 0 `Overflow(1)`.
#[derive(PartialEq, Eq, Drop)]
pub enum NoWeights {
    /// It lists none.
    Empty,
    /// The number at this index is the first that is 0, and the sum of those before it fits.
    Zero(usize),
    /// With the number at this index the sum is past 2^64 - 1, and none before it is 0.
    Overflow(usize),
    /// The input is no list of numbers of eight bytes each.
    Unread(Misread),
}

/// The numbers of the weights that the input lists, at a resilience `k`, or why it lists none. The
/// error is an allocation failure, and comes only where the reading of the list isn't memory-free:
/// for one of none, which is no weights, it never does. `k` is at least 2.
pub fn weight_numbers<A: Allocator + Copy>(
    alloc: A,
    k: u32,
    list: &[u8],
) -> Result<Result<WeightNumbers, NoWeights>, AllocError>
    requires resilience { 2 ≤ k }
    ensures numbers { IfOk result (AreNumbersOfWeights k list.now) }
    ensures memory { IfErr result (λ _. MayFailToAllocateToWeigh list.now) }
{
    match read_weights(alloc, list)? {
        Ok(weights) => Ok(Ok(WeightNumbers {
            total: weights.total(),
            tolerated: weights.max_faulty_weight(k),
            quorum: weights.quorum_weight(k),
            smaller_quorum: weights.smaller_quorum_weight(k),
        })),
        Err(why) => Ok(Err(why)),
    }
}

/// The weights that the input lists, or why it lists none. The error is an allocation failure, and
/// comes only where the reading of the list isn't memory-free.
pub(crate) fn read_weights<A: Allocator + Copy>(
    alloc: A,
    list: &[u8],
) -> Result<Result<Weights<A>, NoWeights>, AllocError>
    ensures listed { IfOk result (λ read. MatchResult read (AreListed list.now)
        (AreNoWeights list.now)) }
    ensures memory { IfErr result (λ _. MayFailToAllocateToWeigh list.now) }
{
    match read_numbers(alloc, list)? {
        Ok(numbers) => match Weights::new(numbers_of(alloc, &numbers)?) {
            Ok(weights) => Ok(Ok(weights)),
            Err(WeightsError::Empty) => Ok(Err(NoWeights::Empty)),
            Err(WeightsError::TooMany) => unreachable!(),
            Err(WeightsError::Zero(index)) => Ok(Err(NoWeights::Zero(index))),
            Err(WeightsError::Overflow(index)) => Ok(Err(NoWeights::Overflow(index))),
        },
        Err(what) => Ok(Err(NoWeights::Unread(what))),
    }
}

/// The numbers that the input lists, or why it lists none.
fn read_numbers<A: Allocator + Copy>(
    alloc: A,
    list: &[u8],
) -> Result<Result<Vec<U64, A>, Misread>, AllocError>
    ensures read { IfOk result (λ read. MatchResult read
        (λ numbers. IsWhole listed_numbers list.now numbers.items)
        (IsMisread listed_numbers list.now)) }
    ensures memory { IfErr result (λ _. ¬ listed_numbers.MemoryFree list.now) }
{
    read_whole::<Vec<U64, A>, A>(alloc, list, &(Limit::full().range(), ()))
}

/// The numbers of the items. The error is an allocation failure, and comes only where there are
/// some.
fn numbers_of<A: Allocator>(alloc: A, items: &[U64]) -> Result<Vec<u64, A>, AllocError>
    ensures numbers { IfOk result (λ numbers. numbers.items ≡ items.now) }
    ensures memory { IfErr result (λ _. 1 ≤ length items.now) }
{
    let mut numbers = Vec::with_capacity(alloc, items.len())?;
    for item in items {
        numbers.push(item.get())?;
    }
    Ok(numbers)
}
