//! A line that asks of participants with weights by a verb.
ghost use Rattle.std.specs.Prelude.{IfErr, IfOk, MatchResult};
ghost use Rattle.judge_questions.specs.Tasks.{AsksFor, LackWeightedConflict, LackWeightedQuorum};
ghost use Rattle.judge_questions.specs.Tasks.{LackWeights, weighted_both_verb};
ghost use Rattle.judge_questions.specs.Words.{AreShort};
ghost use Rattle.judge_questions.specs.declared.verb.Verb.{Verb};

use crate::bytes::Bytes;
use crate::model::next_model;
use crate::question::{Unreadable, last_text};
use crate::task::Task;
use crate::texts::{three_texts, two_texts};
use crate::words::Words;
use std::alloc::{AllocError, Allocator};

/// What a line asks of participants with weights at a resilience `k`. `weights` is the encoding of
/// a list of numbers of eight bytes each.
///
/// `weights n3f1 020000000000000028000000000000001e` is `Numbers`, where `k` is 3 and the weights
/// are 40 and 30.
#[derive(Drop)]
pub enum WeightedTask<A: Allocator> {
    /// The numbers of the weights.
    Numbers {
        k: u32,
        weights: Bytes<A>,
    },
    /// Whether signers that weigh a quorum signed the certificate, which is an encoding.
    Quorum {
        k: u32,
        weights: Bytes<A>,
        text: Bytes<A>,
    },
    /// Who signed both certificates, which are encodings.
    Conflict {
        k: u32,
        weights: Bytes<A>,
        first: Bytes<A>,
        second: Bytes<A>,
    },
    /// Accountability: the same, where the certificates are for different decisions for one slot.
    Equivocation {
        k: u32,
        weights: Bytes<A>,
        first: Bytes<A>,
        second: Bytes<A>,
    },
}

/// A model, and the bytes of a list of weights.
pub(crate) fn read_weights<A: Allocator>(
    alloc: A,
    words: &mut Words<'_>,
) -> Result<Result<Task<A>, Unreadable>, AllocError>
    ensures read { IfOk result (λ read. MatchResult read (AsksFor Verb.Weights words.old)
        (LackWeights words.old)) }
    ensures memory { IfErr result (λ _. ¬ AreShort words.old) }
{
    let Some(k) = next_model(words) else {
        return Ok(Err(Unreadable::Model));
    };
    match last_text(alloc, words)? {
        Some(weights) => Ok(Ok(Task::Weighted(WeightedTask::Numbers { k, weights }))),
        None => Ok(Err(Unreadable::Bytes)),
    }
}

/// A model, and the bytes of a list of weights and of a certificate.
pub(crate) fn read_weighted_quorum<A: Allocator + Copy>(
    alloc: A,
    words: &mut Words<'_>,
) -> Result<Result<Task<A>, Unreadable>, AllocError>
    ensures read { IfOk result (λ read. MatchResult read
        (AsksFor Verb.WeightedQuorum words.old) (LackWeightedQuorum words.old)) }
    ensures memory { IfErr result (λ _. ¬ AreShort words.old) }
{
    let Some(k) = next_model(words) else {
        return Ok(Err(Unreadable::Model));
    };
    match two_texts(alloc, words)? {
        Some((weights, text)) => {
            Ok(Ok(Task::Weighted(WeightedTask::Quorum { k, weights, text })))
        }
        None => Ok(Err(Unreadable::Bytes)),
    }
}

/// A model, and the bytes of a list of weights and of two certificates. `by_slot`: these have to be
/// for one slot.
pub(crate) fn read_weighted_both<A: Allocator + Copy>(
    alloc: A,
    words: &mut Words<'_>,
    by_slot: bool,
) -> Result<Result<Task<A>, Unreadable>, AllocError>
    ensures read { IfOk result (λ read. MatchResult read
        (AsksFor (weighted_both_verb by_slot) words.old) (LackWeightedConflict words.old)) }
    ensures memory { IfErr result (λ _. ¬ AreShort words.old) }
{
    let Some(k) = next_model(words) else {
        return Ok(Err(Unreadable::Model));
    };
    let Some((weights, first, second)) = three_texts(alloc, words)? else {
        return Ok(Err(Unreadable::Bytes));
    };
    Ok(Ok(Task::Weighted(if by_slot {
        WeightedTask::Equivocation {
            k,
            weights,
            first,
            second,
        }
    } else {
        WeightedTask::Conflict {
            k,
            weights,
            first,
            second,
        }
    })))
}
