//! The reply to a line that asks of participants with weights.
ghost use Rattle.std.specs.Prelude.{ℕ, List, IfErr, IfOk};
ghost use Rattle.judge_core.specs.Answered.{IsTold};
ghost use Rattle.judge_core.specs.Memory.{IsLineMemoryFree};
ghost use Rattle.judge_core.specs.Replies.{told_of};
ghost use Rattle.judge_core.specs.declared.reply.Reply.TheVariants as replies;
ghost use Rattle.judge_questions.specs.Tasks.{IsTask};
ghost use Rattle.judge_questions.specs.declared.task.Task.TheVariants as tasks;

use judge_questions::WeightedTask;
use judge_verdicts::{
    NoWeightedConflict, NoWeightedEquivocation, NoWeightedQuorum, NoWeights, WeightChecked,
    WeightNumbers, WeightedMembers, weight_numbers, weighted_conflict_of, weighted_equivocation_of,
    weighted_quorum_of,
};
use std::alloc::{AllocError, Allocator};

/// The reply to a line that asks of participants with weights.
///
/// That to `weights n3f1 00` is `Numbers(Err(NoWeights::Empty))`.
#[derive(Drop)]
pub enum WeightedReply<A: Allocator> {
    /// The numbers of the weights, or why there are none.
    Numbers(Result<WeightNumbers, NoWeights>),
    /// What signers that weigh a quorum signed by the certificate, or why none did.
    Checked(Result<WeightChecked<A>, NoWeightedQuorum>),
    /// The members that signed both certificates, or why there are none.
    Members(Result<WeightedMembers<A>, NoWeightedConflict>),
    /// The members that signed two different decisions for one slot, or why there are none.
    Equivocated(Result<WeightedMembers<A>, NoWeightedEquivocation>),
}

/// The reply to what a line asks of participants with weights.
pub(crate) fn reply_by_weight<A: Allocator + Copy>(
    alloc: A,
    task: &WeightedTask<A>,
) -> Result<WeightedReply<A>, AllocError>
    requires { (line : List ℕ) × IsTask line (tasks.Weighted task.now) }
    ensures told { IfOk result (λ reply. (line : List ℕ) → IsTask line (tasks.Weighted task.now)
        → IsTold line (told_of (replies.Weighted reply))) }
    ensures memory { IfErr result (λ _. (line : List ℕ) → IsTask line (tasks.Weighted task.now)
        → ¬ IsLineMemoryFree line) }
{
    match task {
        WeightedTask::Numbers { k, weights } => {
            Ok(WeightedReply::Numbers(weight_numbers(alloc, *k, weights.as_slice())?))
        }
        WeightedTask::Quorum { k, weights, text } => Ok(WeightedReply::Checked(weighted_quorum_of(
            alloc,
            *k,
            weights.as_slice(),
            text.as_slice(),
        )?)),
        WeightedTask::Conflict {
            k,
            weights,
            first,
            second,
        } => Ok(WeightedReply::Members(weighted_conflict_of(
            alloc,
            *k,
            weights.as_slice(),
            first.as_slice(),
            second.as_slice(),
        )?)),
        WeightedTask::Equivocation {
            k,
            weights,
            first,
            second,
        } => Ok(WeightedReply::Equivocated(weighted_equivocation_of(
            alloc,
            *k,
            weights.as_slice(),
            first.as_slice(),
            second.as_slice(),
        )?)),
    }
}
