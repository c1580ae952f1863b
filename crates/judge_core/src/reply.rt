//! The reply to a line, whether it asks by a verb or for a reading.
ghost use Rattle.std.specs.Prelude.{◌≡◌, ℕ, List, IfErr, IfOk};
ghost use Rattle.judge_core.specs.Answered.{IsTold};
ghost use Rattle.judge_core.specs.Memory.{IsLineMemoryFree};
ghost use Rattle.judge_core.specs.Replies.{is_verdict, told_of};
ghost use Rattle.judge_questions.specs.Tasks.{IsTask};

use crate::answer::{Answer, answer_to};
use crate::weighted_reply::{WeightedReply, reply_by_weight};
use judge_questions::{Task, read_task};
use judge_verdicts::{
    Checked, FaultNumbers, Found, NoConflict, NoEquivocation, NoQuorum, NotBuilt, Refutation,
    build, conflict_of, equivocation_of, fault_numbers, position, quorum_of, refute,
};
use std::alloc::{AllocError, Allocator};

/// The reply to a line.
///
/// That to `refute k=7 22 3` is `Refuted(None)`, and that to `position set<u8> 0205c8 c8` is
/// `Found(Found::At(1))`.
#[derive(Drop)]
pub enum Reply<A: Allocator> {
    /// What was built of the items, as bytes, or why nothing was.
    Built(Result<Vec<u8, A>, NotBuilt>),
    /// The position of the item.
    Found(Found),
    /// The numbers of the fault model.
    Numbers(FaultNumbers),
    /// Why the number of faults isn't tolerated, or `None` where it is.
    Refuted(Option<Refutation>),
    /// What a quorum signed by the certificate, or why none did.
    Checked(Result<Checked<A>, NoQuorum>),
    /// The bytes of the members that signed both certificates, or why there are none.
    Members(Result<Vec<u8, A>, NoConflict>),
    /// The bytes of the members that signed two different decisions for one slot, or why there are
    /// none.
    Equivocated(Result<Vec<u8, A>, NoEquivocation>),
    /// The reply to a line that asks of participants with weights.
    Weighted(WeightedReply<A>),
    /// The answer to a line that asks for a reading, or what of a line can't be read.
    Answered(Answer),
}

impl<A: Allocator> Reply<A> {
    /// Whether it is a verdict: the line could be read.
    pub fn is_verdict(&self) -> bool
        ensures { result ≡ is_verdict self.now }
    {
        match self {
            Reply::Answered(answer) => answer.is_judged(),
            _ => true,
        }
    }
}

/// The reply to a line. The error is an allocation failure, which no memory-free line meets.
pub fn reply_to<A: Allocator + Copy>(alloc: A, line: &[u8]) -> Result<Reply<A>, AllocError>
    ensures told { IfOk result (λ reply. IsTold line.now (told_of reply)) }
    ensures memory { IfErr result (λ _. ¬ IsLineMemoryFree line.now) }
{
    match read_task(alloc, line)? {
        Some(Ok(task)) => reply_to_task(alloc, &task),
        Some(Err(what)) => Ok(Reply::Answered(Answer::Unread(what))),
        None => Ok(Reply::Answered(answer_to(alloc, line)?)),
    }
}

/// The reply to what a line asks for by a verb.
fn reply_to_task<A: Allocator + Copy>(alloc: A, task: &Task<A>) -> Result<Reply<A>, AllocError>
    requires { (line : List ℕ) × IsTask line task.now }
    ensures told { IfOk result (λ reply. (line : List ℕ) → IsTask line task.now
        → IsTold line (told_of reply)) }
    ensures memory { IfErr result (λ _. (line : List ℕ) → IsTask line task.now
        → ¬ IsLineMemoryFree line) }
{
    match task {
        Task::Build {
            collection,
            unique,
            text,
        } => Ok(Reply::Built(build(alloc, *collection, *unique, text.as_slice())?)),
        Task::Position { set, text, item } => Ok(Reply::Found(position(
            alloc,
            *set,
            text.as_slice(),
            item.as_slice(),
        )?)),
        Task::Faults { k, n } => Ok(Reply::Numbers(fault_numbers(*k, *n))),
        Task::Refute { k, n, f } => Ok(Reply::Refuted(refute(*k, *n, *f))),
        Task::Quorum { k, n, text } => {
            Ok(Reply::Checked(quorum_of(alloc, *k, *n, text.as_slice())?))
        }
        Task::Conflict {
            k,
            n,
            first,
            second,
        } => Ok(Reply::Members(conflict_of(alloc, *k, *n, first.as_slice(), second.as_slice())?)),
        Task::Equivocation {
            k,
            n,
            first,
            second,
        } => Ok(Reply::Equivocated(equivocation_of(
            alloc,
            *k,
            *n,
            first.as_slice(),
            second.as_slice(),
        )?)),
        Task::Weighted(task) => Ok(Reply::Weighted(reply_by_weight(alloc, task)?)),
    }
}
