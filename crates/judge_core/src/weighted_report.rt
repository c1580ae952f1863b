//! What is said of participants with weights.
ghost use Rattle.std.specs.Prelude.{◌≡◌, Ok};
ghost use Rattle.judge_core.specs.Replies.{weighted_text};
ghost use Rattle.judge_core.specs.Weighted.{no_weights_line, weighed_line, weighted_conflict_line};
ghost use Rattle.judge_core.specs.Weighted.{weighted_equivocation_line, weighted_quorum_line, weights_line};
ghost use Rattle.judge_verdicts.specs.WeightedConflicts.{Weighed, weighed_of};
ghost use Rattle.judge_verdicts.specs.WeightedQuorums.{weight_checked_of};

use crate::report::{Line, Part, line_of, misread_line, text_line, word_part};
use crate::weighted_reply::WeightedReply;
use judge_verdicts::{
    NoWeightedConflict, NoWeightedEquivocation, NoWeightedQuorum, NoWeights, WeightChecked,
    WeightNumbers, WeightedMembers,
};
use std::alloc::Allocator;

/// The reply to a line that asks of participants with weights.
#[tactic(auto, unfolding(crate::specs::Replies::weighted_text))]
pub(crate) fn weighted_line<A: Allocator>(reply: &WeightedReply<A>) -> Line<'_>
    ensures { result ≡ weighted_text reply.now }
{
    match reply {
        WeightedReply::Numbers(numbers) => weights_line(numbers),
        WeightedReply::Checked(checked) => weighted_quorum_line(checked),
        WeightedReply::Members(members) => weighted_conflict_line(members),
        WeightedReply::Equivocated(members) => weighted_equivocation_line(members),
    }
}

/// The numbers of weights, or why there are none.
#[tactic(auto, unfolding(crate::specs::Weighted::weights_line))]
fn weights_line(numbers: &Result<WeightNumbers, NoWeights>) -> Line<'_>
    ensures { result ≡ weights_line numbers.now }
{
    match numbers {
        Ok(numbers) => line_of(&[
            Part::Text("total "),
            Part::Number(numbers.total as u128),
            Part::Text(" tolerated "),
            Part::Number(numbers.tolerated as u128),
            Part::Text(" quorum "),
            Part::Number(numbers.quorum as u128),
            Part::Text(" m-quorum "),
            Part::Number(numbers.smaller_quorum as u128),
        ]),
        Err(why) => no_weights_line(why),
    }
}

/// Why an input lists no weights.
#[tactic(auto, unfolding(crate::specs::Weighted::no_weights_line))]
fn no_weights_line(why: &NoWeights) -> Line<'_>
    ensures { result ≡ no_weights_line why.now }
{
    match why {
        NoWeights::Empty => text_line("NoWeights"),
        NoWeights::Zero(index) => line_of(&[
            Part::Text("ZeroWeight "),
            Part::Number(*index as u128),
        ]),
        NoWeights::Overflow(index) => line_of(&[
            Part::Text("WeightOverflow "),
            Part::Number(*index as u128),
        ]),
        NoWeights::Unread(what) => misread_line(what),
    }
}

/// What signers that weigh a quorum signed by a certificate, or why none did.
#[tactic(auto, unfolding(crate::specs::Weighted::weighted_quorum_line))]
fn weighted_quorum_line<A: Allocator>(
    checked: &Result<WeightChecked<A>, NoWeightedQuorum>,
) -> Line<'_>
    ensures { result ≡ weighted_quorum_line (weight_checked_of checked.now) }
{
    match checked {
        Ok(certificate) => certificate_line(certificate),
        Err(NoWeightedQuorum::Outside) => text_line("Outside"),
        Err(NoWeightedQuorum::TooLight) => text_line("TooLight"),
        Err(NoWeightedQuorum::Unlisted(why)) => no_weights_line(why),
        Err(NoWeightedQuorum::Unread(what)) => misread_line(what),
    }
}

/// A certificate whose signers weigh a quorum.
#[tactic(auto, unfolding(crate::specs::Weighted::weighted_quorum_line))]
fn certificate_line<A: Allocator>(certificate: &WeightChecked<A>) -> Line<'_>
    ensures { result ≡ weighted_quorum_line (weight_checked_of (Ok certificate.now)) }
{
    let signers = Part::Number(certificate.signers as u128);
    let weight = Part::Number(certificate.weight as u128);
    match &certificate.slot {
        Some((slot, decision)) => line_of(&[
            Part::Text("quorum "),
            signers,
            Part::Text(" weight "),
            weight,
            Part::Text(" slot "),
            word_part(slot),
            Part::Text(" decision "),
            word_part(decision),
        ]),
        None => line_of(&[
            Part::Text("quorum "),
            signers,
            Part::Text(" weight "),
            weight,
            Part::Text(" no slot"),
        ]),
    }
}

/// Who signed both certificates, or why no one is named.
#[tactic(auto, unfolding(crate::specs::Weighted::weighted_conflict_line))]
fn weighted_conflict_line<A: Allocator>(
    members: &Result<WeightedMembers<A>, NoWeightedConflict>,
) -> Line<'_>
    ensures { result ≡ weighted_conflict_line (weighed_of members.now) }
{
    match members {
        Ok(named) => weighed_line(named),
        Err(NoWeightedConflict::EqualValues) => text_line("EqualValues"),
        Err(NoWeightedConflict::Outside) => text_line("Outside"),
        Err(NoWeightedConflict::TooLight) => text_line("TooLight"),
        Err(NoWeightedConflict::Unlisted(why)) => no_weights_line(why),
        Err(NoWeightedConflict::Unread(what)) => misread_line(what),
    }
}

/// Who signed two different decisions for one slot, or why no one is named.
#[tactic(auto, unfolding(crate::specs::Weighted::weighted_equivocation_line))]
fn weighted_equivocation_line<A: Allocator>(
    members: &Result<WeightedMembers<A>, NoWeightedEquivocation>,
) -> Line<'_>
    ensures { result ≡ weighted_equivocation_line (weighed_of members.now) }
{
    match members {
        Ok(named) => weighed_line(named),
        Err(NoWeightedEquivocation::NoSlot) => text_line("NoSlot"),
        Err(NoWeightedEquivocation::OtherSlot) => text_line("OtherSlot"),
        Err(NoWeightedEquivocation::SameDecision) => text_line("SameDecision"),
        Err(NoWeightedEquivocation::Outside) => text_line("Outside"),
        Err(NoWeightedEquivocation::TooLight) => text_line("TooLight"),
        Err(NoWeightedEquivocation::Unlisted(why)) => no_weights_line(why),
        Err(NoWeightedEquivocation::Unread(what)) => misread_line(what),
    }
}

/// Members, and what they weigh.
fn weighed_line<A: Allocator>(named: &WeightedMembers<A>) -> Line<'_>
    ensures { let said : Weighed = record {
      bytes = named.now.members.items;
      weight = named.now.weight;
    } in result ≡ weighed_line said }
{
    line_of(&[
        Part::Text("members "),
        Part::Hex(&named.members),
        Part::Text(" weight "),
        Part::Number(named.weight as u128),
    ])
}
