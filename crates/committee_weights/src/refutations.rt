//! Weights that refute a number above what their total tolerates.
ghost use Rattle.std.specs.Prelude.{◌≡◌, ◌+◌, ◌-◌, ◌*◌, ◌<◌, ◌≤◌, ◌^◌, ◌⊎◌, ◌↔◌, ◌++◌, IfOk, IfSome, OnErr, OnOk, None, cond, length};
ghost use Rattle.committee_weights.specs.Members.{faulty_weight};
ghost use Rattle.committee_weights.specs.Refutations.{IsRefutedBy, group, group_subset, groups};

use crate::weights::Weights;
use std::alloc::{AllocError, Allocator};

/// Weights of participants, and two subsets of them that share too little: whether the participant
/// at each place is in the subset.
#[derive(Drop)]
pub struct WeightRefutation<A: Allocator> {
    /// The weights.
    pub weights: Weights<A>,
    /// One subset.
    pub one: Vec<bool, A>,
    /// The other.
    pub other: Vec<bool, A>,
}

/// Returns why no number above (total - 1) / k is safe for all weights of a total, whatever the
/// number of participants: weights of so many participants, with this total, and two subsets of
/// them that weigh all but at most `greater`, and share less than (k - 2) `greater` + 1.
///
/// It returns `None` exactly where `greater` is at most (total - 1) / k, so that it is safe for all
/// weights; where there are fewer than three participants; or where there are more than the total,
/// so that they have no weights. Nothing is allocated then. It requires that `k` is at least 2.
///
/// At a `k` of 3, of a total of 7 and three participants, 3 is refuted by the weights 3, 1 and 3:
/// the first two and the last two weigh 4, which is all but 3, and they share 1. Of five
/// participants, by 1, 1, 1, 1 and 3, where the first four and the last two do.
pub fn weight_refutation<A: Allocator + Copy>(
    alloc: A,
    k: u32,
    total: u64,
    greater: u64,
    participants: u32,
) -> Result<Option<WeightRefutation<A>>, AllocError>
    requires resilience { 2 ≤ k }
    ensures refutes { IfOk result (λ found. IfSome found (λ refutation.
        IsRefutedBy k total greater participants
        refutation.weights refutation.one.items refutation.other.items)) }
    ensures none { IfOk result (λ found. (found ≡ None)
        ↔ ((greater ≤ faulty_weight k total)
        ⊎ (participants < 3) ⊎ (total < participants))) }
    ensures memory { OnErr result ((faulty_weight k total < greater)
        × (3 ≤ participants) × (participants ≤ total)) }
{
    if participants < 3 || total < participants as u64 || greater <= (total - 1) / k as u64 {
        return Ok(None);
    }
    let weighs = groups_of(total, greater);
    let counts = counts_of(weighs, participants as usize);
    let items = weights_of(alloc, weighs, counts)?;
    let one = subset_of(alloc, counts, true, weighs.shared, false)?;
    let other = subset_of(alloc, counts, false, true, true)?;
    let weights = Weights::new(items).unwrap();
    Ok(Some(WeightRefutation {
        weights,
        one,
        other,
    }))
}

/// What three groups of participants weigh. One subset is the first group, with the middle one
/// where it is shared; the other is the middle group and the last.
#[derive(Clone, Copy)]
struct Groups {
    first: u64,
    middle: u64,
    last: u64,
    shared: bool,
}

/// Returns three groups of a total, such that both subsets weigh all but at most `greater`, and
/// share all but twice as much at most.
fn groups_of(total: u64, greater: u64) -> Groups
    requires total { 3 ≤ total }
    requires greater { 1 ≤ greater }
    ensures some { (1 ≤ result.first) × (1 ≤ result.middle) × (1 ≤ result.last) }
    ensures sum { result.first + result.middle + result.last ≡ total }
    ensures one { total - greater
        ≤ result.first + cond result.shared result.middle 0 }
    ensures other { total - greater ≤ result.middle + result.last }
    ensures share { cond result.shared result.middle 0 ≤ total - 2 * greater }
{
    // Where both are the total, no participant makes a quorum, and one less is as good.
    let outside = greater.min(total - 1);
    let quorum = total - outside;
    if outside < quorum {
        return Groups {
            first: outside,
            middle: quorum - outside,
            last: outside,
            shared: true,
        };
    }
    Groups {
        first: quorum,
        middle: 1,
        last: outside - 1,
        shared: false,
    }
}

/// How many participants there are in each of three groups.
#[derive(Clone, Copy)]
struct Counts {
    first: usize,
    middle: usize,
    last: usize,
}

/// Returns how many participants to put into each group: one at least, and at most as many as it
/// weighs.
fn counts_of(weighs: Groups, participants: usize) -> Counts
    requires some { (1 ≤ weighs.first) × (1 ≤ weighs.middle) × (1 ≤ weighs.last) }
    requires many { 3 ≤ participants }
    requires fits { participants ≤ weighs.first + weighs.middle + weighs.last }
    ensures some { (1 ≤ result.first) × (1 ≤ result.middle) × (1 ≤ result.last) }
    ensures fits { (result.first ≤ weighs.first) × (result.middle ≤ weighs.middle)
        × (result.last ≤ weighs.last) }
    ensures sum { result.first + result.middle + result.last ≡ participants }
{
    let first = (weighs.first as usize).min(participants - 2);
    let rest = participants - first;
    let middle = (weighs.middle as usize).min(rest - 1);
    Counts {
        first,
        middle,
        last: rest - middle,
    }
}

/// Appends the weights of a group. It has room in memory.
fn push_group<A: Allocator>(
    weights: &mut Vec<u64, A>,
    count: usize,
    weighs: u64,
) -> Result<(), AllocError>
    requires some { 1 ≤ count }
    requires fits { count ≤ weighs }
    requires room { length weights.now.items + count < 2 ^ 64 }
    ensures { OnOk result (weights.new.items ≡ weights.old.items ++ group count weighs) }
{
    let others = count - 1;
    weights.resize(weights.len() + others, 1)?;
    weights.push(weighs - others as u64)?;
    Ok(())
}

/// Returns the weights of three groups.
fn weights_of<A: Allocator>(
    alloc: A,
    weighs: Groups,
    counts: Counts,
) -> Result<Vec<u64, A>, AllocError>
    requires some { (1 ≤ counts.first) × (1 ≤ counts.middle) × (1 ≤ counts.last) }
    requires fits { (counts.first ≤ weighs.first) × (counts.middle ≤ weighs.middle)
        × (counts.last ≤ weighs.last) }
    requires room { counts.first + counts.middle + counts.last < 2 ^ 64 }
    ensures { IfOk result (λ weights. weights.items ≡ groups counts.first weighs.first
        counts.middle weighs.middle counts.last weighs.last) }
{
    let mut weights = Vec::new(alloc);
    push_group(&mut weights, counts.first, weighs.first)?;
    push_group(&mut weights, counts.middle, weighs.middle)?;
    push_group(&mut weights, counts.last, weighs.last)?;
    Ok(weights)
}

/// Returns a subset of three groups: whether each of them is in it.
fn subset_of<A: Allocator>(
    alloc: A,
    counts: Counts,
    first: bool,
    middle: bool,
    last: bool,
) -> Result<Vec<bool, A>, AllocError>
    requires room { counts.first + counts.middle + counts.last < 2 ^ 64 }
    ensures { IfOk result (λ subset. subset.items ≡ group_subset counts.first first
        counts.middle middle counts.last last) }
{
    let mut subset = Vec::new(alloc);
    let two = counts.first + counts.middle;
    subset.resize(counts.first, first)?;
    subset.resize(two, middle)?;
    subset.resize(two + counts.last, last)?;
    Ok(subset)
}
