//! Sets of signers: the participants in both of two, and whether all of one are members.
ghost use Rattle.std.specs.Prelude.{◌+◌, ◌≤◌, ◌↔◌, IfOk, IsFalse, IsTrue, OnErr, OnOk, length};
ghost use Rattle.committee_certificates.specs.Signers.{AreInBoth, AreMembers, HasOutsider};
ghost use Rattle.committee_certificates.specs.WalkCosts.{IsWalkedToAnEnd};

use crate::intersection::in_both;
use commonware_base::Participant;
use commonware_ordered::{Counter, Set};
use std::alloc::{AllocError, Allocator};

/// Returns the participants in both of two sets of signers, and counts how often it compares one of
/// the first with one of the second: at most as often as there are signers in both sets, where
/// those in both are counted once; and for an Ok at least as often as one of the sets has signers.
///
/// It makes at most one allocation, for as many indices as the smaller set has, and none where one
/// of them is empty.
///
/// Of 0, 1, 2 and 1, 2, 3 it returns 1, 2.
pub fn signers_of_both_counted<A: Allocator, C: Counter>(
    alloc: A,
    first: &Set<Participant, A>,
    second: &Set<Participant, A>,
    count: &mut C,
) -> Result<Set<Participant, A>, AllocError>
    ensures both { IfOk result (AreInBoth first.now second.now) }
    ensures nothing { OnErr result ((1 ≤ length first.now) × (1 ≤ length second.now)) }
    ensures cost { C.counted count.new
        ≤ C.counted count.old + length first.now + length second.now }
    ensures once { IfOk result (λ both. C.counted count.new + length both
        ≤ C.counted count.old + length first.now + length second.now) }
    ensures least { OnOk result (IsWalkedToAnEnd C.step (length first.now) (length second.now)
        (C.counted count.old) (C.counted count.new)) }
{
    let both = in_both(alloc, first.as_slice(), second.as_slice(), count)?;
    Ok(Set::from_strict(both))
}

/// Whether every signer is a member of a committee of `members` members: their indices are below
/// `members`. Else a signer is at or past it.
///
/// The signers 0 and 3 are members of a committee of 4, and not of one of 3; no signers are members
/// of any.
pub fn are_members<A: Allocator>(members: usize, signers: &Set<Participant, A>) -> bool
    ensures is_true { IsTrue result ↔ AreMembers members signers.now }
    ensures is_false { IsFalse result ↔ HasOutsider members signers.now }
{
    // They are strictly increasing, so the last one decides.
    match signers.as_slice().last() {
        Some(last) => usize::from(*last) < members,
        None => true,
    }
}
