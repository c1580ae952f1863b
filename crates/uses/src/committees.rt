//! Modules `ordered` and `faults`: how many members of a committee have to sign, and who they are.
ghost use Rattle.std.specs.Prelude.{◌≡◌, ◌-◌, ◌/◌, ◌<◌, ◌≤◌, ◌^◌, ◌↔◌, IsTrue, Some, SomeIff, length, slice_get};

use commonware_utils::faults::Faults;
use commonware_utils::ordered::{Quorum, Set};
use commonware_utils::{N3f1, Participant};
use std::alloc::Global;

/// How many members have to sign, or `None` where there are none, or more than fit a `u32`: all but
/// the third part of the others, rounded down.
pub fn signatures_needed(members: &Set<u32, Global>) -> Option<u32>
    ensures { SomeIff result ((1 ≤ length members.now) × (length members.now < 2 ^ 32))
        (length members.now - (length members.now - 1) / 3) }
{
    let count = members.len();
    if count == 0 || count > 4294967295 {
        return None;
    }
    Some(N3f1::quorum(count))
}

/// Whether the member with this index is this one.
pub fn is_member(members: &Set<u32, Global>, index: Participant, member: u32) -> bool
    ensures { IsTrue result ↔ (slice_get members.now index ≡ Some member) }
{
    members.key(index) == Some(&member)
}
