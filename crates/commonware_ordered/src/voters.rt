//! Sets of participants as voters of a committee.
ghost use Rattle.std.specs.Prelude.{◌≡◌, ◌<◌, ◌≤◌, All, length};
ghost use Rattle.commonware_faults.specs.Subsets.{size};
ghost use Rattle.commonware_ordered.specs.Voters.{members_among};

use crate::set::Set;
use commonware_base::Participant;
use std::alloc::Allocator;

/// Returns how many of the members of a committee are among the voters: the size of the subset of
/// its positions that the voters are. A voter at or past the committee's length is no member, and
/// isn't counted.
///
/// Of the voters 0, 2, 3 and 7 three are members of a committee of 4.
pub fn count_members<A: Allocator>(members: usize, voters: &Set<Participant, A>) -> usize
    ensures counted { result ≡ size (members_among members voters.now) }
    ensures all { All (λ voter. voter < members) voters.now → result ≡ length voters.now }
    ensures at_most { (result ≤ members) × (result ≤ length voters.now) }
{
    let mut count = 0;
    for voter in voters.as_slice() {
        if usize::from(*voter) < members {
            count += 1;
        }
    }
    count
}
