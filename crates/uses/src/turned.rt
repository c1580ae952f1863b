//! Two certificates, with either of them first.
ghost use Rattle.std.specs.Prelude.{◌≡◌, ◌≢◌, ◌≤◌, ◌↔◌, IfOk, IsErrOf};
ghost use Rattle.committee_certificates.specs.declared.conflicts.ConflictError.TheVariants.{Outside, TooFew};

use committee_certificates::{Certificate, ConflictError, both_law, conflict_among};
use commonware_utils::Participant;
use commonware_utils::ordered::Set;
use std::alloc::Global;

/// What a conflict names, or why it names no one.
pub type Named = Result<Set<Participant, Global>, ConflictError>;

/// Returns whom two certificates name, with the first of them first, and with the second first:
/// the same members, or the same error but for one of memory. It requires that the values differ,
/// and that `faults` is at most `members`.
pub fn named_either_way(
    alloc: Global,
    members: usize,
    faults: u32,
    first: &Certificate<Global>,
    second: &Certificate<Global>,
) -> (Named, Named)
    requires differ { first.now.value.items ≢ second.now.value.items }
    requires at_most { faults ≤ members }
    ensures same { IfOk result.0 (λ one. IfOk result.1 (λ other. one ≡ other)) }
    ensures outside { IsErrOf result.0 Outside ↔ IsErrOf result.1 Outside }
    ensures too_few { IsErrOf result.0 TooFew ↔ IsErrOf result.1 TooFew }
{
    both_law();
    let one = conflict_among(alloc, members, faults, first, second);
    let other = conflict_among(alloc, members, faults, second, first);
    (one, other)
}
