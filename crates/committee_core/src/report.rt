//! The report on a committee, as a string in memory.
//!
//! Each line has a function of its own, which appends it.
ghost use Rattle.std.specs.Prelude.{◌≡◌, ◌+◌, ◌-◌, ◌*◌, ◌^◌, ◌<◌, ◌≤◌, ◌++◌, length, OnOk, IfOk, string_bytes};
ghost use Rattle.commonware_faults.specs.Counts.{n3f1_faults, n5f1_faults};
ghost use Rattle.committee_core.specs.Report.{IsMembersReport, members_line, member_line};
ghost use Rattle.committee_core.specs.Report.{n3f1_line, n5f1_line};

use crate::member::Member;
use commonware_faults::{Faults, N3f1, N5f1};
use std::alloc::{AllocError, Allocator};

/// Returns the report on the members: how many they are, each with its position, and the numbers of
/// the fault models. It requires 1 to 4294967295 members.
pub(crate) fn committee_report<A: Allocator>(
    alloc: A,
    members: &[Member],
) -> Result<String<A>, AllocError>
    requires some { 1 ≤ length members.now }
    requires few { length members.now < 2 ^ 32 }
    ensures { IfOk result (λ text. IsMembersReport members.now (string_bytes text)) }
{
    let mut text = String::new(alloc);
    write_members(&mut text, members.len())?;
    for (position, item) in members.iter().enumerate() {
        write_member(&mut text, position, item)?;
    }
    let n = members.len() as u32;
    write_n3f1(&mut text, n)?;
    write_n5f1(&mut text, n)?;
    Ok(text)
}

#[tactic(auto, unfolding(crate::specs::Report::members_line))]
fn write_members<A: Allocator>(text: &mut String<A>, n: usize) -> Result<(), AllocError>
    ensures { OnOk result (string_bytes text.new ≡ string_bytes text.old ++ members_line n) }
{
    writeln!(text, "members {n}")
}

#[tactic(auto, unfolding(crate::specs::Report::member_line))]
fn write_member<A: Allocator>(
    text: &mut String<A>,
    position: usize,
    item: &Member,
) -> Result<(), AllocError>
    ensures { OnOk result
        (string_bytes text.new ≡ string_bytes text.old ++ member_line position item.now) }
{
    writeln!(text, "{position} {item}")
}

/// Appends the numbers of the model N3f1 for `n` members.
#[tactic(auto, unfolding(crate::specs::Report::n3f1_line))]
pub(crate) fn write_n3f1<A: Allocator>(text: &mut String<A>, n: u32) -> Result<(), AllocError>
    requires { 1 ≤ n }
    ensures { OnOk result (string_bytes text.new
        ≡ string_bytes text.old ++ n3f1_line (n3f1_faults n) (n - n3f1_faults n)) }
{
    let faults = N3f1::max_faults(n);
    let quorum = N3f1::quorum(n);
    writeln!(text, "N3f1 faults {faults} quorum {quorum}")
}

/// Appends the numbers of the model N5f1 for `n` members.
#[tactic(auto, unfolding(crate::specs::Report::n5f1_line))]
pub(crate) fn write_n5f1<A: Allocator>(text: &mut String<A>, n: u32) -> Result<(), AllocError>
    requires { 1 ≤ n }
    ensures { let f = n5f1_faults n in OnOk result (string_bytes text.new
        ≡ string_bytes text.old ++ n5f1_line f (n - f) (2 * f + 1)) }
{
    let faults = N5f1::max_faults(n);
    let quorum = N5f1::quorum(n);
    let m = N5f1::m_quorum(n);
    writeln!(text, "N5f1 faults {faults} quorum {quorum} m-quorum {m}")
}
