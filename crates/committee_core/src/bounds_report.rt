//! The report on the bounds of the fault models, as a string in memory.
//!
//! Each line has a function of its own, which appends it.
ghost use Rattle.std.specs.Prelude.{◌≡◌, ◌+◌, ◌*◌, ◌≤◌, ◌++◌, OnOk, IfOk, string_bytes};
ghost use Rattle.std.specs.Int.NonZero.{non_zero_u32_get};
ghost use Rattle.committee_core.specs.BoundsReport.{IsBoundsReport, n_line, refuted_line};
ghost use Rattle.committee_core.specs.BoundsReport.{n3f1_refuted_line, n5f1_refuted_line, m_refuted_line};

use crate::Refutation;
use crate::refutation::{m_refutation, refutation};
use crate::report::{write_n3f1, write_n5f1};
use commonware_faults::{Faults, N3f1, N5f1};
use std::alloc::{AllocError, Allocator};
use std::num::NonZeroU32;

/// Returns the report on the numbers of the fault models for `n` members: why no more faults and no
/// smaller quorum hold.
pub(crate) fn bounds_report<A: Allocator>(alloc: A, n: NonZeroU32) -> Result<String<A>, AllocError>
    ensures { IfOk result (λ text. IsBoundsReport (non_zero_u32_get n) (string_bytes text)) }
{
    let n = n.get();
    let mut text = String::new(alloc);
    write_n(&mut text, n)?;
    write_n3f1(&mut text, n)?;
    write_n3f1_refuted(&mut text, n)?;
    write_n5f1(&mut text, n)?;
    write_n5f1_refuted(&mut text, n)?;
    write_m_refuted(&mut text, n)?;
    Ok(text)
}

#[tactic(auto, unfolding(crate::specs::BoundsReport::n_line))]
fn write_n<A: Allocator>(text: &mut String<A>, n: u32) -> Result<(), AllocError>
    ensures { OnOk result (string_bytes text.new ≡ string_bytes text.old ++ n_line n) }
{
    writeln!(text, "n {n}")
}

/// Appends the line of the least f that is too large for the model N3f1.
fn write_n3f1_refuted<A: Allocator>(text: &mut String<A>, n: u32) -> Result<(), AllocError>
    requires { 1 ≤ n }
    ensures { OnOk result (string_bytes text.new
        ≡ string_bytes text.old ++ n3f1_refuted_line n (⟦<N3f1 as Faults>⟧.faults n + 1)) }
{
    let f = N3f1::max_faults(n) + 1;
    write_refuted(text, "N3f1 refuted", f, &refutation(n, f), f + 1)
}

/// Appends the line of the least f that is too large for the model N5f1.
fn write_n5f1_refuted<A: Allocator>(text: &mut String<A>, n: u32) -> Result<(), AllocError>
    requires { 1 ≤ n }
    ensures { OnOk result (string_bytes text.new
        ≡ string_bytes text.old ++ n5f1_refuted_line n (⟦<N5f1 as Faults>⟧.faults n + 1)) }
{
    let f = N5f1::max_faults(n) + 1;
    write_refuted(text, "N5f1 refuted", f, &refutation(n, f), 3 * f + 1)
}

/// Appends the line of the greatest m that is too small for the model N5f1.
fn write_m_refuted<A: Allocator>(text: &mut String<A>, n: u32) -> Result<(), AllocError>
    requires { 1 ≤ n }
    ensures { OnOk result (string_bytes text.new ≡ string_bytes text.old
        ++ m_refuted_line n (⟦<N5f1 as Faults>⟧.faults n) (2 * ⟦<N5f1 as Faults>⟧.faults n)) }
{
    let m = N5f1::m_quorum(n) - 1;
    let needed = N5f1::max_faults(n) + 1;
    write_refuted(text, "N5f1 m-refuted", m, &m_refutation(n, m), needed)
}

#[tactic(auto, unfolding(crate::specs::BoundsReport::refuted_line))]
fn write_refuted<A: Allocator>(
    text: &mut String<A>,
    label: &str,
    number: u32,
    by: &Refutation,
    needed: u32,
) -> Result<(), AllocError>
    ensures { OnOk result (string_bytes text.new
        ≡ string_bytes text.old ++ refuted_line label.now number by.now needed) }
{
    writeln!(
        text,
        "{label} {number} first {}..{} second {}..{} shared {} needed {needed}",
        by.first.start, by.first.end, by.second.start, by.second.end, by.shared
    )
}
