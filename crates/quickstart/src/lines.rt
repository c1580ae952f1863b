//! The lines that the program prints, each by a function of its own.
ghost use Rattle.std.specs.Prelude.{◌≡◌, ◌++◌, OnOk, string_bytes};
ghost use Rattle.quickstart.specs.Report.{member_line, members_line, n3f1_line, n5f1_line};

use std::alloc::{AllocError, Global};

#[tactic(auto, unfolding(crate::specs::Report::members_line))]
pub(crate) fn write_members(text: &mut String<Global>, n: usize) -> Result<(), AllocError>
    ensures { OnOk result (string_bytes text.new ≡ string_bytes text.old ++ members_line n) }
{
    writeln!(text, "members {n}")
}

#[tactic(auto, unfolding(crate::specs::Report::member_line))]
pub(crate) fn write_member(
    text: &mut String<Global>,
    position: usize,
    member: u8,
) -> Result<(), AllocError>
    ensures { OnOk result
        (string_bytes text.new ≡ string_bytes text.old ++ member_line position member) }
{
    writeln!(text, "{position} {member}")
}

#[tactic(auto, unfolding(crate::specs::Report::n3f1_line))]
pub(crate) fn write_n3f1(
    text: &mut String<Global>,
    faults: u32,
    quorum: u32,
) -> Result<(), AllocError>
    ensures { OnOk result
        (string_bytes text.new ≡ string_bytes text.old ++ n3f1_line faults quorum) }
{
    writeln!(text, "N3f1 faults {faults} quorum {quorum}")
}

#[tactic(auto, unfolding(crate::specs::Report::n5f1_line))]
pub(crate) fn write_n5f1(
    text: &mut String<Global>,
    faults: u32,
    quorum: u32,
    m: u32,
) -> Result<(), AllocError>
    ensures { OnOk result
        (string_bytes text.new ≡ string_bytes text.old ++ n5f1_line faults quorum m) }
{
    writeln!(text, "N5f1 faults {faults} quorum {quorum} m-quorum {m}")
}
