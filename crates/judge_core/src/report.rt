//! What is said on standard output.
//!
//! It is gathered in a room and written once that is full, or the room is flushed. That takes no
//! allocation, however much is said.
ghost use Rattle.std.specs.Prelude.{◌≡◌, ◌<◌, ◌≤◌, ◌++◌, ◌∷◌, [], length, true, Ok, OnErr, OnOk, Some};
ghost use Rattle.std.specs.Char.{digit_char};
ghost use Rattle.commonware_utils.specs.Sequence.{hex_text};
ghost use Rattle.judge_core.specs.Answered.{answer_line, unreadable_text};
ghost use Rattle.judge_core.specs.Faults.{error_text};
ghost use Rattle.judge_core.specs.Replies.{reply_text};
ghost use Rattle.judge_core.specs.Said.{Says, line_text, part_text, parts_text};
ghost use Rattle.judge_core.specs.Tasks.{built_line, conflict_line, equivocation_line, found_line};
ghost use Rattle.judge_core.specs.Tasks.{misread_line, numbers_line, quorum_line, refuted_line};
ghost use Rattle.judge_core.specs.Tasks.{word_text};
ghost use Rattle.judge_verdicts.specs.Quorums.{checked_of};
ghost use Rattle.judge_verdicts.specs.Whole.{items_of};

use crate::answer::{Answer, unreadable_text};
use crate::reply::Reply;
use crate::room::Room;
use crate::weighted_report::weighted_line;
use commonware_utils::codec::Error;
use itoa::Buffer;
use judge_questions::Unreadable;
use judge_verdicts::{
    Checked, FaultNumbers, Found, Misread, NoConflict, NoEquivocation, NoQuorum, NotBuilt,
    Refutation, Verdict,
};
use program_io::{Watched, WriteFailed, write_whole};
use std::alloc::Allocator;
use std::io::Write;
use std::marker::Model;

/// A part of a line.
#[derive(Clone, Copy)]
pub(crate) enum Part<'a> {
    Text(&'a str),
    /// A number in decimal digits.
    Number(u128),
    /// Bytes in hexadecimal digits.
    Hex(&'a [u8]),
}

/// The most parts that a line has before its line feed.
const PARTS: usize = 12;

/// A line of parts and a line feed, which is seen as its bytes.
#[derive(Drop)]
pub(crate) struct Line<'a> {
    parts: [Part<'a>; PARTS],
    /// How many of them are in use.
    count: usize,
}

impl<'a> Model for Line<'a> {
    ghost use Rattle.std.specs.Prelude.{◌≤◌, ℕ, List, take};
    ghost use Rattle.judge_core.specs.Said.{line_text};

    ghost Value = { List ℕ };

    ghost view = { λ line. line_text (take line.count line.parts) };

    ghost invariant = { λ line. line.count ≤ 12 };
}

/// Says bytes: they are kept in the room while they fit.
fn say_bytes<W: Write>(
    room: &mut Room,
    output: &mut Watched<W>,
    bytes: &[u8],
) -> Result<(), WriteFailed>
    ensures said { OnOk result (Says (W.contents output.old.inner) (W.contents output.new.inner)
        room.old room.new bytes.now) }
    ensures sound { OnOk result (output.new.failed ≡ output.old.failed) }
    ensures failed { OnErr result (output.new.failed ≡ true) }
{
    if room.push(bytes) {
        return Ok(());
    }
    write_whole(output, room.as_slice())?;
    room.clear();
    if room.push(bytes) {
        return Ok(());
    }
    write_whole(output, bytes)
}

/// Says bytes as hexadecimal digits.
fn say_hex<W: Write>(
    room: &mut Room,
    output: &mut Watched<W>,
    bytes: &[u8],
) -> Result<(), WriteFailed>
    ensures said { OnOk result (Says (W.contents output.old.inner) (W.contents output.new.inner)
        room.old room.new (hex_text bytes.now)) }
    ensures sound { OnOk result (output.new.failed ≡ output.old.failed) }
    ensures failed { OnErr result (output.new.failed ≡ true) }
{
    for byte in bytes {
        say_bytes(room, output, &[digit(*byte / 16), digit(*byte % 16)])?;
    }
    Ok(())
}

/// The hexadecimal digit of a value.
fn digit(value: u8) -> u8
    requires { value < 16 }
    ensures { result ≡ digit_char value }
{
    if value < 10 {
        b'0' + value
    } else {
        b'a' - 10 + value
    }
}

/// Says a part.
fn say_part<W: Write>(
    room: &mut Room,
    output: &mut Watched<W>,
    part: &Part<'_>,
) -> Result<(), WriteFailed>
    ensures said { OnOk result (Says (W.contents output.old.inner) (W.contents output.new.inner)
        room.old room.new (part_text part.now)) }
    ensures sound { OnOk result (output.new.failed ≡ output.old.failed) }
    ensures failed { OnErr result (output.new.failed ≡ true) }
{
    match part {
        Part::Text(text) => say_bytes(room, output, text.as_bytes()),
        Part::Number(number) => {
            let mut digits = Buffer::new();
            say_bytes(room, output, digits.format(*number).as_bytes())
        }
        Part::Hex(bytes) => say_hex(room, output, bytes),
    }
}

/// Says the parts, one after another.
pub(crate) fn say_parts<W: Write>(
    room: &mut Room,
    output: &mut Watched<W>,
    parts: &[Part<'_>],
) -> Result<(), WriteFailed>
    ensures said { OnOk result (Says (W.contents output.old.inner) (W.contents output.new.inner)
        room.old room.new (parts_text parts.now)) }
    ensures sound { OnOk result (output.new.failed ≡ output.old.failed) }
    ensures failed { OnErr result (output.new.failed ≡ true) }
{
    for part in parts {
        say_part(room, output, part)?;
    }
    Ok(())
}

/// Says the reply to a line.
pub(crate) fn say_reply<A: Allocator, W: Write>(
    room: &mut Room,
    output: &mut Watched<W>,
    reply: &Reply<A>,
) -> Result<(), WriteFailed>
    ensures said { OnOk result (Says (W.contents output.old.inner) (W.contents output.new.inner)
        room.old room.new (reply_text reply.now)) }
    ensures sound { OnOk result (output.new.failed ≡ output.old.failed) }
    ensures failed { OnErr result (output.new.failed ≡ true) }
{
    let line = reply_line(reply);
    say_parts(room, output, &line.parts[..line.count])?;
    say_bytes(room, output, b"\n")
}

/// The line of these parts, and of a line feed.
pub(crate) fn line_of<'a>(parts: &[Part<'a>]) -> Line<'a>
    requires { length parts.now ≤ 12 }
    ensures { result ≡ line_text parts.now }
{
    let mut all = [Part::Text(""); PARTS];
    all[..parts.len()].copy_from_slice(parts);
    Line {
        parts: all,
        count: parts.len(),
    }
}

/// The line of this text.
pub(crate) fn text_line(text: &str) -> Line<'_>
    ensures { result ≡ text.now ++ 10 ∷ [] }
{
    line_of(&[Part::Text(text)])
}

/// The reply to a line.
#[tactic(auto, unfolding(crate::specs::Replies::reply_text))]
fn reply_line<A: Allocator>(reply: &Reply<A>) -> Line<'_>
    ensures { result ≡ reply_text reply.now }
{
    match reply {
        Reply::Built(built) => built_line(built),
        Reply::Found(found) => found_line(found),
        Reply::Numbers(numbers) => numbers_line(numbers),
        Reply::Refuted(refuted) => refuted_line(refuted),
        Reply::Checked(checked) => quorum_line(checked),
        Reply::Members(members) => conflict_line(members),
        Reply::Equivocated(members) => equivocation_line(members),
        Reply::Weighted(reply) => weighted_line(reply),
        Reply::Answered(answer) => answer_line(answer),
    }
}

/// The answer to a line that asks for a reading.
#[tactic(auto, unfolding(crate::specs::Answered::answer_line))]
fn answer_line(answer: &Answer) -> Line<'_>
    ensures { result ≡ answer_line answer.now }
{
    match answer {
        Answer::Judged(Verdict::Accepted { items, left }) => line_of(&[
            Part::Text("accepted "),
            Part::Number(*items as u128),
            Part::Text(" "),
            Part::Number(*left as u128),
        ]),
        Answer::Judged(Verdict::Refused(error)) => fault_line(error),
        Answer::Unread(what) => unread_line(what),
    }
}

/// What of a line can't be read.
fn unread_line(what: &Unreadable) -> Line<'_>
    ensures { result ≡ unreadable_text what.now ++ 10 ∷ [] }
{
    text_line(unreadable_text(*what))
}

/// The name of a first fault.
#[tactic(auto, unfolding(crate::specs::Faults::error_text))]
fn fault_line(error: &Error) -> Line<'_>
    ensures { result ≡ error_text error.now ++ 10 ∷ [] }
{
    match error {
        Error::EndOfBuffer => text_line("EndOfBuffer"),
        Error::InvalidVarint => text_line("InvalidVarint"),
        Error::InvalidLength(length) => line_of(&[
            Part::Text("InvalidLength "),
            Part::Number(*length as u128),
        ]),
        Error::Invalid(what, rule) => line_of(&[
            Part::Text("Invalid "),
            Part::Text(what),
            Part::Text(": "),
            Part::Text(rule),
        ]),
        Error::Memory => text_line("Memory"),
    }
}

/// Why an input is not the encoding of one value.
#[tactic(auto, unfolding(crate::specs::Tasks::misread_line))]
pub(crate) fn misread_line(what: &Misread) -> Line<'_>
    ensures { result ≡ misread_line what.now }
{
    match what {
        Misread::Fault(error) => fault_line(error),
        Misread::LeftOver(left) => line_of(&[Part::Text("LeftOver "), Part::Number(*left as u128)]),
    }
}

/// What was built, or why nothing was.
#[tactic(auto, unfolding(crate::specs::Tasks::built_line))]
fn built_line<A: Allocator>(built: &Result<Vec<u8, A>, NotBuilt>) -> Line<'_>
    ensures { result ≡ built_line (items_of built.now) }
{
    match built {
        Ok(bytes) => line_of(&[Part::Text("built "), Part::Hex(bytes)]),
        Err(NotBuilt::DuplicateKey) => text_line("DuplicateKey"),
        Err(NotBuilt::DuplicateValue) => text_line("DuplicateValue"),
        Err(NotBuilt::Unread(what)) => misread_line(what),
    }
}

/// The position of an item.
#[tactic(auto, unfolding(crate::specs::Tasks::found_line))]
fn found_line(found: &Found) -> Line<'_>
    ensures { result ≡ found_line found.now }
{
    match found {
        Found::At(place) => line_of(&[Part::Text("position "), Part::Number(*place as u128)]),
        Found::Nowhere => text_line("none"),
        Found::Unread(what) => misread_line(what),
    }
}

/// A model's numbers.
#[tactic(auto, unfolding(crate::specs::Tasks::numbers_line))]
fn numbers_line(numbers: &FaultNumbers) -> Line<'_>
    ensures { result ≡ numbers_line numbers.now }
{
    line_of(&[
        Part::Text("faults "),
        Part::Number(numbers.faults as u128),
        Part::Text(" quorum "),
        Part::Number(numbers.quorum as u128),
        Part::Text(" m-quorum "),
        Part::Number(numbers.smaller_quorum as u128),
    ])
}

/// Two ranges that share too few, or that there are none.
#[tactic(auto, unfolding(crate::specs::Tasks::refuted_line))]
fn refuted_line(refuted: &Option<Refutation>) -> Line<'_>
    ensures { result ≡ refuted_line refuted.now }
{
    match refuted {
        Some(why) => line_of(&[
            Part::Text("first "),
            Part::Number(why.first.start as u128),
            Part::Text(".."),
            Part::Number(why.first.end as u128),
            Part::Text(" second "),
            Part::Number(why.second.start as u128),
            Part::Text(".."),
            Part::Number(why.second.end as u128),
            Part::Text(" shared "),
            Part::Number(why.shared as u128),
            Part::Text(" needed "),
            Part::Number(why.needed as u128),
        ]),
        None => text_line("tolerated"),
    }
}

/// What a quorum signed by a certificate, or why none did.
#[tactic(auto, unfolding(crate::specs::Tasks::quorum_line))]
fn quorum_line<A: Allocator>(checked: &Result<Checked<A>, NoQuorum>) -> Line<'_>
    ensures { result ≡ quorum_line (checked_of checked.now) }
{
    match checked {
        Ok(certificate) => certificate_line(certificate),
        Err(NoQuorum::Outside) => text_line("Outside"),
        Err(NoQuorum::TooFew) => text_line("TooFew"),
        Err(NoQuorum::Unread(what)) => misread_line(what),
    }
}

/// A certificate that a quorum signed.
#[tactic(auto, unfolding(crate::specs::Tasks::quorum_line))]
fn certificate_line<A: Allocator>(certificate: &Checked<A>) -> Line<'_>
    ensures { result ≡ quorum_line (checked_of (Ok certificate.now)) }
{
    let signers = Part::Number(certificate.signers as u128);
    match &certificate.slot {
        Some((slot, decision)) => line_of(&[
            Part::Text("quorum "),
            signers,
            Part::Text(" slot "),
            word_part(slot),
            Part::Text(" decision "),
            word_part(decision),
        ]),
        None => line_of(&[Part::Text("quorum "), signers, Part::Text(" no slot")]),
    }
}

/// Bytes as a word, which is `-` where there are none.
pub(crate) fn word_part(bytes: &[u8]) -> Part<'_>
    ensures { part_text result ≡ word_text bytes.now }
{
    if bytes.is_empty() {
        Part::Text("-")
    } else {
        Part::Hex(bytes)
    }
}

/// Who signed both certificates, or why no one is named.
#[tactic(auto, unfolding(crate::specs::Tasks::conflict_line))]
fn conflict_line<A: Allocator>(members: &Result<Vec<u8, A>, NoConflict>) -> Line<'_>
    ensures { result ≡ conflict_line (items_of members.now) }
{
    match members {
        Ok(bytes) => line_of(&[Part::Text("members "), Part::Hex(bytes)]),
        Err(NoConflict::EqualValues) => text_line("EqualValues"),
        Err(NoConflict::Outside) => text_line("Outside"),
        Err(NoConflict::TooFew) => text_line("TooFew"),
        Err(NoConflict::Unread(what)) => misread_line(what),
    }
}

/// Who signed two different decisions for one slot, or why no one is named.
#[tactic(auto, unfolding(crate::specs::Tasks::equivocation_line))]
fn equivocation_line<A: Allocator>(members: &Result<Vec<u8, A>, NoEquivocation>) -> Line<'_>
    ensures { result ≡ equivocation_line (items_of members.now) }
{
    match members {
        Ok(bytes) => line_of(&[Part::Text("members "), Part::Hex(bytes)]),
        Err(NoEquivocation::NoSlot) => text_line("NoSlot"),
        Err(NoEquivocation::OtherSlot) => text_line("OtherSlot"),
        Err(NoEquivocation::SameDecision) => text_line("SameDecision"),
        Err(NoEquivocation::Outside) => text_line("Outside"),
        Err(NoEquivocation::TooFew) => text_line("TooFew"),
        Err(NoEquivocation::Unread(what)) => misread_line(what),
    }
}
