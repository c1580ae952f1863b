//! The lines of an input that comes in pieces.
ghost use Rattle.std.specs.Prelude.{◌≡◌, ◌≢◌, ◌&&◌, ◌↔◌, ◌+◌, ◌^◌, ◌<◌, ◌≤◌, ◌++◌, ◌∷◌, [], ℕ, List, length, true, Err};
ghost use Rattle.std.specs.Prelude.{IfErr, IfOk, IsTrue, OnErr, OnOk};
ghost use Rattle.std.specs.Io.KnownBytes.{Appends};
ghost use Rattle.std.specs.Str.Lines.{lines, strip_carriage_return};
ghost use Rattle.judge_core.specs.Answered.{AreAnswered, Continues, HasNoFeed, asked_from, is_asked, is_judged, note_of, said_of, told_by};
ghost use Rattle.judge_core.specs.Lines.{IsComment, IsKept, IsStoppedWithin};
ghost use Rattle.judge_core.specs.Memory.{AreMemoryFree};
ghost use Rattle.judge_core.specs.Replies.{is_verdict, told_of};
ghost use Rattle.judge_core.specs.Said.{Says};

use crate::answer::Answer;
use crate::error::Failure;
use crate::notes::note;
use crate::pending::Pending;
use crate::reply::{Reply, reply_to};
use crate::report::{Part, say_parts, say_reply};
use crate::room::Room;
use judge_questions::place_of;
use program_io::{Watched, WriteFailed, write_whole};
use std::alloc::{AllocError, Allocator};
use std::io::Write;

/// Answers the whole lines of a piece of the input, where a prefix of the first came before, and
/// keeps the prefix of the line that the piece doesn't end. The answers are written, and flushed.
/// Returns whether all of them are verdicts.
///
/// `number` is that of the first line, and then of the one that is left. Where an allocation fails,
/// the answers to the lines before are written.
pub(crate) fn answer_piece<A: Allocator + Copy, W: Write, E: Write>(
    alloc: A,
    numbered: bool,
    pending: &mut Pending<A>,
    number: &mut u128,
    piece: &[u8],
    output: &mut Watched<W>,
    errors: &mut E,
) -> Result<bool, Failure>
    requires unfinished { HasNoFeed pending.old }
    requires countable { number.old + length piece.now < 2 ^ 128 }
    ensures unfinished { OnOk result (HasNoFeed pending.new) }
    ensures counted { OnOk result (number.new ≤ number.old + length piece.now) }
    ensures answered { IfOk result (λ judged. (said noted : List ℕ)
        × Appends (W.contents output.old.inner) (W.contents output.new.inner) said
        × Appends (E.contents errors.old) (E.contents errors.new) noted
        × Continues numbered number.old pending.old piece.now number.new pending.new said noted
        judged) }
    ensures quiet { result ≡ Ok true → errors.new ≡ errors.old }
    ensures sound { OnOk result (output.new.failed ≡ output.old.failed) }

    // Where it gives up.
    ensures memory { result ≡ Err Failure.Memory → (output.new.failed ≡ output.old.failed)
        × IsStoppedWithin numbered number.old pending.old piece.now
        (Appends (W.contents output.old.inner) (W.contents output.new.inner))
        × ¬ AreMemoryFree (asked_from number.old (lines (pending.old ++ piece.now))) }
    ensures failed { IfErr result (λ e. e ≢ Failure.Memory
        → (e ≡ Failure.WriteFailed) × (output.new.failed ≡ true)) }
{
    let mut room = Room::new();
    let judged = answer_lines(
        alloc, numbered, pending, number, piece, &mut room, output, errors,
    );
    if judged == Err(Failure::WriteFailed) {
        return judged;
    }
    write_whole(output, room.as_slice())?;
    judged
}

/// Answers the whole lines of a piece, as `answer_piece` does, by way of a room.
fn answer_lines<A: Allocator + Copy, W: Write, E: Write>(
    alloc: A,
    numbered: bool,
    pending: &mut Pending<A>,
    number: &mut u128,
    piece: &[u8],
    room: &mut Room,
    output: &mut Watched<W>,
    errors: &mut E,
) -> Result<bool, Failure>
    requires unfinished { HasNoFeed pending.old }
    requires countable { number.old + length piece.now < 2 ^ 128 }
    ensures unfinished { OnOk result (HasNoFeed pending.new) }
    ensures counted { OnOk result (number.new ≤ number.old + length piece.now) }
    ensures answered { IfOk result (λ judged. (said noted : List ℕ)
        × Says (W.contents output.old.inner) (W.contents output.new.inner) room.old room.new said
        × Appends (E.contents errors.old) (E.contents errors.new) noted
        × Continues numbered number.old pending.old piece.now number.new pending.new said noted
        judged) }
    ensures quiet { result ≡ Ok true → errors.new ≡ errors.old }
    ensures sound { OnOk result (output.new.failed ≡ output.old.failed) }

    // Where it gives up.
    ensures memory { result ≡ Err Failure.Memory → (output.new.failed ≡ output.old.failed)
        × IsStoppedWithin numbered number.old pending.old piece.now
        (Says (W.contents output.old.inner) (W.contents output.new.inner) room.old room.new)
        × ¬ AreMemoryFree (asked_from number.old (lines (pending.old ++ piece.now))) }
    ensures failed { IfErr result (λ e. e ≢ Failure.Memory
        → (e ≡ Failure.WriteFailed) × (output.new.failed ≡ true)) }
{
    let mut rest = piece;
    let mut judged = true;
    while let Some(at) = place_of(rest, b'\n') {
        extend_line(pending, &rest[..at])?;
        let line = without_return(pending.as_slice());
        let verdict = answer_line(alloc, numbered, *number, line, room, output, errors)?;
        judged = both(judged, verdict);
        pending.clear();
        *number += 1;
        rest = &rest[at + 1..];
    }
    extend_line(pending, rest)?;
    Ok(judged)
}

/// Answers a line, unless it asks for no answer: an empty one and a comment are passed over.
/// Returns whether there was no answer or it is a verdict.
pub(crate) fn answer_line<A: Allocator + Copy, W: Write, E: Write>(
    alloc: A,
    numbered: bool,
    number: u128,
    line: &[u8],
    room: &mut Room,
    output: &mut Watched<W>,
    errors: &mut E,
) -> Result<bool, Failure>
    ensures answered { IfOk result (λ judged. (said noted : List ℕ)
        × Says (W.contents output.old.inner) (W.contents output.new.inner) room.old room.new said
        × Appends (E.contents errors.old) (E.contents errors.new) noted
        × AreAnswered numbered (asked_from number (line.now ∷ [])) said noted judged) }
    ensures quiet { result ≡ Ok true → errors.new ≡ errors.old }
    ensures sound { OnOk result (output.new.failed ≡ output.old.failed) }

    // Where it gives up.
    ensures memory { result ≡ Err Failure.Memory → (output.new ≡ output.old)
        × (room.new ≡ room.old) × ¬ AreMemoryFree (asked_from number (line.now ∷ [])) }
    ensures failed { IfErr result (λ e. e ≢ Failure.Memory
        → (e ≡ Failure.WriteFailed) × (output.new.failed ≡ true)) }
{
    if asks(line) {
        let reply = reply_to(alloc, line)?;
        say_line(room, output, numbered, number, &reply)?;
        note_line(errors, number, &reply);
        return Ok(reply.is_verdict());
    }
    Ok(true)
}

/// Whether the line asks for an answer: it isn't empty, and no comment.
fn asks(line: &[u8]) -> bool
    ensures { result ≡ is_asked line.now }
{
    match line {
        [] | [b'#', ..] => false,
        _ => true,
    }
}

/// Says the reply to the line of this number.
fn say_line<A: Allocator, W: Write>(
    room: &mut Room,
    output: &mut Watched<W>,
    numbered: bool,
    number: u128,
    reply: &Reply<A>,
) -> Result<(), WriteFailed>
    ensures said { OnOk result (Says (W.contents output.old.inner) (W.contents output.new.inner)
        room.old room.new (said_of numbered (number, told_of reply.now))) }
    ensures sound { OnOk result (output.new.failed ≡ output.old.failed) }
    ensures failed { OnErr result (output.new.failed ≡ true) }
{
    if numbered {
        say_parts(room, output, &[Part::Number(number), Part::Text(": ")])?;
        return say_reply(room, output, reply);
    }
    say_reply(room, output, reply)
}

/// Notes the line of this number if it can't be read.
fn note_line<A: Allocator, E: Write>(errors: &mut E, number: u128, reply: &Reply<A>)
    ensures noted { (prefix back : List ℕ) × (note_of (number, told_of reply.now) ≡ prefix ++ back)
        × Appends (E.contents errors.old) (E.contents errors.new) prefix }
    ensures quiet { is_verdict reply.now ≡ true → errors.new ≡ errors.old }
{
    if let Reply::Answered(answer) = reply {
        note_answer(errors, number, answer);
    }
}

/// Notes the line of this number if this is an answer to one that can't be read.
fn note_answer<E: Write>(errors: &mut E, number: u128, answer: &Answer)
    ensures noted { (prefix back : List ℕ)
        × (note_of (number, told_by answer.now) ≡ prefix ++ back)
        × Appends (E.contents errors.old) (E.contents errors.new) prefix }
    ensures quiet { is_judged answer.now ≡ true → errors.new ≡ errors.old }
{
    if let Answer::Unread(what) = answer {
        note(errors, number, *what);
    }
}

/// Appends bytes to the line under way. Of a comment, only the `#` is kept.
///
/// The error is an allocation failure, which no comment meets, and no line of up to 4096 bytes.
pub(crate) fn extend_line<A: Allocator + Copy>(
    pending: &mut Pending<A>,
    bytes: &[u8],
) -> Result<(), AllocError>
    ensures kept { OnOk result (IsKept (pending.old ++ bytes.now) pending.new) }
    ensures unfinished { OnOk result (HasNoFeed pending.old → HasNoFeed bytes.now
        → HasNoFeed pending.new) }
    ensures memory { IfErr result (λ _. (4096 < length (pending.old ++ bytes.now))
        × ¬ IsComment (pending.old ++ bytes.now)) }
{
    if is_comment(pending.as_slice()) {
        return Ok(());
    }
    if begins_comment(pending.as_slice(), bytes) {
        return pending.extend(b"#");
    }
    pending.extend(bytes)
}

/// Whether bytes begin a comment, where these came before in the line.
fn begins_comment(pending: &[u8], bytes: &[u8]) -> bool
    ensures { IsTrue result ↔ ((pending.now ≡ []) × IsComment bytes.now) }
{
    pending.is_empty() && is_comment(bytes)
}

/// Whether the line is a comment, as far as it has come.
fn is_comment(line: &[u8]) -> bool
    ensures { IsTrue result ↔ IsComment line.now }
{
    match line {
        [b'#', ..] => true,
        _ => false,
    }
}

/// The line without the one carriage return at its end, if it has one.
fn without_return(line: &[u8]) -> &[u8]
    ensures { result.now ≡ strip_carriage_return line.now }
{
    match line {
        [pending @ .., b'\r'] => pending,
        _ => line,
    }
}

/// Whether both are true.
pub(crate) fn both(one: bool, other: bool) -> bool
    ensures { result ≡ (one && other) }
{
    one && other
}
