//! All lines of a reader, and their answers to a writer.
ghost use Rattle.std.specs.Prelude.{◌≡◌, ◌≢◌, ◌↔◌, [], ◌∷◌, ℕ, List, Err, IfErr, IfOk, OnErr, OnOk, true, false};
ghost use Rattle.std.specs.Io.KnownBytes.{Appends};
ghost use Rattle.program_io.specs.Streams.{Gave};
ghost use Rattle.judge_questions.specs.Forms.{types_text};
ghost use Rattle.judge_core.specs.Answered.{AreAnswered, asked_from};
ghost use Rattle.judge_core.specs.Memory.{AreMemoryFree};
ghost use Rattle.judge_core.specs.Said.{Says};
ghost use Rattle.judge_core.specs.Session.{IsAllAnswered, IsPrefixAnswered, IsTooLong, NeedsMemory};

use crate::error::Failure;
use crate::input::read_piece;
use crate::lines::{answer_line, answer_piece, both};
use crate::pending::Pending;
use crate::report::{Part, say_parts};
use crate::room::Room;
use judge_questions::FORMS;
use program_io::{Watched, WriteFailed, write_whole};
use std::alloc::Allocator;
use std::io::{Read, Write};

/// How many bytes are read at once.
const ROOM: usize = 65536;

/// The most pieces that are read, since each loop has an end. No reader comes near it: with a piece
/// each nanosecond that takes 584 years.
const PIECES: u64 = u64::MAX;

/// Answers all lines that the reader gives, up to its end, and returns whether all answers are
/// verdicts. `numbered`: each answer begins with the number of its line, the first of which is 1.
///
/// Before each read, the answers to all lines that came whole have been written and flushed, so
/// whoever sends a line and waits has its answer. A last line needs no line feed. Each line that
/// can't be read is noted on `errors` with its number, and where `errors` fails, nothing else
/// changes. No call of a device is tried again.
pub fn answer_all<A: Allocator + Copy, R: Read, W: Write, E: Write>(
    alloc: A,
    numbered: bool,
    input: &mut Watched<R>,
    output: &mut Watched<W>,
    errors: &mut E,
) -> Result<bool, Failure>
    ensures done { IfOk result (IsAllAnswered numbered
        (Gave (R.remaining input.old.inner) (R.remaining input.new.inner))
        (Appends (W.contents output.old.inner) (W.contents output.new.inner))
        (Appends (E.contents errors.old) (E.contents errors.new))) }
    ensures quiet { result ≡ Ok true → errors.new ≡ errors.old }
    ensures stopped { IfErr result (λ failure. failure ≢ Failure.WriteFailed
        → IsPrefixAnswered numbered (R.remaining input.old.inner) (R.remaining input.new.inner)
        (W.contents output.old.inner) (W.contents output.new.inner)) }
    ensures memory { result ≡ Err Failure.Memory
        → NeedsMemory (R.remaining input.old.inner) (R.remaining input.new.inner) }
    ensures too_long { result ≡ Err Failure.TooLong
        → IsTooLong (R.remaining input.old.inner) (R.remaining input.new.inner) }

    // The devices.
    ensures read_failed { input.old.failed ≡ false
        → ((result ≡ Err Failure.ReadFailed) ↔ (input.new.failed ≡ true)) }
    ensures write_failed { output.old.failed ≡ false
        → ((result ≡ Err Failure.WriteFailed) ↔ (output.new.failed ≡ true)) }
    ensures ended { OnOk result (input.new.ended ≡ true) }
{
    let mut room = [0u8; ROOM];
    let mut pending = Pending::new(alloc);
    let mut number = 1u128;
    let mut judged = true;
    for _piece in 0..PIECES {
        let count = read_piece(input, &mut room)?;
        if count == 0 {
            let last = answer_last(alloc, numbered, number, pending.as_slice(), output, errors)?;
            return Ok(both(judged, last));
        }
        let verdicts = answer_piece(
            alloc,
            numbered,
            &mut pending,
            &mut number,
            &room[..count],
            output,
            errors,
        )?;
        judged = both(judged, verdicts);
    }
    Err(Failure::TooLong)
}

/// Writes the answer to a last line that no line feed ends, and flushes.
fn answer_last<A: Allocator + Copy, W: Write, E: Write>(
    alloc: A,
    numbered: bool,
    number: u128,
    line: &[u8],
    output: &mut Watched<W>,
    errors: &mut E,
) -> Result<bool, Failure>
    ensures answered { IfOk result (λ judged. (said noted : List ℕ)
        × Appends (W.contents output.old.inner) (W.contents output.new.inner) said
        × Appends (E.contents errors.old) (E.contents errors.new) noted
        × AreAnswered numbered (asked_from number (line.now ∷ [])) said noted judged) }
    ensures quiet { result ≡ Ok true → errors.new ≡ errors.old }
    ensures sound { OnOk result (output.new.failed ≡ output.old.failed) }

    // Where it gives up.
    ensures memory { result ≡ Err Failure.Memory → (output.new ≡ output.old)
        × ¬ AreMemoryFree (asked_from number (line.now ∷ [])) }
    ensures failed { IfErr result (λ e. e ≢ Failure.Memory
        → (e ≡ Failure.WriteFailed) × (output.new.failed ≡ true)) }
{
    let mut room = Room::new();
    let judged = answer_line(alloc, numbered, number, line, &mut room, output, errors)?;
    write_whole(output, room.as_slice())?;
    Ok(judged)
}

/// Writes the names of the types, each on a line with what its ranges are, and flushes.
pub fn say_types<W: Write>(output: &mut Watched<W>) -> Result<(), Failure>
    ensures done { OnOk result
        (Appends (W.contents output.old.inner) (W.contents output.new.inner) types_text) }
    ensures failed { IfErr result (λ failure. failure ≡ Failure.WriteFailed) }
    ensures write_failed { output.old.failed ≡ false
        → ((result ≡ Err Failure.WriteFailed) ↔ (output.new.failed ≡ true)) }
{
    let mut room = Room::new();
    say_names(&mut room, output)?;
    Ok(write_whole(output, room.as_slice())?)
}

/// Says the names of the types, each on a line with what its ranges are.
fn say_names<W: Write>(room: &mut Room, output: &mut Watched<W>) -> Result<(), WriteFailed>
    ensures said { OnOk result (Says (W.contents output.old.inner) (W.contents output.new.inner)
        room.old room.new types_text) }
    ensures sound { OnOk result (output.new.failed ≡ output.old.failed) }
    ensures failed { OnErr result (output.new.failed ≡ true) }
{
    for form in &FORMS {
        let parts = [
            Part::Text(form.name()),
            Part::Text(form.ranges()),
            Part::Text("\n"),
        ];
        say_parts(room, output, &parts)?;
    }
    Ok(())
}
