//! Runs and sessions with each allocation failing in turn, whatever becomes of them: nothing
//! is written, and the devices are whole.
use crate::bounds::{MOST, TEN};
use crate::committees::{
    ONE_AND_A_BYTE, ONE_CUT_SHORT, TWO, TWO_EQUAL, TWO_REPORT, committee_of_256,
};
use crate::devices::{Input, TAKEN};
use crate::runs::beginning;
use crate::session_trial::{READ, words_of};
use committee_core::{Command, RunError, Watched, parse_args, run, session};
use commonware_base::codec::Error;
use std::alloc::Global;
use std::io::ErrorKind;
use test_equipment::ScriptedWriter;
use test_equipment::walk::{Heap, Outcome, Refusable, full, makes_requests, refused};

/// What a program is asked and given, and what becomes of it.
#[derive(Drop)]
struct Asked<'a> {
    words: &'static [&'static str],
    /// The bytes that it is given. With none, its reader fails at each call.
    bytes: Option<&'a [u8]>,
    outcome: Result<&'a str, RunError>,
    /// The status of a session, and its line on standard error.
    status: u8,
    line: &'static str,
    /// How many requests it makes at least, or 0 where it makes none.
    least: u64,
}

impl<'a> Asked<'a> {
    /// A program that writes this report.
    fn report(words: &'static [&'static str], bytes: Option<&'a [u8]>, report: &'a str) -> Self {
        Asked {
            words,
            bytes,
            outcome: Ok(report),
            status: 0,
            line: "",
            least: 3,
        }
    }

    /// A program that refuses these bytes, after at least `least` allocations.
    fn refusal(bytes: &'a [u8], error: RunError, line: &'static str, least: u64) -> Self {
        Asked {
            words: READ,
            bytes: Some(bytes),
            outcome: Err(error),
            status: 1,
            line,
            least,
        }
    }

    /// What it is given.
    fn input(&self) -> Input<'a> {
        match self.bytes {
            Some(bytes) => Input::of(bytes),
            None => Input::failing(b"", ErrorKind::BrokenPipe),
        }
    }

    /// What it writes where no allocation fails.
    fn written(&self) -> &'a str {
        match self.outcome {
            Ok(report) => report,
            Err(_) => "",
        }
    }

    /// Whether the writer has taken what is written.
    fn is_taken_by(&self, output: &ScriptedWriter<Global>) -> bool {
        output.taken.as_slice() == self.written().as_bytes()
    }

    /// The outcome of a run that returns this and has called the writer so.
    fn run_outcome(
        &self,
        answer: Result<(), RunError>,
        output: &ScriptedWriter<Global>,
    ) -> Outcome {
        match (answer, &self.outcome) {
            (Err(RunError::Memory), _) => refused(is_silent(output)),
            (Ok(()), Ok(_)) => full(self.is_taken_by(output)),
            (Err(error), Err(wanted)) => full(error == *wanted && self.is_taken_by(output)),
            _ => Outcome::Wrong,
        }
    }

    /// The outcome of a session that ends with this status and has called the writers so.
    fn session_outcome(
        &self,
        status: u8,
        output: &ScriptedWriter<Global>,
        errors: &ScriptedWriter<Global>,
    ) -> Outcome {
        let said = errors.taken.as_slice();
        if status == 3 {
            return refused(is_silent(output) && said == b"failed: out of memory\n".as_slice());
        }
        let right = status == self.status && said == self.line.as_bytes();
        full(right && self.is_taken_by(output))
    }
}

/// Whether the writer was never called.
fn is_silent(output: &ScriptedWriter<Global>) -> bool {
    (output.calls, output.flushes) == (0, 0)
}

/// The command that the words ask for.
fn command_of<H: Heap>(heap: H, words: &[&str]) -> Option<Command> {
    let words = words_of(heap, words).ok()?;
    parse_args(&words)
}

/// Programs, each to be done by `run` and by `session`.
fn programs() -> [Asked<'static>; 9] {
    let refused = RunError::Refused;
    let unsorted = Error::Invalid("Set", "items must be sorted and unique");
    [
        Asked::report(READ, Some(TWO), TWO_REPORT),
        Asked::report(&["bounds", "10"], None, TEN),
        Asked::report(&["bounds", "4294967295"], None, MOST),
        Asked::refusal(
            b"\x00",
            refused(Error::InvalidLength(0)),
            "refused: length 0\n",
            0,
        ),
        Asked::refusal(
            b"\x81\x00",
            refused(Error::InvalidVarint),
            "refused: invalid varint\n",
            0,
        ),
        Asked::refusal(
            ONE_CUT_SHORT,
            refused(Error::EndOfBuffer),
            "refused: end of input\n",
            0,
        ),
        Asked::refusal(
            beginning(TWO, 64),
            refused(Error::EndOfBuffer),
            "refused: end of input\n",
            0,
        ),
        Asked::refusal(
            TWO_EQUAL,
            refused(unsorted),
            "refused: Set: items must be sorted and unique\n",
            1,
        ),
        Asked::refusal(
            ONE_AND_A_BYTE,
            RunError::LeftOver(1),
            "refused: 1 bytes left over\n",
            1,
        ),
    ]
}

/// A run. Its writer keeps what it takes in memory of its own.
#[derive(Drop)]
struct Run<'a>(Global, &'a Asked<'a>);

impl<'b> Refusable for Run<'b> {
    fn outcome<H: Heap>(&self, heap: H, granted: u64) -> Outcome {
        let Run(alloc, asked) = self;
        let Some(command) = command_of(heap, asked.words) else {
            return Outcome::Wrong;
        };
        let mut input = asked.input().reader();
        let mut output = Watched::new(TAKEN.writer(*alloc));
        heap.restart(granted);
        let outcome = run(heap, command, &mut input, &mut output);
        let read = command == Command::Read || input.inner().calls == 0;
        if read && !input.failed() && !output.failed() {
            asked.run_outcome(outcome, output.inner())
        } else {
            Outcome::Wrong
        }
    }
}

/// A session. Its writers keep what they take in memory of their own.
#[derive(Drop)]
struct Session<'a>(Global, &'a Asked<'a>);

impl<'b> Refusable for Session<'b> {
    fn outcome<H: Heap>(&self, heap: H, granted: u64) -> Outcome {
        let Session(alloc, asked) = self;
        let Ok(words) = words_of(heap, asked.words) else {
            return Outcome::Wrong;
        };
        let mut input = asked.input().reader();
        let mut output = Watched::new(TAKEN.writer(*alloc));
        let mut errors = TAKEN.writer(*alloc);
        heap.restart(granted);
        let status = session(heap, &words, &mut input, &mut output, &mut errors);
        asked.session_outcome(status, output.inner(), &errors)
    }
}

/// Whether a run and a session make their allocations, and are silent wherever one fails.
fn is_silent_without_memory(alloc: Global, asked: &Asked<'_>) -> bool {
    let run = makes_requests(alloc, &Run(alloc, asked), asked.least);
    run && makes_requests(alloc, &Session(alloc, asked), asked.least)
}

#[test]
fn nothing_is_written_without_memory(rt: HostRuntime) {
    for asked in &programs() {
        let right = is_silent_without_memory(rt.alloc(), asked);
        assert!(rt; right, "{:?} {:?}", asked.words, asked.bytes);
    }
}

/// The most members that there can be: what is read grows past its first room, and so does the
/// report.
#[test]
fn no_line_of_256_members_is_written_without_memory(rt: HostRuntime) {
    let (bytes, report) = committee_of_256(rt.alloc()).expect(&rt, "memory");
    let asked = Asked::report(READ, Some(&bytes), &report);
    assert!(rt; is_silent_without_memory(rt.alloc(), &asked));
}
