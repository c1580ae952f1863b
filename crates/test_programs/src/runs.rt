//! A run over devices that fail, and over devices that give or take a byte a call.
use crate::bounds::{MOST, ONE, TEN};
use crate::committees::{TWO, TWO_REPORT};
use crate::devices::{Input, Output, TAKEN, WHOLE};
use crate::session_trial::{READ, arguments_of, words_of};
use committee_core::{Command, RunError, Watched, run, session, start};
use std::alloc::{AllocError, Global};
use std::io::ErrorKind;
use std::num::NonZeroU32;
use std::test::Fail;
use test_equipment::{Refusing, ScriptedReader, ScriptedWriter, WriteFault};

/// How a run ends that has memory, and bytes that are a committee.
#[derive(Clone, Copy, PartialEq, Eq)]
pub enum End {
    Done,
    ReadFailed,
    WriteFailed,
}

impl End {
    /// What the run returns.
    fn answer(self) -> Result<(), RunError> {
        match self {
            End::Done => Ok(()),
            End::ReadFailed => Err(RunError::ReadFailed),
            End::WriteFailed => Err(RunError::WriteFailed),
        }
    }

    /// The exit status, and the line on standard error.
    fn status(self) -> (u8, &'static str) {
        match self {
            End::Done => (0, ""),
            End::ReadFailed => (3, "failed: read\n"),
            End::WriteFailed => (3, "failed: write\n"),
        }
    }
}

/// A run, and what has to become of it.
#[derive(Clone, Copy)]
pub struct Run<'a> {
    pub command: Command,
    /// The words that ask for the command.
    pub words: &'a [&'a str],
    pub input: Input<'a>,
    pub output: Output,
    pub end: End,
    /// How often the reader and the writer are called, and how often the writer is flushed.
    pub reads: u32,
    pub writes: u32,
    pub flushes: u32,
    /// What is written.
    pub written: &'a [u8],
}

/// Whether the devices are left as they have to be.
fn are_right(
    input: &Watched<ScriptedReader<'_>>,
    output: &Watched<ScriptedWriter<Global>>,
    wanted: &Run<'_>,
) -> bool {
    let device = output.inner();
    let all_read = wanted.command == Command::Read && wanted.end != End::ReadFailed;
    input.failed() == (wanted.end == End::ReadFailed)
        && output.failed() == (wanted.end == End::WriteFailed)
        && input.ended() == all_read
        && input.inner().calls == wanted.reads
        && (device.calls, device.flushes) == (wanted.writes, wanted.flushes)
        && device.taken.as_slice() == wanted.written
}

/// Whether the status is that of the end, and standard error has taken its line.
fn is_told(status: u8, errors: &ScriptedWriter<Global>, end: End) -> bool {
    let (wanted, line) = end.status();
    status == wanted && errors.taken.as_slice() == line.as_bytes()
}

/// Whether `run` does what it has to, with the command.
fn is_run(alloc: Global, wanted: &Run<'_>) -> bool {
    let heap = Refusing::after(alloc, u64::MAX);
    let mut input = wanted.input.reader();
    let mut output = Watched::new(wanted.output.writer(alloc));
    let answer = run(&heap, wanted.command, &mut input, &mut output);
    answer == wanted.end.answer() && are_right(&input, &output, wanted)
}

/// Whether `session` does what it has to, with the words.
fn is_session(alloc: Global, wanted: &Run<'_>) -> Result<bool, AllocError> {
    let heap = Refusing::after(alloc, u64::MAX);
    let words = words_of(&heap, wanted.words)?;
    let mut input = wanted.input.reader();
    let mut output = Watched::new(wanted.output.writer(alloc));
    let mut errors = TAKEN.writer(alloc);
    let status = session(&heap, &words, &mut input, &mut output, &mut errors);
    Ok(is_told(status, &errors, wanted.end) && are_right(&input, &output, wanted))
}

/// Whether `start` does what it has to, with the words after the program's name.
fn is_start(alloc: Global, wanted: &Run<'_>) -> Result<bool, AllocError> {
    let heap = Refusing::after(alloc, u64::MAX);
    let arguments = Ok(arguments_of(&heap, wanted.words)?.into_iter());
    let mut input = wanted.input.reader();
    let mut output = Watched::new(wanted.output.writer(alloc));
    let mut errors = TAKEN.writer(alloc);
    let status = start(&heap, arguments, &mut input, &mut output, &mut errors);
    Ok(is_told(status, &errors, wanted.end) && are_right(&input, &output, wanted))
}

/// Whether the run does what it has to by itself, in a session, and from the program's
/// arguments.
pub fn is_right(alloc: Global, wanted: &Run<'_>) -> Result<bool, AllocError> {
    Ok(is_run(alloc, wanted) && is_session(alloc, wanted)? && is_start(alloc, wanted)?)
}

/// A run that reads these bytes at once, and writes this report at once.
pub fn read_run<'a>(bytes: &'a [u8], report: &'a str) -> Run<'a> {
    Run {
        command: Command::Read,
        words: READ,
        input: Input::of(bytes),
        output: TAKEN,
        end: End::Done,
        reads: 2,
        writes: 1,
        flushes: 1,
        written: report.as_bytes(),
    }
}

/// The run where the reader fails after `reads` calls, and nothing is written.
pub fn with_failed_read<'a>(whole: Run<'a>, input: Input<'a>, reads: u32) -> Run<'a> {
    Run {
        input,
        end: End::ReadFailed,
        reads,
        writes: 0,
        flushes: 0,
        written: b"",
        ..whole
    }
}

/// The run where the writer fails at the last of `writes` calls, and has taken `taken` bytes.
pub fn with_failed_write(whole: Run<'_>, output: Output, writes: u32, taken: usize) -> Run<'_> {
    Run {
        output,
        end: End::WriteFailed,
        writes,
        flushes: 0,
        written: beginning(whole.written, taken),
        ..whole
    }
}

/// The run where the writer takes all, and its flush fails.
pub fn with_failed_flush(whole: Run<'_>, kind: ErrorKind) -> Run<'_> {
    let output = Output {
        flush_failure: Some(kind),
        ..whole.output
    };
    Run {
        output,
        end: End::WriteFailed,
        ..whole
    }
}

/// The first `length` bytes, or all if there are no more.
pub fn beginning(bytes: &[u8], length: usize) -> &[u8] {
    &bytes[..length.min(bytes.len())]
}

/// The run on the committee of two, with a report of 201 bytes.
fn whole_run() -> Run<'static> {
    read_run(TWO, TWO_REPORT)
}

/// How many bytes a reader gives before it fails, how many of them a call, and how often it is
/// called.
static FAILED_READS: [(usize, usize, u32); 6] = [
    (0, 1, 1),
    (0, WHOLE, 1),
    (2, 1, 3),
    (2, WHOLE, 2),
    (65, 1, 66),
    (65, WHOLE, 2),
];

/// Nothing is tried again, and nothing written.
#[test]
fn a_failed_read_is_no_end(rt: HostRuntime) {
    for kind in [ErrorKind::BrokenPipe, ErrorKind::Interrupted] {
        for &(given, step, reads) in &FAILED_READS {
            let input = Input {
                step,
                ..Input::failing(beginning(TWO, given), kind)
            };
            let wanted = with_failed_read(whole_run(), input, reads);
            assert!(rt;
                is_right(rt.alloc(), &wanted) == Ok(true),
                "{given} {step} {kind:?}"
            );
        }
    }
}

#[test]
fn pieces_make_no_difference(rt: HostRuntime) {
    for (given, taken, reads, writes) in [
        (WHOLE, WHOLE, 2, 1),
        (1, WHOLE, 66, 1),
        (WHOLE, 1, 2, 201),
        (1, 1, 66, 201),
        (2, 3, 34, 67),
    ] {
        let mut wanted = Run {
            reads,
            writes,
            ..whole_run()
        };
        wanted.input.step = given;
        wanted.output.step = taken;
        assert!(rt;
            is_right(rt.alloc(), &wanted) == Ok(true),
            "{given} {taken}"
        );
    }
}

/// How many bytes a writer takes a call, the call that goes wrong and how, and how many bytes it
/// has taken then.
static FAILED_WRITES: [(usize, u32, WriteFault, usize); 8] = [
    (WHOLE, 0, WriteFault::Fails(ErrorKind::BrokenPipe), 0),
    (WHOLE, 0, WriteFault::Breaks(ErrorKind::Interrupted), 0),
    (WHOLE, 0, WriteFault::TakesNothing, 0),
    (1, 1, WriteFault::TakesNothing, 1),
    (1, 2, WriteFault::Fails(ErrorKind::BrokenPipe), 2),
    (1, 2, WriteFault::Fails(ErrorKind::Interrupted), 2),
    (1, 2, WriteFault::Breaks(ErrorKind::BrokenPipe), 2),
    (30, 2, WriteFault::TakesNothing, 60),
];

/// Nothing is tried again.
#[test]
fn a_writer_fails_at_any_call(rt: HostRuntime) {
    for &(step, at, fault, taken) in &FAILED_WRITES {
        let output = Output::failing(step, at, fault);
        let wanted = with_failed_write(whole_run(), output, at.saturating_add(1), taken);
        assert!(rt;
            is_right(rt.alloc(), &wanted) == Ok(true),
            "{step} {at} {fault:?}"
        );
    }
}

/// A run that asks for the bounds for `n` members. The reader, which fails at each call, isn't
/// called.
fn bounds_run<'a>(n: NonZeroU32, words: &'a [&'a str], report: &'a str) -> Run<'a> {
    Run {
        command: Command::Bounds(n),
        words,
        input: Input::failing(b"", ErrorKind::BrokenPipe),
        reads: 0,
        ..read_run(b"", report)
    }
}

#[test]
fn bounds_are_reported_without_a_read(rt: HostRuntime) {
    let ten = NonZeroU32::new(10).expect(&rt, "zero");
    for wanted in [
        bounds_run(NonZeroU32::MIN, &["bounds", "1"], ONE),
        bounds_run(ten, &["bounds", "10"], TEN),
        bounds_run(NonZeroU32::MAX, &["bounds", "4294967295"], MOST),
    ] {
        assert!(rt;
            is_right(rt.alloc(), &wanted) == Ok(true),
            "{:?}",
            wanted.command
        );
    }
}

/// The whole report has been taken by then.
#[test]
fn a_failed_flush_is_returned(rt: HostRuntime) {
    for whole in [
        whole_run(),
        bounds_run(NonZeroU32::MIN, &["bounds", "1"], ONE),
    ] {
        for kind in [
            ErrorKind::Other,
            ErrorKind::BrokenPipe,
            ErrorKind::Interrupted,
        ] {
            let wanted = with_failed_flush(whole, kind);
            assert!(rt;
                is_right(rt.alloc(), &wanted) == Ok(true),
                "{:?} {kind:?}",
                whole.command
            );
        }
    }
}
