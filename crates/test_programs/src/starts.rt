//! The programs from their arguments: the words that are asked for are those after their names.
use crate::bounds::SIX;
use crate::committees::{TWO, TWO_REPORT, committee_of_256};
use crate::devices::{Input, TAKEN};
use crate::session_trial::words_of;
use committee_core::{Watched, start};
use std::alloc::{AllocError, Global};
use std::io;
use std::io::ErrorKind;
use test_equipment::walk::{Heap, Outcome, Refusable, full, makes_requests, refused};
use test_equipment::{Refusing, ScriptedWriter};

/// What is said to other words.
const USAGE: &str = "usage: committee read, or committee bounds <n>\n";

const JUDGE_USAGE: &str =
    "usage: judge, judge --number, judge types, judge --help, or judge --version\n";

/// What is said where an allocation fails, or the arguments can't be taken.
const MEMORY: &str = "failed: out of memory\n";

/// The program that starts: `committee` on a committee of two, or `judge` on a line.
#[derive(Clone, Copy)]
enum Program {
    Committee,
    Judge,
}

/// The arguments of a program, or the kind of error with which the host refuses them; and what has
/// to become of it: its status, what is written, what is said.
type Row = (
    Result<&'static [&'static str], ErrorKind>,
    u8,
    &'static str,
    &'static str,
);

/// Whether a program does what it has to.
fn is_right<H: Heap>(
    heap: H,
    alloc: Global,
    program: Program,
    row: &Row,
) -> Result<bool, AllocError> {
    let (texts, wanted, written, said) = *row;
    let arguments = match texts {
        Ok(texts) => Ok(words_of(heap, texts)?.into_iter()),
        Err(kind) => Err(io::Error::from(kind)),
    };
    let bytes = match program {
        Program::Committee => TWO,
        Program::Judge => b"u8 07\n".as_slice(),
    };
    let mut input = Input::of(bytes).reader();
    let mut output = Watched::new(TAKEN.writer(alloc));
    let mut errors = TAKEN.writer(alloc);
    let status = match program {
        Program::Committee => start(heap, arguments, &mut input, &mut output, &mut errors),
        Program::Judge => {
            judge_core::start(heap, arguments, &mut input, &mut output, &mut errors)
        }
    };
    let told = status == wanted && errors.taken.as_slice() == said.as_bytes();
    Ok(told && output.inner().taken.as_slice() == written.as_bytes())
}

/// Whether a program does what it has to in each row.
fn are_right(alloc: Global, program: Program, rows: &[Row]) -> Result<bool, AllocError> {
    let heap = Refusing::after(alloc, u64::MAX);
    for row in rows {
        if !is_right(&heap, alloc, program, row)? {
            return Ok(false);
        }
    }
    Ok(true)
}

#[test]
fn the_words_follow_the_programs_name(rt: HostRuntime) {
    let rows: [Row; 8] = [
        (Ok(&["committee", "read"]), 0, TWO_REPORT, ""),
        (Ok(&["", "bounds", "6"]), 0, SIX, ""),
        (Ok(&["read", "bounds", "0000000006"]), 0, SIX, ""),
        (Ok(&[]), 2, "", USAGE),
        (Ok(&["read"]), 2, "", USAGE),
        (Ok(&["committee", "committee", "read"]), 2, "", USAGE),
        (Ok(&["committee", "read", "read"]), 2, "", USAGE),
        (Ok(&["committee", "bounds", "6", "6"]), 2, "", USAGE),
    ];
    assert!(rt; are_right(rt.alloc(), Program::Committee, &rows) == Ok(true));
}

#[test]
fn the_words_follow_the_name_of_the_judge(rt: HostRuntime) {
    let rows: [Row; 6] = [
        (Ok(&[]), 0, "accepted 1 0\n", ""),
        (Ok(&["judge"]), 0, "accepted 1 0\n", ""),
        (Ok(&["--number"]), 0, "accepted 1 0\n", ""),
        (Ok(&["judge", "--number"]), 0, "1: accepted 1 0\n", ""),
        (Ok(&["judge", "judge"]), 2, "", JUDGE_USAGE),
        (Ok(&["judge", "--number", "--number"]), 2, "", JUDGE_USAGE),
    ];
    assert!(rt; are_right(rt.alloc(), Program::Judge, &rows) == Ok(true));
}

/// Each kind of error but that of invalid data is told as an allocation failure.
#[test]
fn arguments_that_cannot_be_taken(rt: HostRuntime) {
    for (program, usage) in [(Program::Committee, USAGE), (Program::Judge, JUDGE_USAGE)] {
        let rows: [Row; 6] = [
            (Err(ErrorKind::InvalidData), 2, "", usage),
            (Err(ErrorKind::OutOfMemory), 3, "", MEMORY),
            (Err(ErrorKind::InvalidInput), 3, "", MEMORY),
            (Err(ErrorKind::Unsupported), 3, "", MEMORY),
            (Err(ErrorKind::Other), 3, "", MEMORY),
            (Err(ErrorKind::Uncategorized), 3, "", MEMORY),
        ];
        assert!(rt; are_right(rt.alloc(), program, &rows) == Ok(true));
    }
}

/// The program on a committee's bytes, and the report on it. Its devices keep what they take in
/// memory of their own.
#[derive(Drop)]
struct Start<'a> {
    alloc: Global,
    bytes: &'a [u8],
    report: &'a str,
}

impl<'a> Start<'a> {
    /// The outcome of a start that ends with this status, after these calls of its writer and
    /// these bytes on standard error.
    fn results_in(&self, status: u8, output: &ScriptedWriter<Global>, said: &[u8]) -> Outcome {
        match status {
            0 => full(output.taken.as_slice() == self.report.as_bytes() && said.is_empty()),
            3 => refused(output.calls == 0 && said == MEMORY.as_bytes()),
            _ => Outcome::Wrong,
        }
    }
}

impl<'b> Refusable for Start<'b> {
    fn outcome<H: Heap>(&self, heap: H, granted: u64) -> Outcome {
        let Ok(texts) = words_of(heap, &["committee", "read"]) else {
            return Outcome::Wrong;
        };
        let mut input = Input::of(self.bytes).reader();
        let mut output = Watched::new(TAKEN.writer(self.alloc));
        let mut errors = TAKEN.writer(self.alloc);
        heap.restart(granted);
        let arguments = Ok(texts.into_iter());
        let status = start(heap, arguments, &mut input, &mut output, &mut errors);
        self.results_in(status, output.inner(), errors.taken.as_slice())
    }

    fn may_do_without(&self) -> bool {
        true
    }
}

#[test]
fn each_refused_request_of_a_start_gives_status_3(rt: HostRuntime) {
    let alloc = rt.alloc();
    let (many, lines) = committee_of_256(alloc).expect(&rt, "memory");
    for (bytes, report) in [(TWO, TWO_REPORT), (&many, &lines)] {
        let start = Start {
            alloc,
            bytes,
            report,
        };
        assert!(rt; makes_requests(alloc, &start, 4));
    }
}
