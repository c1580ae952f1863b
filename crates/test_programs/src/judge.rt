//! Sessions of the judge over scripted devices.

use crate::session_trial::words_of;
use judge_core::session;
use program_io::Watched;
use std::alloc::{AllocError, Global};
use std::io::ErrorKind;
use test_equipment::{ReadFault, Refusing, ScriptedReader, ScriptedWriter, WriteFault};

/// More than any input of these tests has bytes.
pub const WHOLE: usize = 2_000_000;

/// More requests than any session of these tests makes.
const ENOUGH: u64 = 1000;

/// Three lines that get verdicts.
const TEXT: &str = "# three\nset<u8> .. 020509ffff\nmap<u8,u8> .. 0201020214\nu8 07\n";

/// Their answers.
const ANSWERS: &str = "accepted 2 2\nEndOfBuffer\naccepted 1 0\n";

/// A comment, a line for each verb, and two that can't be read.
const TASKS: &str = "# verbs\nbuild set<u8> 03020102\nbuild-unique set<u8> 03020102\n\
position set<u8> 0205c8 c8\nfaults n5f1 11\nrefute k=7 20 3\nrefute k=7 22 3\n\
quorum n3f1 4 030107aa03000102\nconflict n3f1 4 01aa03000102 01bb03010203\n\
equivocation n3f1 4 030107aa03000102 030107bb03010203\n\
weights n3f1 020000000000000028000000000000000a\n\
weighted-quorum n3f1 020000000000000028000000000000000a 030107aa0100\n\
weighted-conflict n3f1 020000000000000028000000000000000a 01aa020001 01bb0100\n\
weighted-equivocation n3f1 020000000000000028000000000000000a 030107aa020001 030107bb0100\n\
faults n4f1 7\nbuild u8 00\n";

/// Their answers.
const TASK_ANSWERS: &str = "built 020102\nDuplicateKey\nposition 1\nfaults 2 quorum 9 m-quorum 5\n\
first 0..17 second 3..20 shared 14 needed 16\ntolerated\nquorum 3 slot 07 decision aa\n\
members 020102\nmembers 020102\ntotal 50 tolerated 16 quorum 34 m-quorum 33\n\
quorum 1 weight 40 slot 07 decision aa\nmembers 0100 weight 40\nmembers 0100 weight 40\n\
unreadable model\nunreadable type\n";

/// The same after the number of each line.
const NUMBERED_ANSWERS: &str = "2: built 020102\n3: DuplicateKey\n4: position 1\n\
5: faults 2 quorum 9 m-quorum 5\n6: first 0..17 second 3..20 shared 14 needed 16\n7: tolerated\n\
8: quorum 3 slot 07 decision aa\n9: members 020102\n10: members 020102\n\
11: total 50 tolerated 16 quorum 34 m-quorum 33\n12: quorum 1 weight 40 slot 07 decision aa\n\
13: members 0100 weight 40\n14: members 0100 weight 40\n\
15: unreadable model\n16: unreadable type\n";

/// What is noted of them.
const NOTES: &str = "line 15: unreadable model\nline 16: unreadable type\n";

/// What a session says that an allocation failure has stopped.
const NO_MEMORY: &[u8] = b"failed: out of memory\n";

/// A session.
#[derive(Clone, Copy)]
pub struct Session<'a> {
    words: &'a [&'a str],
    text: &'a [u8],
    /// How many bytes the reader gives a call.
    step: usize,
    read_fault: Option<(u32, ReadFault)>,
    /// How many bytes the writer takes a call.
    room: usize,
    write_fault: Option<(u32, WriteFault)>,
    flush_failure: Option<ErrorKind>,
    /// The call at which standard error goes wrong, and how.
    error_fault: Option<(u32, WriteFault)>,
    /// How many allocations succeed before one fails.
    pub granted: u64,
}

/// The words that ask for plain answers.
const NO_WORDS: &[&str] = &[];

/// The words that ask for numbers.
const NUMBER: &[&str] = &["--number"];

/// The session that answers the lines of an input, with devices that never fail.
pub fn of(text: &[u8], step: usize) -> Session<'_> {
    asked_by(NO_WORDS, text, step)
}

/// The same of a session that these words ask for.
pub fn asked_by<'a>(words: &'a [&'a str], text: &'a [u8], step: usize) -> Session<'a> {
    Session {
        words,
        text,
        step,
        read_fault: None,
        room: WHOLE,
        write_fault: None,
        flush_failure: None,
        error_fault: None,
        granted: u64::MAX,
    }
}

/// What became of a session.
#[derive(Drop)]
pub struct Outcome {
    pub status: u8,
    pub written: Vec<u8>,
    pub said: Vec<u8>,
    /// Whether an allocation failed.
    pub refused: bool,
}

/// Holds a session.
pub fn held(alloc: Global, wanted: &Session<'_>) -> Result<Outcome, AllocError> {
    let heap = Refusing::after(alloc, u64::MAX);
    let words = words_of(&heap, wanted.words)?;
    let mut reader = ScriptedReader::new(wanted.text, wanted.step);
    if let Some((at, way)) = wanted.read_fault {
        reader = reader.with_fault(at, way);
    }
    let mut writer = ScriptedWriter::new(alloc, wanted.room);
    if let Some((at, fault)) = wanted.write_fault {
        writer = writer.with_fault(at, fault);
    }
    if let Some(kind) = wanted.flush_failure {
        writer = writer.failing_flush(kind);
    }
    let mut input = Watched::new(reader);
    let mut output = Watched::new(writer);
    let mut errors = ScriptedWriter::new(alloc, WHOLE);
    if let Some((at, fault)) = wanted.error_fault {
        errors = errors.with_fault(at, fault);
    }
    heap.restart(wanted.granted);
    let status = session(&heap, &words, &mut input, &mut output, &mut errors);
    let refused = heap.has_refused();
    heap.relent();
    Ok(Outcome {
        status,
        written: output.inner().taken.clone()?,
        said: errors.taken,
        refused,
    })
}

/// Whether the session ends with status 3 and this line on standard error, and has written a
/// prefix of the answers.
fn stops(alloc: Global, wanted: &Session<'_>, line: &str) -> Result<bool, AllocError> {
    let outcome = held(alloc, wanted)?;
    Ok(
        outcome.status == 3
            && ANSWERS.as_bytes().starts_with(outcome.written.as_slice())
            && outcome.said.as_slice() == line.as_bytes(),
    )
}

#[test]
fn each_verb_has_its_answer(rt: HostRuntime) {
    for step in [WHOLE, 1, 7] {
        for (words, answers) in [(NO_WORDS, TASK_ANSWERS), (NUMBER, NUMBERED_ANSWERS)] {
            let wanted = asked_by(words, TASKS.as_bytes(), step);
            let outcome = held(rt.alloc(), &wanted).expect(&rt, "memory");
            assert!(rt; outcome.status == 1);
            assert!(rt; outcome.written.as_slice() == answers.as_bytes());
            assert!(rt; outcome.said.as_slice() == NOTES.as_bytes());
        }
    }
}

/// Each note in turn goes wrong: it is left, the next is written, and nothing else changes.
#[test]
fn a_failing_standard_error_changes_no_answer(rt: HostRuntime) {
    let second = &NOTES.as_bytes()[26..];
    for (at, said) in [(0, second), (1, &NOTES.as_bytes()[..26])] {
        let mut wanted = of(TASKS.as_bytes(), 7);
        wanted.error_fault = Some((at, WriteFault::Fails(ErrorKind::BrokenPipe)));
        let outcome = held(rt.alloc(), &wanted).expect(&rt, "memory");
        assert!(rt; outcome.status == 1);
        assert!(rt; outcome.written.as_slice() == TASK_ANSWERS.as_bytes());
        assert!(rt; outcome.said.as_slice() == said);
    }
}

#[test]
fn readers_that_fail(rt: HostRuntime) {
    for at in 0..8 {
        let mut wanted = of(TEXT.as_bytes(), 10);
        wanted.read_fault = Some((at, ReadFault::Fails(ErrorKind::Interrupted)));
        assert!(rt; stops(rt.alloc(), &wanted, "failed: read\n") == Ok(true));
    }
    let mut wanted = of(TEXT.as_bytes(), 10);
    wanted.read_fault = Some((8, ReadFault::Fails(ErrorKind::Interrupted)));
    let outcome = held(rt.alloc(), &wanted).expect(&rt, "memory");
    assert!(rt; outcome.status == 0);
    assert!(rt; outcome.written.as_slice() == ANSWERS.as_bytes());
}

#[test]
fn writers_that_fail(rt: HostRuntime) {
    let faults = [
        WriteFault::Fails(ErrorKind::Interrupted),
        WriteFault::Breaks(ErrorKind::Other),
        WriteFault::TakesNothing,
    ];
    for fault in faults {
        for at in 0..4 {
            let mut wanted = of(TEXT.as_bytes(), WHOLE);
            wanted.room = 10;
            wanted.write_fault = Some((at, fault));
            assert!(rt; stops(rt.alloc(), &wanted, "failed: write\n") == Ok(true));
        }
    }
    let mut wanted = of(TEXT.as_bytes(), WHOLE);
    wanted.flush_failure = Some(ErrorKind::Other);
    assert!(rt; stops(rt.alloc(), &wanted, "failed: write\n") == Ok(true));
}

/// Whether what was said is a prefix of the notes, and then that an allocation failed.
fn is_stop(said: &[u8], notes: &[u8]) -> bool {
    match said.strip_suffix(NO_MEMORY) {
        Some(before) => notes.starts_with(before),
        None => false,
    }
}

/// Whether a session, each of whose allocations fails in turn, says so, and has written a prefix of
/// these answers and noted one of these notes, until none fails and it has written all.
fn stops_at_each(
    alloc: Global,
    session: &Session<'_>,
    answers: &[u8],
    notes: &[u8],
    status: u8,
) -> Result<bool, AllocError> {
    for granted in 0..ENOUGH {
        let mut wanted = *session;
        wanted.granted = granted;
        let outcome = held(alloc, &wanted)?;
        let written = outcome.written.as_slice();
        let said = outcome.said.as_slice();
        // A failed allocation of more room than is needed changes nothing.
        if outcome.status == 3 {
            if !answers.starts_with(written) || !is_stop(said, notes) {
                return Ok(false);
            }
            continue;
        }
        if outcome.status != status || written != answers || said != notes {
            return Ok(false);
        }
        if !outcome.refused {
            return Ok(true);
        }
    }
    Ok(false)
}

#[test]
fn each_allocation_fails_in_turn(rt: HostRuntime) {
    let readings = of(TEXT.as_bytes(), 10);
    let right = stops_at_each(rt.alloc(), &readings, ANSWERS.as_bytes(), b"", 0);
    assert!(rt; right == Ok(true));
    for (words, answers) in [(NO_WORDS, TASK_ANSWERS), (NUMBER, NUMBERED_ANSWERS)] {
        let tasks = asked_by(words, TASKS.as_bytes(), 10);
        let right = stops_at_each(rt.alloc(), &tasks, answers.as_bytes(), NOTES.as_bytes(), 1);
        assert!(rt; right == Ok(true));
    }
}
