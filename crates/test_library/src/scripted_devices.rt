//! The reader and the writer of these tests: they do what their script says, call by call.
use std::io::{Error, ErrorKind, Read, Write};
use test_equipment::{ReadFault, ScriptedReader, ScriptedWriter, WriteFault};

/// What a call returns: how many bytes, or the kind of its error.
type Answer = Result<usize, ErrorKind>;

/// What the call returned.
fn answer_of(answered: Result<usize, Error>) -> Answer {
    match answered {
        Ok(count) => Ok(count),
        Err(error) => Err(error.kind()),
    }
}

const BROKEN: Answer = Err(ErrorKind::BrokenPipe);

const INTERRUPTED: Answer = Err(ErrorKind::Interrupted);

/// Of a reader of four bytes, two a call: the call that goes wrong, how, and what each call returns
/// and leaves.
static READS: [(u32, ReadFault, &[(Answer, &[u8])]); 6] = [
    (
        0,
        ReadFault::Fails(ErrorKind::BrokenPipe),
        &[
            (BROKEN, b"abcd"),
            (Ok(2), b"cd"),
            (Ok(2), b""),
            (Ok(0), b""),
        ],
    ),
    (
        1,
        ReadFault::Fails(ErrorKind::Interrupted),
        &[
            (Ok(2), b"cd"),
            (INTERRUPTED, b"cd"),
            (Ok(2), b""),
            (Ok(0), b""),
        ],
    ),
    (
        2,
        ReadFault::Fails(ErrorKind::BrokenPipe),
        &[(Ok(2), b"cd"), (Ok(2), b""), (BROKEN, b""), (Ok(0), b"")],
    ),
    (
        1,
        ReadFault::GivesOneByte,
        &[(Ok(2), b"cd"), (Ok(1), b"d"), (Ok(1), b""), (Ok(0), b"")],
    ),
    (
        2,
        ReadFault::GivesOneByte,
        &[(Ok(2), b"cd"), (Ok(2), b""), (Ok(0), b""), (Ok(0), b"")],
    ),
    (
        9,
        ReadFault::Fails(ErrorKind::BrokenPipe),
        &[(Ok(2), b"cd"), (Ok(2), b""), (Ok(0), b""), (Ok(0), b"")],
    ),
];

/// Whether a call of the reader returns this, and leaves these bytes.
fn is_call(input: &mut ScriptedReader<'_>, wanted: Answer, rest: &[u8]) -> bool {
    let mut buf = [0; 9];
    let before = input.rest;
    let answer = answer_of(input.read(&mut buf));
    let given = answer.unwrap_or(0).min(9);
    answer == wanted && input.rest == rest && before.starts_with(&buf[..given])
}

/// Whether a reader whose call at a place goes wrong returns and leaves this, call by call.
fn goes_wrong(at: u32, way: ReadFault, calls: &[(Answer, &[u8])]) -> bool {
    let mut input = ScriptedReader::new(b"abcd", 2).with_fault(at, way);
    for (wanted, rest) in calls {
        if !is_call(&mut input, *wanted, rest) {
            return false;
        }
    }
    input.calls == 4
}

#[test]
fn a_reader_goes_wrong_at_one_call_alone(rt: HostRuntime) {
    for (row, (at, way, calls)) in READS.iter().enumerate() {
        assert!(rt; goes_wrong(*at, *way, calls), "{row}");
    }
}

/// Of a writer that takes two bytes a call: how its second call goes wrong, what each call with
/// three bytes returns, and what was taken in all.
static WRITES: [(WriteFault, [Answer; 4], &[u8]); 5] = [
    (
        WriteFault::Fails(ErrorKind::Interrupted),
        [Ok(2), INTERRUPTED, Ok(2), Ok(2)],
        b"ababab",
    ),
    (
        WriteFault::TakesNothing,
        [Ok(2), Ok(0), Ok(2), Ok(2)],
        b"ababab",
    ),
    (
        WriteFault::TakesOneByte,
        [Ok(2), Ok(1), Ok(2), Ok(2)],
        b"abaabab",
    ),
    (
        WriteFault::Breaks(ErrorKind::BrokenPipe),
        [Ok(2), BROKEN, BROKEN, BROKEN],
        b"ab",
    ),
    (
        WriteFault::Breaks(ErrorKind::Interrupted),
        [Ok(2), INTERRUPTED, INTERRUPTED, INTERRUPTED],
        b"ab",
    ),
];

/// Only a lasting fault is met again.
#[test]
fn a_writer_goes_wrong_at_one_call_or_from_it_on(rt: HostRuntime) {
    for (fault, answers, taken) in &WRITES {
        let mut output = ScriptedWriter::new(rt.alloc(), 2).with_fault(1, *fault);
        for wanted in answers {
            let answer = answer_of(output.write(b"abc"));
            assert!(rt; answer == *wanted, "{fault:?}");
        }
        assert!(rt;
            output.taken.as_slice() == *taken && output.calls == 4,
            "{fault:?}"
        );
    }
}
