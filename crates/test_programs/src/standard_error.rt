//! The line on standard error: one write where it is taken whole, and no call is tried again.
use crate::committees::{ONE_AND_A_BYTE, ONE_CUT_SHORT, TWO, TWO_EQUAL};
use crate::devices::{Input, Output, TAKEN, WHOLE};
use crate::runs::beginning;
use crate::session_trial::{READ, words_of};
use committee_core::{Watched, session};
use std::alloc::{AllocError, Global};
use std::io::ErrorKind;
use test_equipment::{Refusing, ScriptedWriter, WriteFault};

/// Words that ask for no command.
const WRITE: &[&str] = &["write"];

/// What fails in a session, besides standard error.
#[derive(Clone, Copy)]
enum Failing {
    Nothing,
    /// The reader, after its bytes.
    Reader,
    /// The first call of the writer.
    Writer,
    /// The first allocation.
    Memory,
}

/// The words and the bytes of a session that says a line, what fails in it, the line, and the
/// status.
type Row = (
    &'static [&'static str],
    &'static [u8],
    Failing,
    &'static str,
    u8,
);

static LINES: [Row; 9] = [
    (
        WRITE,
        b"",
        Failing::Nothing,
        "usage: committee read, or committee bounds <n>\n",
        2,
    ),
    (READ, b"\x00", Failing::Nothing, "refused: length 0\n", 1),
    (
        READ,
        ONE_AND_A_BYTE,
        Failing::Nothing,
        "refused: 1 bytes left over\n",
        1,
    ),
    (
        READ,
        TWO_EQUAL,
        Failing::Nothing,
        "refused: Set: items must be sorted and unique\n",
        1,
    ),
    (
        READ,
        ONE_CUT_SHORT,
        Failing::Nothing,
        "refused: end of input\n",
        1,
    ),
    (
        READ,
        b"\x83\x00",
        Failing::Nothing,
        "refused: invalid varint\n",
        1,
    ),
    (READ, b"\x02\x00", Failing::Reader, "failed: read\n", 3),
    (READ, TWO, Failing::Writer, "failed: write\n", 3),
    (READ, TWO, Failing::Memory, "failed: out of memory\n", 3),
];

/// The status of a session, and what became of its standard error.
fn session_on(
    alloc: Global,
    row: &Row,
    errors: Output,
) -> Result<(u8, ScriptedWriter<Global>), AllocError> {
    let (words, bytes, failing, _, _) = *row;
    let heap = Refusing::after(alloc, u64::MAX);
    let words = words_of(&heap, words)?;
    let mut input = match failing {
        Failing::Reader => Input::failing(bytes, ErrorKind::BrokenPipe).reader(),
        _ => Input::of(bytes).reader(),
    };
    let mut output = Watched::new(match failing {
        Failing::Writer => Output::failing(WHOLE, 0, WriteFault::TakesNothing).writer(alloc),
        _ => TAKEN.writer(alloc),
    });
    let mut device = errors.writer(alloc);
    if matches!(failing, Failing::Memory) {
        heap.restart(0);
    }
    let status = session(&heap, &words, &mut input, &mut output, &mut device);
    Ok((status, device))
}

/// Whether the session has its status, and standard error takes these bytes in `calls` calls and
/// is never flushed.
fn is_right(
    alloc: Global,
    row: &Row,
    errors: Output,
    taken: &[u8],
    calls: usize,
) -> Result<bool, AllocError> {
    let (status, device) = session_on(alloc, row, errors)?;
    Ok(
        status == row.4
            && device.taken.as_slice() == taken
            && device.calls as usize == calls
            && device.flushes == 0,
    )
}

#[test]
fn a_line_is_one_write_or_as_many_as_it_needs(rt: HostRuntime) {
    for row in &LINES {
        let (_, _, _, line, _) = *row;
        let one_a_call = Output { step: 1, ..TAKEN };
        let one_first = Output::failing(WHOLE, 0, WriteFault::TakesOneByte);
        for (errors, calls) in [(TAKEN, 1), (one_a_call, line.len()), (one_first, 2)] {
            let right = is_right(rt.alloc(), row, errors, line.as_bytes(), calls).expect(
                &rt, "memory",
            );
            assert!(rt; right, "{line} {calls}");
        }
    }
}

/// The ways in which a call takes nothing. After the first three the next call would go well.
static FAULTS: [WriteFault; 5] = [
    WriteFault::Fails(ErrorKind::Interrupted),
    WriteFault::Fails(ErrorKind::BrokenPipe),
    WriteFault::TakesNothing,
    WriteFault::Breaks(ErrorKind::Interrupted),
    WriteFault::Breaks(ErrorKind::BrokenPipe),
];

/// Each call for a line, one byte a call, goes wrong in turn, and at last one that is never made.
#[test]
fn no_write_of_a_line_is_tried_again(rt: HostRuntime) {
    for &fault in &FAULTS {
        for row in &LINES {
            let (_, _, _, line, _) = *row;
            for at in 0..=line.len() as u32 {
                let calls = (at as usize).saturating_add(1).min(line.len());
                let taken = beginning(line.as_bytes(), at as usize);
                let errors = Output::failing(1, at, fault);
                let right = is_right(rt.alloc(), row, errors, taken, calls).expect(&rt, "memory");
                assert!(rt; right, "{line} {fault:?} {at}");
            }
        }
    }
}

#[test]
fn a_standard_error_that_takes_no_byte_is_called_once(rt: HostRuntime) {
    let errors = Output { step: 0, ..TAKEN };
    for row in &LINES {
        let right = is_right(rt.alloc(), row, errors, b"", 1).expect(&rt, "memory");
        assert!(rt; right, "{}", row.3);
    }
}
