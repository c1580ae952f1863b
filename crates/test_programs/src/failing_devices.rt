//! A reader and a writer that go wrong at each of their calls in turn, on a committee of 256
//! members: its bytes and its report take several calls.
use crate::committees::committee_of_256;
use crate::devices::{Input, Output};
use crate::runs::{
    Run, beginning, is_right, read_run, with_failed_flush, with_failed_read, with_failed_write,
};
use std::io::ErrorKind;
use test_equipment::{ReadFault, WriteFault};

/// How many bytes are given and taken a call, and how many calls of the reader and of the writer
/// the run takes then where none goes wrong: those for 8194 bytes and one for the end, and those
/// for 17631 bytes.
type Pace = (usize, u32, u32);

const PACES: [Pace; 2] = [(2000, 6, 9), (4096, 4, 5)];

/// The run at this pace where no call goes wrong.
fn run_at<'a>(bytes: &'a [u8], report: &'a str, pace: Pace) -> Run<'a> {
    let (step, reads, writes) = pace;
    let mut whole = Run {
        reads,
        writes,
        ..read_run(bytes, report)
    };
    whole.input.step = step;
    whole.output.step = step;
    whole
}

#[test]
fn a_report_takes_several_calls(rt: HostRuntime) {
    let alloc = rt.alloc();
    let (bytes, report) = committee_of_256(alloc).expect(&rt, "memory");
    assert!(rt; (bytes.len(), report.len()) == (8194, 17631));
    for pace in PACES {
        assert!(rt;
            is_right(alloc, &run_at(&bytes, &report, pace)) == Ok(true),
            "{pace:?}"
        );
    }
}

static READ_FAULTS: [ReadFault; 4] = [
    ReadFault::Fails(ErrorKind::BrokenPipe),
    ReadFault::Fails(ErrorKind::Interrupted),
    ReadFault::Fails(ErrorKind::UnexpectedEof),
    ReadFault::GivesOneByte,
];

/// The run where this call of the reader goes wrong. A call that gives one byte for several makes
/// one call more; the last one has none to give. A call that is never made changes nothing.
fn with_read_fault(whole: Run<'_>, at: u32, way: ReadFault) -> Run<'_> {
    let input = Input {
        fault: Some((at, way)),
        ..whole.input
    };
    let next = at.saturating_add(1);
    match way {
        ReadFault::Fails(_) if at < whole.reads => with_failed_read(whole, input, next),
        ReadFault::GivesOneByte if next < whole.reads => Run {
            input,
            reads: whole.reads.saturating_add(1),
            ..whole
        },
        _ => Run { input, ..whole },
    }
}

#[test]
fn a_reader_goes_wrong_at_each_call(rt: HostRuntime) {
    let alloc = rt.alloc();
    let (bytes, report) = committee_of_256(alloc).expect(&rt, "memory");
    for pace in PACES {
        let whole = run_at(&bytes, &report, pace);
        for &way in &READ_FAULTS {
            for at in 0..=whole.reads {
                let wanted = with_read_fault(whole, at, way);
                assert!(rt;
                    is_right(alloc, &wanted) == Ok(true),
                    "{pace:?} {at} {way:?}"
                );
            }
        }
    }
}

/// The run where the reader fails at this call and would at each later one.
fn with_broken_reader(whole: Run<'_>, at: u32, kind: ErrorKind) -> Run<'_> {
    let given = (at as usize).saturating_mul(whole.input.step);
    let input = Input {
        bytes: beginning(whole.input.bytes, given),
        failure: Some(kind),
        ..whole.input
    };
    with_failed_read(whole, input, at.saturating_add(1))
}

#[test]
fn a_reader_breaks_at_each_call(rt: HostRuntime) {
    let alloc = rt.alloc();
    let (bytes, report) = committee_of_256(alloc).expect(&rt, "memory");
    for pace in PACES {
        let whole = run_at(&bytes, &report, pace);
        for kind in [ErrorKind::BrokenPipe, ErrorKind::Interrupted] {
            for at in 0..whole.reads {
                let wanted = with_broken_reader(whole, at, kind);
                assert!(rt;
                    is_right(alloc, &wanted) == Ok(true),
                    "{pace:?} {at} {kind:?}"
                );
            }
        }
    }
}

static WRITE_FAULTS: [WriteFault; 6] = [
    WriteFault::Fails(ErrorKind::BrokenPipe),
    WriteFault::Fails(ErrorKind::Interrupted),
    WriteFault::Breaks(ErrorKind::BrokenPipe),
    WriteFault::Breaks(ErrorKind::Interrupted),
    WriteFault::TakesNothing,
    WriteFault::TakesOneByte,
];

/// The run where this call of the writer goes wrong. A call that takes one byte of several makes
/// one call more. A call that is never made changes nothing.
fn with_write_fault(whole: Run<'_>, at: u32, way: WriteFault) -> Run<'_> {
    let step = whole.output.step;
    let output = Output::failing(step, at, way);
    if at >= whole.writes {
        return Run { output, ..whole };
    }
    match way {
        WriteFault::TakesOneByte => Run {
            output,
            writes: whole.writes.saturating_add(1),
            ..whole
        },
        _ => {
            let taken = (at as usize).saturating_mul(step);
            with_failed_write(whole, output, at.saturating_add(1), taken)
        }
    }
}

#[test]
fn a_writer_goes_wrong_at_each_call(rt: HostRuntime) {
    let alloc = rt.alloc();
    let (bytes, report) = committee_of_256(alloc).expect(&rt, "memory");
    for pace in PACES {
        let whole = run_at(&bytes, &report, pace);
        for &way in &WRITE_FAULTS {
            for at in 0..=whole.writes {
                let wanted = with_write_fault(whole, at, way);
                assert!(rt;
                    is_right(alloc, &wanted) == Ok(true),
                    "{pace:?} {at} {way:?}"
                );
            }
        }
    }
}

/// The whole report has been taken by then.
#[test]
fn a_flush_fails_after_all_calls(rt: HostRuntime) {
    let alloc = rt.alloc();
    let (bytes, report) = committee_of_256(alloc).expect(&rt, "memory");
    for pace in PACES {
        for kind in [ErrorKind::BrokenPipe, ErrorKind::Interrupted] {
            let wanted = with_failed_flush(run_at(&bytes, &report, pace), kind);
            assert!(rt; is_right(alloc, &wanted) == Ok(true), "{pace:?} {kind:?}");
        }
    }
}
