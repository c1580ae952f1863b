//! What a session writes, says and returns.
use crate::bounds::{MOST, ONE, SIX, TEN};
use crate::committees::{
    ONE_AND_A_BYTE, ONE_CUT_SHORT, TWO, TWO_EQUAL, TWO_FALLING, TWO_REPORT, committee_of_256,
};
use crate::devices::{Input, Output, WHOLE};
use crate::session_trial::{READ, Session, is_right, read_session, two_session, words_of};
use committee_core::{Command, parse_args};
use std::io::ErrorKind;
use std::num::NonZeroU32;
use std::test::Fail;
use test_equipment::{Refusing, WriteFault};

/// Words that ask for bounds, and the report on them.
static BOUNDS: [(&[&str], &str); 5] = [
    (&["bounds", "1"], ONE),
    (&["bounds", "6"], SIX),
    (&["bounds", "0000000006"], SIX),
    (&["bounds", "10"], TEN),
    (&["bounds", "4294967295"], MOST),
];

#[test]
fn reports_are_written(rt: HostRuntime) {
    assert!(rt; is_right(rt.alloc(), &two_session()) == Ok(true));
    for &(words, report) in &BOUNDS {
        let wanted = Session {
            words,
            input: Input::failing(b"", ErrorKind::BrokenPipe),
            written: Some(report),
            ..two_session()
        };
        assert!(rt; is_right(rt.alloc(), &wanted) == Ok(true), "{words:?}");
    }
}

#[test]
fn a_committee_has_at_most_256_members(rt: HostRuntime) {
    let alloc = rt.alloc();
    let (bytes, report) = committee_of_256(alloc).expect(&rt, "memory");
    let wanted = read_session(&bytes, &report);
    assert!(rt; is_right(alloc, &wanted) == Ok(true));
}

#[test]
fn other_bytes_are_refused(rt: HostRuntime) {
    for (bytes, said) in [
        (b"\x00".as_slice(), "refused: length 0\n"),
        (ONE_AND_A_BYTE, "refused: 1 bytes left over\n"),
        (TWO_EQUAL, "refused: Set: items must be sorted and unique\n"),
        (
            TWO_FALLING,
            "refused: Set: items must be sorted and unique\n",
        ),
        (ONE_CUT_SHORT, "refused: end of input\n"),
        (b"\x04\x01\x03\x05\x09", "refused: end of input\n"),
        (b"\x81\x02", "refused: length 257\n"),
        (b"\xff\xff\xff\xff\x0f\x01", "refused: length 4294967295\n"),
        (b"", "refused: end of input\n"),
        (b"\x02\x01", "refused: end of input\n"),
        (b"\x83\x00\x01\x02\x03", "refused: invalid varint\n"),
        (b"\xff\xff\xff\xff\x10", "refused: invalid varint\n"),
    ] {
        let wanted = Session {
            input: Input::of(bytes),
            status: 1,
            written: Some(""),
            said,
            ..two_session()
        };
        assert!(rt; is_right(rt.alloc(), &wanted) == Ok(true), "{bytes:?}");
    }
}

/// Words that ask for no command.
static OTHER_WORDS: [&[&str]; 27] = [
    &[],
    &["write"],
    &["READ"],
    &["read", "read"],
    &["read", "6"],
    &["bounds"],
    &["bounds", "6", "6"],
    &["bounds", "6", "read"],
    &["BOUNDS", "6"],
    &["6"],
    &["6", "bounds"],
    &["bounds", "0"],
    &["bounds", "0000000000"],
    &["bounds", "4294967296"],
    &["bounds", "9999999999"],
    &["bounds", "00000000006"],
    &["bounds", "+6"],
    &["bounds", "-6"],
    &["bounds", "6 "],
    &["bounds", " 6"],
    &["bounds", " "],
    &["bounds", ""],
    &["bounds", "6."],
    &["bounds", "0x6"],
    &["bounds", "\u{666}"],
    &["bounds", "\u{ff16}"],
    &["bounds", "6", ""],
];

/// The first allocation fails, if there is one.
#[test]
fn other_words_get_the_usage_line(rt: HostRuntime) {
    for &words in &OTHER_WORDS {
        let wanted = Session {
            words,
            granted: 0,
            status: 2,
            written: Some(""),
            said: "usage: committee read, or committee bounds <n>\n",
            ..two_session()
        };
        assert!(rt; is_right(rt.alloc(), &wanted) == Ok(true), "{words:?}");
    }
}

/// Words are looked at without memory.
#[test]
fn words_ask_for_a_command(rt: HostRuntime) {
    let heap = Refusing::all_after(rt.alloc(), u64::MAX);
    let read = words_of(&heap, READ).expect(&rt, "memory");
    let bounds = words_of(&heap, &["bounds", "0000000006"]).expect(&rt, "memory");
    heap.restart(0);
    assert!(rt;
        parse_args(&read) == Some(Command::Read)
            && parse_args(&bounds) == NonZeroU32::new(6).map(Command::Bounds)
    );
    for &line in &OTHER_WORDS {
        heap.restart(u64::MAX);
        let words = words_of(&heap, line).expect(&rt, "memory");
        heap.restart(0);
        assert!(rt;
            parse_args(&words) == None && !heap.has_refused(),
            "{line:?}"
        );
    }
}

#[test]
fn failures_give_status_3(rt: HostRuntime) {
    let broken = WriteFault::Fails(ErrorKind::BrokenPipe);
    let failed_write = Session {
        status: 3,
        written: None,
        said: "failed: write\n",
        ..two_session()
    };
    let failed_bounds = Session {
        words: &["bounds", "10"],
        input: Input::failing(b"", ErrorKind::BrokenPipe),
        ..failed_write
    };
    for wanted in [
        Session {
            input: Input::failing(b"\x04", ErrorKind::BrokenPipe),
            status: 3,
            written: Some(""),
            said: "failed: read\n",
            ..two_session()
        },
        Session {
            granted: 0,
            status: 3,
            written: Some(""),
            said: "failed: out of memory\n",
            ..two_session()
        },
        Session {
            output: Output::failing(WHOLE, 0, WriteFault::TakesNothing),
            ..failed_write
        },
        Session {
            output: Output::failing(WHOLE, 0, broken),
            ..failed_bounds
        },
        Session {
            output: Output::failing(1, 2, WriteFault::TakesNothing),
            ..failed_bounds
        },
    ] {
        assert!(rt;
            is_right(rt.alloc(), &wanted) == Ok(true),
            "{}",
            wanted.said
        );
    }
}

#[test]
fn a_failing_standard_error_changes_no_status(rt: HostRuntime) {
    let broken = WriteFault::Fails(ErrorKind::BrokenPipe);
    let interrupted = Input::failing(b"", ErrorKind::Interrupted);
    let write: &[&str] = &["write"];
    for (words, input, fault, status, written) in [
        (write, Input::of(b""), broken, 2, ""),
        (READ, Input::of(b"\x00"), broken, 1, ""),
        (READ, Input::of(TWO), broken, 0, TWO_REPORT),
        (READ, interrupted, WriteFault::TakesNothing, 3, ""),
    ] {
        let wanted = Session {
            words,
            input,
            errors: Output::failing(WHOLE, 0, fault),
            status,
            written: Some(written),
            ..two_session()
        };
        assert!(rt;
            is_right(rt.alloc(), &wanted) == Ok(true),
            "{words:?} {fault:?}"
        );
    }
}
