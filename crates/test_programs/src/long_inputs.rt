//! Inputs that are longer than any committee, below, at and above the 8197 bytes that are kept,
//! and the 65,536 after them that the reader is asked for at once.
use crate::committees::committee_of;
use crate::devices::{Input, WHOLE};
use crate::session_trial::{Session, is_right, two_session};
use std::alloc::{AllocError, Global};

/// How many bytes an input has.
static LENGTHS: [usize; 9] = [
    8195, 8196, 8197, 8198, 73_732, 73_733, 73_734, 139_269, 150_000,
];

/// How many bytes of it are given a call.
const STEPS: [usize; 5] = [WHOLE, 7, 65_535, 65_536, 8197];

/// An input of `length` bytes that starts with these.
fn input_of(alloc: Global, start: &[u8], length: usize) -> Result<Vec<u8>, AllocError> {
    let mut bytes = start.to_vec(alloc)?;
    bytes.resize(length, 0x07)?;
    Ok(bytes)
}

/// Whether the bytes are refused with this line, and nothing is written, where `step` of them are
/// given a call and the first `granted` allocations succeed.
fn is_refused_at<'a>(
    alloc: Global,
    bytes: &'a [u8],
    said: &'a str,
    step: usize,
    granted: u64,
) -> Result<bool, AllocError> {
    let input = Input {
        step,
        ..Input::of(bytes)
    };
    let wanted = Session {
        input,
        granted,
        status: 1,
        written: Some(""),
        said,
        ..two_session()
    };
    is_right(alloc, &wanted)
}

/// Whether they are at whatever step, where all allocations succeed.
fn is_refused<'a>(alloc: Global, bytes: &'a [u8], said: &'a str) -> Result<bool, AllocError> {
    for step in STEPS {
        if !is_refused_at(alloc, bytes, said, step, u64::MAX)? {
            return Ok(false);
        }
    }
    Ok(true)
}

/// Whether it is said how many bytes are left over where `left` bytes follow the committee.
fn are_left_over(alloc: Global, committee: &[u8], left: usize) -> Result<bool, AllocError> {
    let bytes = input_of(alloc, committee, committee.len().saturating_add(left))?;
    let said = format!(in alloc; "refused: {left} bytes left over\n")?;
    is_refused(alloc, &bytes, &said)
}

#[test]
fn each_byte_after_a_committee_is_left_over(rt: HostRuntime) {
    let alloc = rt.alloc();
    for n in [1, 127, 128, 256] {
        let committee = committee_of(alloc, n).expect(&rt, "memory");
        for left in [1, 2, 255, 256, 10_000] {
            assert!(rt;
                are_left_over(alloc, &committee, left) == Ok(true),
                "{n} {left}"
            );
        }
        for &length in &LENGTHS {
            let left = length.saturating_sub(committee.len());
            assert!(rt;
                are_left_over(alloc, &committee, left) == Ok(true),
                "{n} {left}"
            );
        }
    }
}

/// The first bytes of inputs, and what is said of them whatever follows.
static EARLY_FAULTS: [(&[u8], &str); 5] = [
    (b"\x00", "refused: length 0\n"),
    (b"\x81\x02", "refused: length 257\n"),
    (b"\xff\xff\xff\xff\x0f", "refused: length 4294967295\n"),
    (b"\x83\x00", "refused: invalid varint\n"),
    (b"\xff\xff\xff\xff\x10", "refused: invalid varint\n"),
];

/// The first bytes of an input whose members are equal.
const EQUAL_MEMBERS: (&[u8], &str) = (
    b"\x80\x02",
    "refused: Set: items must be sorted and unique\n",
);

#[test]
fn the_first_fault_of_a_long_input_is_returned(rt: HostRuntime) {
    let alloc = rt.alloc();
    for &(start, said) in EARLY_FAULTS.iter().chain([&EQUAL_MEMBERS]) {
        for &length in &LENGTHS {
            let bytes = input_of(alloc, start, length).expect(&rt, "memory");
            assert!(rt;
                is_refused(alloc, &bytes, said) == Ok(true),
                "{said} {length}"
            );
        }
    }
}

/// What determines the answer is read without memory, whatever follows it.
#[test]
fn early_faults_need_no_memory(rt: HostRuntime) {
    let alloc = rt.alloc();
    for &(start, said) in &EARLY_FAULTS {
        for &length in &LENGTHS {
            let bytes = input_of(alloc, start, length).expect(&rt, "memory");
            let refused = is_refused_at(alloc, &bytes, said, WHOLE, 0).expect(&rt, "memory");
            assert!(rt; refused, "{said} {length}");
        }
    }
}
