//! What a watched reader and a watched writer pass on, and what they remember.
use crate::devices::{Input, Output, TAKEN};
use committee_core::Watched;
use std::io::{ErrorKind, Read, Write};
use test_equipment::WriteFault;

#[test]
fn each_read_reaches_the_reader(rt: HostRuntime) {
    let mut input = Input {
        step: 2,
        ..Input::of(b"abcdef")
    }
    .reader();
    let mut buffer = [0u8; 4];
    for (room, given, ended) in [
        (0, 0, false),
        (1, 1, false),
        (3, 2, false),
        (4, 2, false),
        (4, 1, false),
        (4, 0, true),
    ] {
        let read = input.read(&mut buffer[..room]).expect(&rt, "a read");
        assert!(rt; (read, input.ended(), input.failed()) == (given, ended, false));
    }
    let mut failing = Input::failing(b"", ErrorKind::Interrupted).reader();
    let refused = failing.read(&mut buffer).is_err();
    assert!(rt; refused && failing.failed() && !failing.ended());
    assert!(rt; input.inner().calls == 6 && failing.inner().calls == 1);
}

#[test]
fn each_write_reaches_the_writer(rt: HostRuntime) {
    let two = Output { step: 2, ..TAKEN };
    let mut output = Watched::new(two.writer(rt.alloc()));
    let taken = output.write(b"abc").expect(&rt, "a write");
    output.flush().expect(&rt, "a flush");
    let none = output.write(b"").expect(&rt, "a write");
    let device = output.inner();
    assert!(rt; (taken, none, output.failed()) == (2, 0, false));
    assert!(rt;
        (device.calls, device.flushes) == (2, 1) && device.taken.as_slice() == b"ab".as_slice()
    );
}

#[test]
fn a_failed_write_is_remembered(rt: HostRuntime) {
    let once = Output::failing(9, 0, WriteFault::TakesNothing);
    let mut output = Watched::new(once.writer(rt.alloc()));
    for taken in 0..2 {
        let answer = output.write(b"a").expect(&rt, "a write");
        assert!(rt; answer == taken && output.failed());
    }
}
