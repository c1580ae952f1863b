//! All the bytes to a writer, in as many writes as it needs, and one that fails part of the way.
use crate::devices::{Output, TAKEN};
use program_io::{WriteFailed, write_bytes};
use std::io::ErrorKind;
use test_equipment::WriteFault;

#[test]
fn all_the_bytes_are_written(rt: HostRuntime) {
    let two = Output { step: 2, ..TAKEN };
    for (output, calls) in [(TAKEN, 1), (two, 3)] {
        let mut device = output.writer(rt.alloc());
        assert!(rt; write_bytes(&mut device, b"abcde") == Ok(()));
        assert!(rt; device.taken.as_slice() == b"abcde".as_slice());
        assert!(rt; (device.calls, device.flushes) == (calls, 0));
    }
}

/// The second of three calls goes wrong, and is not made again.
#[test]
fn bytes_are_written_up_to_a_failure(rt: HostRuntime) {
    for fault in [
        WriteFault::Fails(ErrorKind::Interrupted),
        WriteFault::TakesNothing,
    ] {
        let mut device = Output::failing(2, 1, fault).writer(rt.alloc());
        assert!(rt; write_bytes(&mut device, b"abcde") == Err(WriteFailed));
        assert!(rt; device.taken.as_slice() == b"ab".as_slice());
        assert!(rt; (device.calls, device.flushes) == (2, 0));
    }
}
