//! Participants: their number, order, text and bytes.
use crate::Participant;
use crate::bench::{is_coded_as, is_debugged_as, is_shown_as};
use crate::codec::MaxEncodeSize;

/// Indices and their texts.
static TEXTS: [(u32, &str); 4] = [
    (0, "0"),
    (42, "42"),
    (1000, "1000"),
    (4294967295, "4294967295"),
];

/// Indices and their bytes.
static BYTES: [(u32, &[u8]); 7] = [
    (0, b"\x00"),
    (1, b"\x01"),
    (127, b"\x7f"),
    (128, b"\x80\x01"),
    (255, b"\xff\x01"),
    (256, b"\x80\x02"),
    (4294967295, b"\xff\xff\xff\xff\x0f"),
];

#[test]
fn test_participant_constructors(rt: HostRuntime) {
    for index in [0, 1, 42, u32::MAX] {
        assert!(rt;
            Participant::new(index).get() == index
                && Participant::from_usize(index as usize) == Participant::new(index)
                && usize::from(Participant::new(index)) == index as usize
        );
    }
    assert!(rt; Participant::default().get() == 0);
}

#[test]
fn test_participant_display(rt: HostRuntime) {
    for (index, text) in &TEXTS {
        assert!(rt; is_shown_as(rt.alloc(), &Participant::new(*index), text));
    }
    assert!(rt; is_debugged_as(rt.alloc(), &Participant::new(5), "Participant(5)"));
}

#[test]
fn test_participant_ordering(rt: HostRuntime) {
    assert!(rt;
        Participant::new(0) < Participant::new(1)
            && Participant::new(5) < Participant::new(10)
            && Participant::new(10) > Participant::new(5)
            && Participant::new(42) == Participant::new(42)
    );
}

#[test]
fn test_participant_encode_decode(rt: HostRuntime) {
    for (index, bytes) in &BYTES {
        assert!(rt; is_coded_as(rt.alloc(), &Participant::new(*index), &(), bytes));
    }
    assert!(rt; Participant::MAX_ENCODE_SIZE == 5);
}
