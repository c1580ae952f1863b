//! The headline's calls at concrete types.
use crate::Participant;
use crate::bench::rows::sets::UNSORTED;
use crate::codec::{Error, RangeCfg};
use crate::headline::{Numbers, decode, equal_bimaps, equal_maps, equal_sets, fault_numbers};
use crate::ordered::Set;
use std::alloc::Global;

/// The bytes, and the items and the bytes left, or the error.
static TEXTS: [(&[u8], Result<(&[u8], &[u8]), Error>); 5] = [
    (b"\x02\x05\x09\xff\xff", Ok((&[5, 9], b"\xff\xff"))),
    (b"\x00", Ok((&[], b""))),
    (b"\x04\x01\x03\x02\x04", Err(UNSORTED)),
    (b"\x03\x01\x02", Err(Error::EndOfBuffer)),
    (b"\x0b", Err(Error::InvalidLength(11))),
];

/// Whether the answer has the items and the bytes left that are wanted, or the error.
fn is_answer(
    answer: &Result<(Set<u8, Global>, &[u8]), Error>,
    wanted: &Result<(&[u8], &[u8]), Error>,
) -> bool {
    match (answer, wanted) {
        (Ok((set, rest)), Ok((items, left))) => set.as_slice() == *items && *rest == *left,
        (Err(error), Err(fault)) => *error == *fault,
        _ => false,
    }
}

#[test]
fn a_set_is_decoded_and_the_rest_is_left(rt: HostRuntime) {
    let limits = (RangeCfg::from(0..=10), ());
    for (text, wanted) in &TEXTS {
        let answer = is_answer(&decode(rt.alloc(), text, &limits), wanted);
        assert!(rt; answer, "{text:?}");
    }
}

/// A number of participants, and the faults and the quorum of each model.
static NUMBERS: [(u32, (u32, u32), (u32, u32)); 4] = [
    (1, (0, 1), (0, 1)),
    (6, (1, 5), (1, 5)),
    (21, (6, 15), (4, 17)),
    (
        4294967295,
        (1431655764, 2863311531),
        (858993458, 3435973837),
    ),
];

#[test]
fn both_models_return_their_numbers(rt: HostRuntime) {
    for row in &NUMBERS {
        let (n, thirds, fifths) = *row;
        let (n3f1, n5f1) = fault_numbers(n);
        assert!(rt; (n3f1.max_faults, n3f1.quorum) == thirds, "{n}");
        assert!(rt;
            n5f1 == Numbers {
                max_faults: fifths.0,
                quorum: fifths.1
            },
            "{n}"
        );
    }
}

#[test]
fn equality_goes_by_the_bytes(_rt: HostRuntime) {
    equal_sets::<Participant, Global>();
    equal_maps::<u8, Vec<u8, Global>, Global>();
    equal_bimaps::<u8, Participant, Global>();
}
