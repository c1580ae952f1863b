//! Weights that are read with their keys, behind a prefix, with each allocation failing in turn.
use committee_weights::{ReadWeightsError, Weights, WeightsError, read_weights};
use commonware_base::codec::{Error, Source};
use commonware_map::Map;
use commonware_sequence::U64;
use std::alloc::{Allocator, Global};
use test_equipment::walk::{Heap, Outcome, Refusable, full, makes_requests, refused, requests};

/// What is read: the keys, the weights, and how many bytes follow.
type Read = (&'static [u8], &'static [u64], usize);

/// An input of keys of one byte, at most four of them, and what comes of it.
#[derive(Drop)]
struct Row {
    input: &'static [u8],
    answer: Result<Read, ReadWeightsError>,
}

static ROWS: [Row; 9] = [
    Row {
        input: b"\x02\x03\x07\x02\0\0\0\0\0\0\0\x28\0\0\0\0\0\0\0\x0a\x63",
        answer: Ok((&[3, 7], &[40, 10], 1)),
    },
    Row {
        input: b"\x02\x03\x07\x02\x80\0\0\0\0\0\0\0\x7f\xff\xff\xff\xff\xff\xff\xff\0\0",
        answer: Ok((&[3, 7], &[9223372036854775808, 9223372036854775807], 2)),
    },
    // The faults of the map come first.
    Row {
        input: b"\x05",
        answer: Err(ReadWeightsError::Undecodable(Error::InvalidLength(5))),
    },
    Row {
        input: b"\x80\x00",
        answer: Err(ReadWeightsError::Undecodable(Error::InvalidVarint)),
    },
    Row {
        input: b"\x02\x07\x03\x02\0\0\0\0\0\0\0\0\0\0\0\0\0\0\0\0",
        answer: Err(ReadWeightsError::Undecodable(Error::Invalid(
            "Set",
            "items must be sorted and unique",
        ))),
    },
    Row {
        input: b"\x00\x00",
        answer: Err(ReadWeightsError::Refused(WeightsError::Empty)),
    },
    Row {
        input: b"\x02\x03\x07\x02\0\0\0\0\0\0\0\x28\0\0\0\0\0\0\0\0",
        answer: Err(ReadWeightsError::Refused(WeightsError::Zero(1))),
    },
    Row {
        input: b"\x02\x03\x07\x02\x80\0\0\0\0\0\0\0\x80\0\0\0\0\0\0\0",
        answer: Err(ReadWeightsError::Refused(WeightsError::Overflow(1))),
    },
    Row {
        input: &[
            3, 3, 7, 9, 3, 255, 255, 255, 255, 255, 255, 255, 254, 0, 0, 0, 0, 0, 0, 0, 1, 0, 0, 0,
            0, 0, 0, 0, 1,
        ],
        answer: Err(ReadWeightsError::Refused(WeightsError::Overflow(2))),
    },
];

/// A reading of a row's input, which stands behind a prefix of this many bytes.
#[derive(Clone, Copy)]
struct Call {
    row: &'static Row,
    prefix: usize,
}

impl Call {
    /// The outcome of what was read: the keys, and the weights of the values.
    fn outcome_of_read<A: Allocator>(
        &self,
        map: &Map<u8, U64, A>,
        weights: &Weights<A>,
        left: usize,
    ) -> Outcome {
        let Ok((keys, items, wanted_left)) = self.row.answer else {
            return Outcome::Wrong;
        };
        let values = map.values().iter().map(|value| value.get());
        full(
            map.keys().as_slice() == keys
                && values.eq(items.iter().copied())
                && weights.as_slice() == items
                && left == wanted_left,
        )
    }

    /// The outcome of an error, after which the source has to be where it was.
    fn outcome_of_error(&self, error: &ReadWeightsError, position: usize) -> Outcome {
        let stays = position == self.prefix;
        if *error == ReadWeightsError::Undecodable(Error::Memory) {
            return refused(stays);
        }
        match &self.row.answer {
            Ok(_) => Outcome::Wrong,
            Err(wanted) => full(stays && error == wanted),
        }
    }
}

impl Refusable for Call {
    fn outcome<H: Heap>(&self, heap: H, granted: u64) -> Outcome {
        let Ok(mut bytes) = vec![in heap; 0x02; self.prefix] else {
            return Outcome::Wrong;
        };
        if bytes.extend_from_slice(self.row.input).is_err() {
            return Outcome::Wrong;
        }
        let mut source = Source::new(&bytes);
        if source.remaining() < self.prefix {
            return Outcome::Wrong;
        }
        source.advance(self.prefix);
        heap.restart(granted);
        let limits = ((0..=4).into(), (), ());
        match read_weights::<u8, H>(heap, &mut source, &limits) {
            Ok((map, weights)) => self.outcome_of_read(&map, &weights, source.remaining()),
            Err(error) => self.outcome_of_error(&error, source.position()),
        }
    }
}

/// At least how many requests a reading makes: for the keys, for the values, and for the weights.
fn least_requests(answer: &Result<Read, ReadWeightsError>) -> Option<u64> {
    match answer {
        Ok(_) => Some(3),
        Err(ReadWeightsError::Refused(WeightsError::Empty)) => Some(0),
        Err(ReadWeightsError::Refused(_)) => Some(2),
        Err(ReadWeightsError::Undecodable(_)) => None,
    }
}

/// Whether the call returns what it may where each request is refused in turn, and makes as many as
/// it has to.
fn is_right(alloc: Global, call: &Call) -> bool {
    match least_requests(&call.row.answer) {
        Some(least) => makes_requests(alloc, call, least),
        None => requests(alloc, call).is_some(),
    }
}

#[test]
fn keyed_weights_are_read(rt: HostRuntime) {
    for (at, row) in ROWS.iter().enumerate() {
        for prefix in [0, 1, 7, 300, 70_000usize] {
            let call = Call { row, prefix };
            assert!(rt; is_right(rt.alloc(), &call), "{at} {prefix}");
        }
    }
}

/// Two keys of which the second has no weight are refused before memory for weights is requested.
#[test]
fn refused_values_take_no_memory_for_weights(rt: HostRuntime) {
    let accepted = Call {
        row: &ROWS[0],
        prefix: 0,
    };
    let refused = Call {
        row: &ROWS[6],
        prefix: 0,
    };
    let asked = requests(rt.alloc(), &refused).expect(&rt, "a walk");
    assert!(rt; requests(rt.alloc(), &accepted) == asked.checked_add(1));
}
