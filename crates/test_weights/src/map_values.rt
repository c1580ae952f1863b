//! Weights of the values of a map, with each allocation failing in turn.
use committee_weights::{MapWeightsError, Weights, WeightsError};
use commonware_map::Map;
use commonware_sequence::U64;
use test_equipment::walk::{Heap, Outcome, Refusable, full, refused, requests};

/// The pairs of a map in the order in which they are given, and its values as weights, with their
/// total.
#[derive(Clone, Copy)]
struct Stakes {
    pairs: &'static [(u32, u64)],
    answer: Result<(&'static [u64], u64), WeightsError>,
}

static STAKES: [Stakes; 5] = [
    Stakes {
        pairs: &[(7, 10), (3, 40)],
        answer: Ok((&[40, 10], 50)),
    },
    // 2^63 and 2^63 - 1 are 2^64 - 1.
    Stakes {
        pairs: &[
            (2, 9_223_372_036_854_775_807),
            (1, 9_223_372_036_854_775_808),
        ],
        answer: Ok((
            &[9_223_372_036_854_775_808, 9_223_372_036_854_775_807],
            u64::MAX,
        )),
    },
    Stakes {
        pairs: &[],
        answer: Err(WeightsError::Empty),
    },
    // Indices are those of the keys in order, and not of the pairs as they are given.
    Stakes {
        pairs: &[(7, 0), (3, 40)],
        answer: Err(WeightsError::Zero(1)),
    },
    Stakes {
        pairs: &[(3, 0), (2, 1), (1, u64::MAX)],
        answer: Err(WeightsError::Overflow(1)),
    },
];

/// The outcome of weights of a map where these are wanted.
fn outcome_of<H: Heap>(
    weights: Result<Weights<H>, MapWeightsError>,
    wanted: Result<(&[u64], u64), WeightsError>,
) -> Outcome {
    match (weights, wanted) {
        (Ok(weights), Ok((items, total))) => {
            full(weights.as_slice() == items && weights.total() == total)
        }
        (Err(MapWeightsError::Memory), Ok(_)) => refused(true),
        (Err(MapWeightsError::Refused(error)), Err(wanted)) => full(error == wanted),
        _ => Outcome::Wrong,
    }
}

impl Refusable for Stakes {
    fn outcome<H: Heap>(&self, heap: H, granted: u64) -> Outcome {
        let pairs = self.pairs.iter().map(|pair| (pair.0, U64::new(pair.1)));
        match Map::from_iter_dedup(heap, pairs) {
            Ok(map) => {
                heap.restart(granted);
                outcome_of(Weights::from_map(heap, &map), self.answer)
            }
            Err(_) => Outcome::Wrong,
        }
    }
}

/// The weights of a map take one allocation, and values that are refused take none: where memory is
/// refused from the first request on, they are still refused for what they are.
#[test]
fn values_of_a_map_are_weights(rt: HostRuntime) {
    for (at, row) in STAKES.iter().enumerate() {
        let asked = row.answer.is_ok() as u64;
        assert!(rt; requests(rt.alloc(), row) == Some(asked), "{at}");
    }
}
