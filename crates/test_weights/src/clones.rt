//! Clones of weights, with each allocation failing in turn.
use crate::lists::weights_of;
use committee_weights::Weights;
use std::alloc::AllocError;
use test_equipment::walk::{Heap, Outcome, Refusable, full, refused, requests};

/// Weights that are cloned.
#[derive(Clone, Copy)]
struct Cloned(&'static [u64]);

/// The outcome of a clone of these weights, which stay as they were.
fn outcome_of_clone<H: Heap>(
    clone: Result<Weights<H>, AllocError>,
    weights: &Weights<H>,
    items: &[u64],
) -> Outcome {
    let stays = weights.as_slice() == items;
    match clone {
        Ok(clone) => full(stays && clone == *weights && clone.total() == weights.total()),
        Err(AllocError) => refused(stays),
    }
}

impl Refusable for Cloned {
    fn outcome<H: Heap>(&self, heap: H, granted: u64) -> Outcome {
        match weights_of(heap, self.0) {
            Some(weights) => {
                heap.restart(granted);
                outcome_of_clone(weights.clone(), &weights, self.0)
            }
            None => Outcome::Wrong,
        }
    }
}

/// A clone takes one allocation.
#[test]
fn weights_are_cloned(rt: HostRuntime) {
    let rows: [&'static [u64]; 2] = [&[u64::MAX], &[40, 30, 20, 10]];
    for row in &rows {
        assert!(rt; requests(rt.alloc(), &Cloned(row)) == Some(1), "{row:?}");
    }
}
