//! The members that equivocated, where quorums are by weight, with each allocation failing in turn.
use crate::lists::{are, certificate, weights_of};
use committee_certificates::Certificate;
use committee_weights::{WeightedEquivocationError, Weights, weighted_equivocation};
use commonware_base::Participant;
use commonware_ordered::Set;
use test_equipment::walk::{Heap, Outcome, Refusable, full, refused, requests};

/// The value and the signers of a certificate.
type Signed = (&'static [u8], &'static [u32]);

/// Two certificates among members that weigh 40, 30, 20 and 10, and what comes of them. At a k of 3
/// a quorum weighs 67.
#[derive(Clone, Copy)]
struct Row {
    first: Signed,
    second: Signed,
    answer: Result<&'static [u32], WeightedEquivocationError>,
}

static ROWS: [Row; 9] = [
    // View 7: A and B.
    Row {
        first: (b"\x01\x07A", &[0, 1]),
        second: (b"\x01\x07B", &[0, 2, 3]),
        answer: Ok(&[0]),
    },
    // A slot of no bytes, of a protocol that decides once.
    Row {
        first: (b"\x00A", &[0, 1]),
        second: (b"\x00", &[0, 1]),
        answer: Ok(&[0, 1]),
    },
    // Two heights, which honest members sign both.
    Row {
        first: (b"\x01\x01A", &[0, 1]),
        second: (b"\x01\x02B", &[0, 1]),
        answer: Err(WeightedEquivocationError::OtherSlot),
    },
    // Slots of two lengths, in values of one length.
    Row {
        first: (b"\x02\x01\x07A", &[0, 1]),
        second: (b"\x01\x01\x07A", &[0, 1]),
        answer: Err(WeightedEquivocationError::OtherSlot),
    },
    Row {
        first: (b"\x01\x07A", &[0, 1]),
        second: (b"\x01\x07A", &[0, 2, 3]),
        answer: Err(WeightedEquivocationError::SameDecision),
    },
    Row {
        first: (b"\x09", &[0, 1]),
        second: (b"\x01\x07B", &[0, 1]),
        answer: Err(WeightedEquivocationError::NoSlot),
    },
    // The values come before the signers, and whether they are members before what they weigh.
    Row {
        first: (b"\x01\x07A", &[9]),
        second: (b"\x01\x08B", &[]),
        answer: Err(WeightedEquivocationError::OtherSlot),
    },
    Row {
        first: (b"\x01\x07A", &[]),
        second: (b"\x01\x07B", &[0, 1, 4]),
        answer: Err(WeightedEquivocationError::Outside),
    },
    Row {
        first: (b"\x01\x07A", &[0, 1]),
        second: (b"\x01\x07B", &[1, 2, 3]),
        answer: Err(WeightedEquivocationError::TooLight),
    },
];

/// The outcome of a result where the wanted one is this.
fn outcome_of<H: Heap>(
    named: Result<Set<Participant, H>, WeightedEquivocationError>,
    wanted: Result<&[u32], WeightedEquivocationError>,
) -> Outcome {
    match (named, wanted) {
        (Ok(named), Ok(wanted)) => full(are(&named, wanted)),
        (Err(WeightedEquivocationError::Memory), Ok(_)) => refused(true),
        (Err(error), Err(wanted)) => full(error == wanted),
        _ => Outcome::Wrong,
    }
}

/// A certificate of a value that these signed.
fn signed<H: Heap>(heap: H, signed: Signed) -> Option<Certificate<H>> {
    certificate(heap, signed.0, signed.1).ok()
}

impl Row {
    /// The outcome among participants of these weights.
    fn outcome_among<H: Heap>(&self, heap: H, granted: u64, weights: &Weights<H>) -> Outcome {
        let (Some(first), Some(second)) = (signed(heap, self.first), signed(heap, self.second))
        else {
            return Outcome::Wrong;
        };
        heap.restart(granted);
        let named = weighted_equivocation(heap, 3, weights, &first, &second);
        outcome_of(named, self.answer)
    }
}

impl Refusable for Row {
    fn outcome<H: Heap>(&self, heap: H, granted: u64) -> Outcome {
        match weights_of(heap, &[40, 30, 20, 10]) {
            Some(weights) => self.outcome_among(heap, granted, &weights),
            None => Outcome::Wrong,
        }
    }

    /// Signers that weigh too little are refused for that, whatever is requested before.
    fn may_do_without(&self) -> bool {
        self.answer == Err(WeightedEquivocationError::TooLight)
    }
}

/// A result takes one allocation, and what is refused for its values or for a signer takes none.
#[test]
fn members_that_equivocated_are_named(rt: HostRuntime) {
    for (at, row) in ROWS.iter().enumerate() {
        let asked = requests(rt.alloc(), row);
        match row.answer {
            Ok(_) => assert!(rt; asked == Some(1), "{at}"),
            Err(WeightedEquivocationError::TooLight) => assert!(rt; asked.is_some(), "{at}"),
            Err(_) => assert!(rt; asked == Some(0), "{at}"),
        }
    }
}
