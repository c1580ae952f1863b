//! Each allocation of the calls on votes made to fail in turn.
use crate::made::{Fields, are, at, signers, vote};
use crate::traps::{ROWS, Row, by_number};
use committee_votes::{
    DoubleSignersError, OverlapError, VoteCertificate, VoteRanges, double_signers,
    equivocation_among, overlap,
};
use commonware_base::codec::{Error, RangeCfg, Read, Source, Write};
use std::alloc::{AllocError, Global};
use std::process::Abort;
use test_equipment::walk::{Heap, Outcome, Refusable, full, makes_requests, refused, requests};

impl Refusable for Row {
    fn outcome<H: Heap>(&self, heap: H, granted: u64) -> Outcome {
        let (one, two) = (signers(heap, self.first.1), signers(heap, self.second.1));
        let (Ok(one), Ok(two)) = (one, two) else {
            return Outcome::Wrong;
        };
        heap.restart(granted);
        let named = double_signers(heap, 4, at(self.first.0), &one, at(self.second.0), &two);
        match (&named, self.answer) {
            (Ok(named), Ok(wanted)) => full(are(named, wanted)),
            (Err(DoubleSignersError::Memory), Ok(_)) => refused(are(&one, self.first.1)),
            (Err(error), Err(wanted)) => full(*error == wanted),
            _ => Outcome::Wrong,
        }
    }
}

/// A row of which the same is asked where each vote has a least number of signers: of `overlap`,
/// or else of `equivocation_among`.
#[derive(Drop)]
struct Numbered {
    row: &'static Row,
    is_overlap: bool,
    least: u32,
}

impl Refusable for Numbered {
    fn outcome<H: Heap>(&self, heap: H, granted: u64) -> Outcome {
        let row = self.row;
        let (one, two) = (signers(heap, row.first.1), signers(heap, row.second.1));
        let (Ok(one), Ok(two)) = (one, two) else {
            return Outcome::Wrong;
        };
        let (a, b) = (at(row.first.0), at(row.second.0));
        let wanted = self.wanted();
        heap.restart(granted);
        let named = if self.is_overlap {
            let least = self.least as usize;
            overlap(heap, 4, least, a, &one, least, b, &two)
        } else if self.least <= 4 {
            equivocation_among(heap, 4, 4 - self.least, a, &one, b, &two)
        } else {
            return Outcome::Wrong;
        };
        match (&named, wanted) {
            (Ok(named), Ok(wanted)) => full(are(named, wanted)),
            (Err(OverlapError::Memory), Ok(_)) => refused(are(&one, row.first.1)),
            (Err(error), Err(wanted)) => full(*error == wanted),
            _ => Outcome::Wrong,
        }
    }
}

impl Numbered {
    /// Returns the answer of the row where each vote needs so many signers.
    fn wanted(&self) -> Result<&'static [u32], OverlapError> {
        let row = self.row;
        let named = row.answer.map_err(by_number)?;
        let least = self.least as usize;
        if row.first.1.len() < least || row.second.1.len() < least {
            return Err(OverlapError::TooFew);
        }
        Ok(named)
    }
}

/// Names take one allocation, and a refusal takes none; nor does it where nobody signed a vote.
#[test]
fn names_take_one_allocation(rt: HostRuntime) {
    for (place, row) in ROWS.iter().enumerate() {
        let have_signers = !row.first.1.is_empty() && !row.second.1.is_empty();
        let asked = (row.answer.is_ok() && have_signers) as u64;
        assert!(rt; requests(rt.alloc(), row) == Some(asked), "{place}");
        for least in 0..4u32 {
            for is_overlap in [true, false] {
                let numbered = Numbered {
                    row,
                    is_overlap,
                    least,
                };
                let asked = (numbered.wanted().is_ok() && have_signers) as u64;
                assert!(rt;
                    requests(rt.alloc(), &numbered) == Some(asked),
                    "{place} {least}"
                );
            }
        }
    }
}

/// A certificate that is read from these bytes, cloned and written again.
#[derive(Drop)]
struct Bytes(&'static [u8]);

/// The certificate of this input, written again from a clone.
fn again<H: Heap>(heap: H, input: &[u8]) -> Result<Vec<u8, H>, Error> {
    let range = RangeCfg::from(0..=4usize);
    let ranges = VoteRanges {
        domain: range,
        slot: range,
        decision: range,
    };
    let mut source = Source::new(input);
    let read = VoteCertificate::<H>::read_cfg(heap, &mut source, &(ranges, range))?;
    let Ok(cloned) = read.clone() else {
        return Err(Error::Memory);
    };
    let mut sink = Vec::new(heap);
    if cloned.write(&mut sink).is_err() {
        return if sink.is_empty() {
            Err(Error::Memory)
        } else {
            Err(Error::EndOfBuffer)
        };
    }
    Ok(sink)
}

impl Refusable for Bytes {
    fn outcome<H: Heap>(&self, heap: H, granted: u64) -> Outcome {
        heap.restart(granted);
        match &again(heap, self.0) {
            Ok(bytes) => full(bytes.as_slice() == self.0),
            Err(Error::Memory) => refused(true),
            Err(_) => Outcome::Wrong,
        }
    }
}

#[test]
fn certificates_are_read_and_written_or_refused(rt: HostRuntime) {
    let filled = Bytes(b"\x01\x01\x01\x07\x01\xaa\x03\x00\x01\x02");
    assert!(rt; makes_requests(rt.alloc(), &filled, 9));
    let signed = Bytes(b"\x00\x00\x00\x01\x04");
    assert!(rt; makes_requests(rt.alloc(), &signed, 3));
}

/// Votes that differ in one field from the vote of the domain 1, the slot 2 and the decision 3.
static OTHERS: [Fields; 4] = [
    (b"\x02", b"\x02", b"\x03"),
    (b"\x01", b"", b"\x03"),
    (b"\x01", b"\x02", b"\x03\x00"),
    (b"\x01\x02", b"", b"\x03"),
];

/// Whether the vote equals its clone, and not another.
fn is_apart(alloc: Global, other: Fields) -> Result<bool, AllocError> {
    let one = vote(alloc, (b"\x01", b"\x02", b"\x03"))?;
    Ok(one == one.clone()? && one != vote(alloc, other)?)
}

#[test]
fn votes_are_equal_where_all_fields_are(rt: HostRuntime) {
    for other in &OTHERS {
        assert!(rt; is_apart(rt.alloc(), *other) == Ok(true), "{other:?}");
    }
}
