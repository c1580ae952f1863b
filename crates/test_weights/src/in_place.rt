//! What signers weigh who stay in the input, and what listed indices weigh.
use committee_certificates::find_certificate;
use committee_weights::{total_weight, weight_of_indices, weight_of_signers};
use commonware_base::codec::{RangeCfg, Source};
use commonware_ordered::Set;
use std::alloc::Global;

const FOUR: &[u64] = &[40, 30, 20, 10];

/// What the signers of the certificate that an input begins with weigh of these weights, and the
/// sum of the numbers at their indices.
fn weighed(input: &[u8], weights: &[u64]) -> Option<(Option<u64>, Option<u64>)> {
    if total_weight(weights).is_err() {
        return None;
    }
    let mut source = Source::new(input);
    let found = find_certificate(&mut source, RangeCfg::from(..), RangeCfg::from(..)).ok()?;
    let sum = found.signers.sum_of(weights);
    Some((weight_of_signers(weights, &found.signers), sum))
}

#[test]
fn signers_weigh_what_their_indices_do(rt: HostRuntime) {
    // The value aa; then no signers, 0, 3, 0 and 2, all, 4, and 128, which has two bytes.
    let rows: [(&[u8], Option<u64>); 7] = [
        (&[1, 0xAA, 0], Some(0)),
        (&[1, 0xAA, 1, 0], Some(40)),
        (&[1, 0xAA, 1, 3], Some(10)),
        (&[1, 0xAA, 2, 0, 2], Some(60)),
        (&[1, 0xAA, 4, 0, 1, 2, 3, 9], Some(100)),
        (&[1, 0xAA, 2, 0, 4], None),
        (&[1, 0xAA, 2, 0, 0x80, 1], None),
    ];
    for (input, weight) in rows {
        assert!(rt; weighed(input, FOUR) == Some((weight, weight)), "{input:?}");
    }
}

/// What participants of strictly increasing indices weigh of these weights.
fn listed(alloc: Global, indices: &[u32], weights: &[u64]) -> Option<Option<u64>> {
    let indices = Set::<u32, Global>::from_iter_dedup(alloc, indices.iter().copied()).ok()?;
    if total_weight(weights).is_err() {
        return None;
    }
    Some(weight_of_indices(weights, indices.as_slice()))
}

#[test]
fn indices_weigh_what_members_do(rt: HostRuntime) {
    let rows: [(&[u32], Option<u64>); 6] = [
        (&[], Some(0)),
        (&[3], Some(10)),
        (&[0, 2], Some(60)),
        (&[0, 1, 2, 3], Some(100)),
        (&[4], None),
        (&[0, u32::MAX], None),
    ];
    for (indices, weight) in rows {
        assert!(rt;
            listed(rt.alloc(), indices, FOUR) == Some(weight),
            "{indices:?}"
        );
    }
}
