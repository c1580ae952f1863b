//! Numbers worked out by hand, and each public call once.
ghost use Rattle.std.specs.Prelude.{◌≤◌};

use crate::{accused_weight, two_thirds_of};
use committee_certificates::Certificate;
use committee_weights::{
    MapWeightsError, ReadWeightsError, WeightRefutation, WeightedConflictError,
    WeightedEquivocationError, WeightedQuorumError, Weights, WeightsError, check_weight,
    greatest_safe, read_weights, weight_refutation, weighted_conflict, weighted_equivocation,
};
use commonware_base::Participant;
use commonware_base::codec::{Error, Source, Write};
use commonware_map::Map;
use commonware_ordered::Set;
use commonware_sequence::U64;
use std::alloc::{AllocError, Global};

fn set_of(alloc: Global, indices: &[u32]) -> Result<Set<Participant, Global>, AllocError> {
    let mut list = Vec::new(alloc);
    for index in indices {
        list.push(Participant::new(*index))?;
    }
    Set::from_iter_dedup(alloc, list)
}

fn signed(alloc: Global, value: &[u8], indices: &[u32]) -> Result<Certificate<Global>, AllocError> {
    let value = Vec::from_slice(alloc, value)?;
    let signers = set_of(alloc, indices)?;
    Ok(Certificate { value, signers })
}

fn weights_of(alloc: Global, items: &[u64]) -> Result<Weights<Global>, WeightsError> {
    let Ok(items) = Vec::from_slice(alloc, items) else {
        return Err(WeightsError::TooMany);
    };
    Weights::new(items)
}

/// The weights 2 and 1 are 3 in all: (3 - 1) / 3 is 0, and (3 - 1) / 2 is 1.
#[test]
fn two_and_one(rt: HostRuntime) {
    let weights = weights_of(rt.alloc(), &[2, 1]).expect(&rt, "weights");
    assert!(rt; weights.len() == 2 && weights.total() == 3);
    assert!(rt;
        weights.as_slice() == [2, 1].as_slice() && weights.iter().copied().sum::<u64>() == 3
    );
    assert!(rt; weights.get(Participant::new(0)) == Some(2));
    assert!(rt; weights.get(Participant::new(2)).is_none());
    assert!(rt; weights.max_faulty_weight(3) == 0 && weights.quorum_weight(3) == 3);
    assert!(rt; weights.smaller_quorum_weight(3) == 1);
    assert!(rt; weights.max_faulty_weight(2) == 1 && weights.quorum_weight(2) == 2);
    let heavy = set_of(rt.alloc(), &[0]).expect(&rt, "memory");
    let light = set_of(rt.alloc(), &[1]).expect(&rt, "memory");
    assert!(rt; weights.weight_of(&heavy) == Some(2) && weights.weight_of(&light) == Some(1));
    assert!(rt; weights.is_quorum(2, &heavy) && !weights.is_quorum(2, &light));
    assert!(rt; !weights.is_quorum(3, &heavy));
    let clone = weights.clone().expect(&rt, "memory");
    assert!(rt; clone == weights && clone.total() == 3);
    let other = weights_of(rt.alloc(), &[1, 2]).expect(&rt, "weights");
    assert!(rt; other != weights && other.total() == 3);
}

/// The first of the reasons is given, and the greatest sum that fits is 2^64 - 1.
#[test]
fn the_first_reason_is_given(rt: HostRuntime) {
    let alloc = rt.alloc();
    assert!(rt; weights_of(alloc, &[]).is_err_and(|error| error == WeightsError::Empty));
    assert!(rt; weights_of(alloc, &[5, 0, 0]).is_err_and(|error| error == WeightsError::Zero(1)));
    let over = weights_of(alloc, &[u64::MAX, 1, 0]);
    assert!(rt; over.is_err_and(|error| error == WeightsError::Overflow(1)));
    let most = weights_of(alloc, &[u64::MAX - 1, 1]).expect(&rt, "most");
    assert!(rt; most.quorum_weight(2) == 9223372036854775808);
    assert!(rt; most.quorum_weight(3) == 12297829382473034411);
    assert!(rt; most.smaller_quorum_weight(2) == u64::MAX);
    assert!(rt; most.quorum_weight(u32::MAX) == 18446744069414584319);
}

/// The stakes 10 of the key 7 and 40 of the key 3: in the order of the keys they are 40 and 10.
#[test]
fn stakes_in_the_order_of_their_keys(rt: HostRuntime) {
    let alloc = rt.alloc();
    let pairs = [(7, U64::new(10)), (3, U64::new(40))];
    let stakes = Map::try_from_array(alloc, pairs).expect(&rt, "stakes");
    let weights = Weights::from_map(alloc, &stakes).expect(&rt, "weights");
    assert!(rt; weights.as_slice() == [40, 10].as_slice());
    assert!(rt; two_thirds_of(alloc, &stakes) == Ok(34));
    let pairs = [(7, U64::new(0)), (3, U64::new(40))];
    let stakes = Map::try_from_array(alloc, pairs).expect(&rt, "stakes");
    let refused = Err(MapWeightsError::Refused(WeightsError::Zero(1)));
    assert!(rt; two_thirds_of(alloc, &stakes) == refused);
}

/// Of 40, 30, 20 and 10 a quorum weighs 67 at a k of 3, since (100 - 1) / 3 is 33.
#[test]
fn one_certificate(rt: HostRuntime) {
    let alloc = rt.alloc();
    let weights = weights_of(alloc, &[40, 30, 20, 10]).expect(&rt, "weights");
    let heavy = signed(alloc, &[1, 7, 65], &[0, 1]).expect(&rt, "memory");
    let light = signed(alloc, &[1, 7, 66], &[1, 2, 3]).expect(&rt, "memory");
    let stranger = signed(alloc, &[1, 7, 66], &[4]).expect(&rt, "memory");
    assert!(rt; check_weight(3, &weights, &heavy) == Ok(()));
    assert!(rt; check_weight(3, &weights, &light) == Err(WeightedQuorumError::TooLight));
    assert!(rt; check_weight(3, &weights, &stranger) == Err(WeightedQuorumError::Outside));
}

/// The signers of both of two certificates for slot 7 are the first member, who weighs 40.
#[test]
fn two_certificates(rt: HostRuntime) {
    let alloc = rt.alloc();
    let weights = weights_of(alloc, &[40, 30, 20, 10]).expect(&rt, "weights");
    let first = signed(alloc, &[1, 7, 65], &[0, 1]).expect(&rt, "memory");
    let second = signed(alloc, &[1, 7, 66], &[0, 2, 3]).expect(&rt, "memory");
    assert!(rt; accused_weight(alloc, &weights, &first, &first) == Ok(0));
    assert!(rt; accused_weight(alloc, &weights, &first, &second) == Ok(40));
    let both = weighted_conflict(alloc, 3, &weights, &first, &second).expect(&rt, "conflict");
    assert!(rt; both.as_slice() == [Participant::new(0)].as_slice());
    let both = weighted_equivocation(alloc, 3, &weights, &first, &second).expect(&rt, "slot 7");
    assert!(rt; both.as_slice() == [Participant::new(0)].as_slice());
}

/// The members 1, 2 and 3 weigh 60, and slot 8 isn't slot 7.
#[test]
fn two_certificates_that_accuse_no_one(rt: HostRuntime) {
    let alloc = rt.alloc();
    let weights = weights_of(alloc, &[40, 30, 20, 10]).expect(&rt, "weights");
    let first = signed(alloc, &[1, 7, 65], &[0, 1]).expect(&rt, "memory");
    let light = signed(alloc, &[1, 7, 66], &[1, 2, 3]).expect(&rt, "memory");
    let later = signed(alloc, &[1, 8, 66], &[0, 1]).expect(&rt, "memory");
    let named = accused_weight(alloc, &weights, &first, &light);
    assert!(rt; named == Err(WeightedConflictError::TooLight));
    let named = weighted_equivocation(alloc, 3, &weights, &first, &light);
    assert!(rt; named.is_err_and(|error| error == WeightedEquivocationError::TooLight));
    let named = weighted_equivocation(alloc, 3, &weights, &first, &later);
    assert!(rt; named.is_err_and(|error| error == WeightedEquivocationError::OtherSlot));
    let text = format!(in alloc; "{}", WeightedConflictError::TooLight).expect(&rt, "memory");
    assert!(rt; text.as_str() == "the signers weigh less than a quorum");
}

/// The bytes of a map of two keys of one byte, with a byte after it.
const KEYED: [u8; 21] = [
    2, 3, 7, 2, 0, 0, 0, 0, 0, 0, 0, 40, 0, 0, 0, 0, 0, 0, 0, 10, 99,
];

/// The keys 3 and 7 have the weights 40 and 10, and are written as they are read.
#[test]
fn weights_with_their_keys(rt: HostRuntime) {
    let alloc = rt.alloc();
    let limits = ((0..=4).into(), (), ());
    let mut source = Source::new(KEYED.as_slice());
    let read = read_weights::<u8, Global>(alloc, &mut source, &limits);
    let (stakes, weights) = read.expect(&rt, "weights");
    assert!(rt; stakes.keys().as_slice() == [3, 7].as_slice());
    assert!(rt; weights.as_slice() == [40, 10].as_slice() && weights.total() == 50);
    assert!(rt; source.rest() == [99].as_slice());
    let mut written = Vec::new(alloc);
    stakes.write(&mut written).expect(&rt, "memory");
    assert!(rt; written.as_slice() == &KEYED[..20]);
}

/// What is wrong with some bytes, read as weights of keys of one byte; and how many are left.
fn refusal(alloc: Global, bytes: &[u8]) -> (Option<ReadWeightsError>, usize) {
    let limits = ((0..=4).into(), (), ());
    let mut source = Source::new(bytes);
    match read_weights::<u8, Global>(alloc, &mut source, &limits) {
        Ok(_read) => (None, source.remaining()),
        Err(error) => (Some(error), source.remaining()),
    }
}

/// The faults of the map come first, and after each refusal all bytes are left.
#[test]
fn the_first_fault_of_keyed_weights(rt: HostRuntime) {
    let alloc = rt.alloc();
    let (error, left) = refusal(alloc, &[0, 0]);
    assert!(rt; error == Some(ReadWeightsError::Refused(WeightsError::Empty)) && left == 2);
    let zero = [2, 3, 7, 2, 0, 0, 0, 0, 0, 0, 0, 40, 0, 0, 0, 0, 0, 0, 0, 0];
    let (error, left) = refusal(alloc, zero.as_slice());
    assert!(rt; error == Some(ReadWeightsError::Refused(WeightsError::Zero(1))) && left == 20);
    let unsorted = [2, 7, 3, 2, 0, 0, 0, 0, 0, 0, 0, 40, 0, 0, 0, 0, 0, 0, 0, 0];
    let (error, left) = refusal(alloc, unsorted.as_slice());
    let invalid = Error::Invalid("Set", "items must be sorted and unique");
    assert!(rt; error == Some(ReadWeightsError::Undecodable(invalid)) && left == 20);
    let (error, left) = refusal(alloc, &KEYED[..19]);
    assert!(rt; error == Some(ReadWeightsError::Undecodable(Error::EndOfBuffer)) && left == 19);
    let (error, left) = refusal(alloc, &[5]);
    assert!(rt; error == Some(ReadWeightsError::Undecodable(Error::InvalidLength(5))) && left == 1);
}

/// Whether a refutation is these weights, and these two subsets.
fn is(found: &WeightRefutation<Global>, weights: &[u64], one: &[bool], other: &[bool]) -> bool {
    found.weights.as_slice() == weights
        && found.one.as_slice() == one
        && found.other.as_slice() == other
}

/// Of 7 in all, at a k of 3, 2 is safe, and 3 isn't: two subsets that weigh 4 share 1, and 4 are
/// needed. Where all are outside, no one is in a quorum.
#[test]
fn refuted_by_weights(rt: HostRuntime) {
    let alloc = rt.alloc();
    let found = weight_refutation(alloc, 3, 7, 3, 3)
        .expect(&rt, "memory")
        .expect(&rt, "three");
    assert!(rt;
        is(
            &found,
            &[3, 1, 3],
            &[true, true, false],
            &[false, true, true]
        )
    );
    let found = weight_refutation(alloc, 3, 7, 3, 5)
        .expect(&rt, "memory")
        .expect(&rt, "five");
    let one = [true, true, true, true, false];
    let other = [false, false, false, true, true];
    assert!(rt; is(&found, &[1, 1, 1, 1, 3], one.as_slice(), other.as_slice()));
    let found = weight_refutation(alloc, 3, 7, 4, 3)
        .expect(&rt, "memory")
        .expect(&rt, "half");
    assert!(rt;
        is(
            &found,
            &[3, 1, 3],
            &[true, false, false],
            &[false, true, true]
        )
    );
    let found = weight_refutation(alloc, 3, 7, 9, 3)
        .expect(&rt, "memory")
        .expect(&rt, "all");
    assert!(rt;
        is(
            &found,
            &[1, 1, 5],
            &[true, false, false],
            &[false, true, true]
        )
    );
    let most = weight_refutation(alloc, 2, u64::MAX, u64::MAX, 3).expect(&rt, "memory");
    assert!(rt; most.expect(&rt, "most").weights.total() == u64::MAX);
    assert!(rt;
        weight_refutation(alloc, 3, 7, 2, 3)
            .expect(&rt, "safe")
            .is_none()
    );
    assert!(rt;
        weight_refutation(alloc, 3, 7, 3, 2)
            .expect(&rt, "two")
            .is_none()
    );
    assert!(rt;
        weight_refutation(alloc, 3, 7, 3, 8)
            .expect(&rt, "eight")
            .is_none()
    );
}

/// What `greatest_safe` returns of at most 20 participants.
fn greatest_of(k: u32, weights: &Weights<Global>) -> Option<u64>
    requires { 2 ≤ k }
{
    if weights.len() > 20 {
        return None;
    }
    Some(greatest_safe(k, weights))
}

/// Of 5, 3 and 2 at a k of 3: {5, 2} and {3, 2} share 2 and leave out 3 and 5, so that 5 isn't
/// safe, and at 4 each subset that weighs 6 or more has the 5.
#[test]
fn what_lumps_allow(rt: HostRuntime) {
    let alloc = rt.alloc();
    let pair = weights_of(alloc, &[2, 1]).expect(&rt, "weights");
    assert!(rt; greatest_of(3, &pair) == Some(1) && pair.max_faulty_weight(3) == 0);
    let ones = weights_of(alloc, &[1, 1, 1]).expect(&rt, "weights");
    assert!(rt; greatest_of(3, &ones) == Some(0) && greatest_of(2, &ones) == Some(1));
    let three = weights_of(alloc, &[5, 3, 2]).expect(&rt, "weights");
    assert!(rt; greatest_of(2, &three) == Some(4) && greatest_of(3, &three) == Some(4));
    assert!(rt; greatest_of(5, &three) == Some(2) && three.max_faulty_weight(5) == 1);
    let one = weights_of(alloc, &[u64::MAX]).expect(&rt, "weights");
    assert!(rt; greatest_of(3, &one) == Some(u64::MAX - 1));
}
