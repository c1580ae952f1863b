//! What weights and the errors of this crate are displayed as.
use crate::lists::weights_of;
use committee_weights::{
    MapWeightsError, ReadWeightsError, WeightedConflictError, WeightedEquivocationError,
    WeightedQuorumError, WeightsError,
};
use commonware_base::codec::Error;
use std::alloc::Global;
use std::fmt;

/// Whether a value is displayed as this.
fn is_shown<T: fmt::Display>(alloc: Global, value: &T, text: &str) -> bool {
    match format!(in alloc; "{value}") {
        Ok(shown) => shown.as_str() == text,
        Err(_) => false,
    }
}

#[test]
fn refused_weights_are_displayed(rt: HostRuntime) {
    let rows = [
        (WeightsError::Empty, "no weights"),
        (WeightsError::TooMany, "more than 4294967295 weights"),
        (WeightsError::Zero(7), "the weight at index 7 is zero"),
        (
            WeightsError::Overflow(70_000),
            "the sum of the weights overflows at index 70000",
        ),
    ];
    for (error, text) in &rows {
        let alloc = rt.alloc();
        assert!(rt; is_shown(alloc, error, text), "{text}");
        assert!(rt;
            is_shown(alloc, &MapWeightsError::Refused(*error), text),
            "{text}"
        );
        assert!(rt;
            is_shown(alloc, &ReadWeightsError::Refused(*error), text),
            "{text}"
        );
    }
}

#[test]
fn other_errors_are_displayed(rt: HostRuntime) {
    let alloc = rt.alloc();
    let end = ReadWeightsError::Undecodable(Error::EndOfBuffer);
    assert!(rt; is_shown(alloc, &end, "end of input"));
    assert!(rt; is_shown(alloc, &MapWeightsError::Memory, "out of memory"));
    let light = "the signers weigh less than a quorum";
    assert!(rt; is_shown(alloc, &WeightedQuorumError::TooLight, light));
    assert!(rt; is_shown(alloc, &WeightedConflictError::TooLight, light));
    assert!(rt; is_shown(alloc, &WeightedEquivocationError::TooLight, light));
    let outside = "a signer is no member of the committee";
    assert!(rt; is_shown(alloc, &WeightedQuorumError::Outside, outside));
    assert!(rt; is_shown(alloc, &WeightedConflictError::Outside, outside));
    assert!(rt; is_shown(alloc, &WeightedEquivocationError::Outside, outside));
    assert!(rt; is_shown(alloc, &WeightedConflictError::Memory, "out of memory"));
}

#[test]
fn weights_are_shown_as_a_list(rt: HostRuntime) {
    let alloc = rt.alloc();
    let weights = weights_of(alloc, &[40, 10]).expect(&rt, "weights");
    let shown = format!(in alloc; "{weights:?}").expect(&rt, "memory");
    assert!(rt; shown.as_str() == "Weights([40, 10])");
}
