//! Whether members that weigh a quorum signed each of two certificates.
ghost use Rattle.std.specs.Prelude.{◌≡◌, [], ◌∷◌};

use crate::lists::{certificate, weights_of};
use committee_certificates::Signing;
use committee_weights::{both_certified_by_weight, check_weight};

/// Each participant signed the value of its own index alone, and participant 0 is honest.
struct OwnIndex;

impl Signing for OwnIndex {
    ghost signed = { λ index value. value ≡ index ∷ [] };

    ghost honest = { λ index. index ≡ 0 };
}

/// Of 40, 30, 20 and 10 a quorum weighs 51 at a k of 2, 67 at 3 and 81 at 5.
#[test]
fn both_need_a_quorum_by_weight(rt: HostRuntime) {
    let alloc = rt.alloc();
    let weights = weights_of(alloc, &[40, 30, 20, 10]).expect(&rt, "weights");
    let rows: [(&[u32], u32); 6] = [
        (&[0, 1], 70),
        (&[0, 2, 3], 70),
        (&[1, 2, 3], 60),
        (&[0, 1, 3], 80),
        (&[0, 1, 2], 90),
        (&[0, 1, 2, 4], 0),
    ];
    for (signers, weighs) in &rows {
        let first = certificate(alloc, b"\x01\x07A", signers).expect(&rt, "memory");
        for (others, weigh) in &rows {
            let second = certificate(alloc, b"\x01\x07B", others).expect(&rt, "memory");
            for (k, quorum) in [(2, 51), (3, 67), (5, 81)] {
                let both = both_certified_by_weight::<OwnIndex, _, _>(k, &weights, &first, &second);
                assert!(rt;
                    both == (quorum <= *weighs && quorum <= *weigh),
                    "{k} {signers:?}"
                );
                assert!(rt; check_weight(k, &weights, &first).is_ok() == (quorum <= *weighs));
            }
        }
    }
}

/// Four that weigh 1 each are four heads: three are a quorum at a k of 3, and all at a k of 5.
#[test]
fn ones_are_heads(rt: HostRuntime) {
    let alloc = rt.alloc();
    let weights = weights_of(alloc, &[1, 1, 1, 1]).expect(&rt, "weights");
    assert!(rt; weights.quorum_weight(3) == 3 && weights.quorum_weight(5) == 4);
    let three = certificate(alloc, b"\x01\x07A", &[0, 2, 3]).expect(&rt, "memory");
    assert!(rt; weights.weight_of(&three.signers) == Some(3));
    assert!(rt; check_weight(3, &weights, &three).is_ok());
    assert!(rt; check_weight(5, &weights, &three).is_err());
}
