//! The least weights of the usual rules, and what two lists outlast.
use committee_votes::{at_least_two_thirds, more_than_two_thirds, outlasted};
use std::process::Abort;

#[test]
fn thresholds_are_least(rt: HostRuntime) {
    let totals = [0u64, 1, 2, 3, 4, 5, 6, 7, 8, 9, 10, 98, 99, 100, 101];
    for total in totals {
        let more = more_than_two_thirds(total);
        let least = at_least_two_thirds(total);
        for w in 0..=102u64 {
            assert!(rt; (more <= w) == (2 * total < 3 * w), "{total} {w}");
            assert!(rt; (least <= w) == (2 * total <= 3 * w), "{total} {w}");
        }
    }
    let most = u64::MAX;
    assert!(rt; more_than_two_thirds(most) == 12297829382473034411);
    assert!(rt; at_least_two_thirds(most) == 12297829382473034410);
    assert!(rt; outlasted(100, 67, 67) == Some(33));
    assert!(rt; outlasted(100, 67, 34) == Some(0));
    assert!(rt; outlasted(100, 50, 50) == None);
    assert!(rt; outlasted(3, 2, 2) == Some(0));
    assert!(rt; outlasted(0, 0, 0) == None);
    assert!(rt; outlasted(most, most, most) == Some(18446744073709551614));
}
