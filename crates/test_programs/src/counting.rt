//! The greatest number of faults, found by counting up.

/// The greatest f for which `times` * f + 1 is at most `n`. Both are at least 1, and `n` is below
/// 2^32.
///
/// It is counted up by 2^31, then by half as much, and so on down to 1, each time only if it stays
/// small enough.
pub fn most_faults(times: u64, n: u64) -> u64 {
    let (mut most, mut step) = (0u64, 0x8000_0000u64);
    for _ in 0..32 {
        let more = most.saturating_add(step);
        if more.saturating_mul(times).saturating_add(1) <= n {
            most = more;
        }
        step /= 2;
    }
    most
}
