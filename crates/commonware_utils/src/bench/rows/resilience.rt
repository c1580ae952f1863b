//! Fault models of a resilience `n >= kf + 1`, two of the test's own among them: their numbers at
//! the least committees, at each next one, and at the greatest.
ghost use Rattle.std.specs.Prelude.{◌≡◌, ℕ, ◌+◌, ◌-◌, ◌*◌, ◌/◌, ◌≤◌, refl};
ghost use Rattle.std.proofs.Common.{arith};

use crate::faults::{
    Count, Resilience, counting_law, overlap_law, resilience_law, smaller_quorum, tolerated_faults,
};
use crate::headline::{Numbers, resilience_numbers};
use crate::{Faults, N3f1, N5f1};

/// Crash faults: `n >= 2f + 1`.
struct N2f1;

impl Faults for N2f1 {
    ghost faults = { λ n. (n - 1) / 2 };

    ghost at_most = { λ n h k. Prim.omega arith };

    fn max_faults<N: Count>(n: N) -> u32 {
        (n.to_u32().unwrap() - 1) / 2
    }
}

impl Resilience for N2f1 {
    ghost factor = { 2 };

    ghost divides = { (Prim.omega arith, λ n h l. refl) };
}

/// Between the two models of the library: `n >= 4f + 1`.
struct N4f1;

impl Faults for N4f1 {
    ghost faults = { λ n. (n - 1) / 4 };

    ghost at_most = { λ n h k. Prim.omega arith };

    fn max_faults<N: Count>(n: N) -> u32 {
        (n.to_u32().unwrap() - 1) / 4
    }
}

impl Resilience for N4f1 {
    ghost factor = { 4 };

    ghost divides = { (Prim.omega arith, λ n h l. refl) };
}

/// n, then how many may be faulty, the quorum and the smaller quorum: at 1, k, k + 1 and 2^32 - 1.
type Rows = [(u32, u32, u32, u32); 4];

/// 2 * 2147483647 + 1 = 4294967295.
static AT_2: Rows = [
    (1, 0, 1, 1),
    (2, 0, 2, 1),
    (3, 1, 2, 3),
    (4294967295, 2147483647, 2147483648, 4294967295),
];

/// 3 * 1431655764 + 1 = 4294967293.
static AT_3: Rows = [
    (1, 0, 1, 1),
    (3, 0, 3, 1),
    (4, 1, 3, 3),
    (4294967295, 1431655764, 2863311531, 2863311529),
];

/// 4 * 1073741823 + 1 = 4294967293.
static AT_4: Rows = [
    (1, 0, 1, 1),
    (4, 0, 4, 1),
    (5, 1, 4, 3),
    (4294967295, 1073741823, 3221225472, 2147483647),
];

/// 5 * 858993458 + 1 = 4294967291.
static AT_5: Rows = [
    (1, 0, 1, 1),
    (5, 0, 5, 1),
    (6, 1, 5, 3),
    (4294967295, 858993458, 3435973837, 1717986917),
];

/// Whether a model has the numbers of each row, and so has its k alone.
fn has_the_numbers_of<M: Resilience>(k: u32, rows: &Rows) -> bool {
    for row in rows {
        let (n, max_faults, quorum, smaller) = *row;
        if n == 0 || k < 2 || tolerated_faults(k, n) != max_faults {
            return false;
        }
        let numbers = Numbers { max_faults, quorum };
        if resilience_numbers::<M>(n) != numbers || smaller_quorum::<M, u32>(n) != smaller {
            return false;
        }
    }
    true
}

#[test]
fn models_have_the_numbers_of_their_resilience(rt: HostRuntime) {
    assert!(rt; has_the_numbers_of::<N2f1>(2, &AT_2), "2");
    assert!(rt; has_the_numbers_of::<N3f1>(3, &AT_3), "3");
    assert!(rt; has_the_numbers_of::<N4f1>(4, &AT_4), "4");
    assert!(rt; has_the_numbers_of::<N5f1>(5, &AT_5), "5");
}

#[test]
fn laws_are_called(rt: HostRuntime) {
    counting_law();
    overlap_law::<N2f1>();
    resilience_law::<N4f1>();
    assert!(rt; smaller_quorum::<N2f1, i128>(3) == 3);
    assert!(rt; tolerated_faults(4294967295, 4294967295) == 0);
    assert!(rt; tolerated_faults(7, 20) == 2);
}
