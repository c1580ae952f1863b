//! A fault model of one's own, as CALLING.md prints it: `n >= 4f + 1`.

ghost use Rattle.std.specs.Prelude.{◌-◌, ◌/◌, refl};
ghost use Rattle.std.proofs.Common.{arith};

use commonware_utils::faults::{Count, Faults, Resilience};

pub struct N4f1;

impl Faults for N4f1 {
    ghost faults = { λ n. (n - 1) / 4 };

    ghost at_most = { λ n h k. Prim.omega arith };

    fn max_faults<N: Count>(n: N) -> u32 {
        (n.to_u32().unwrap() - 1) / 4
    }
}

impl Resilience for N4f1 {
    ghost factor = { 4 };

    ghost divides = { (Prim.omega arith, λ n h l. refl) };
}
