//! Module `codec`: ranges of one number alone.
ghost use Rattle.std.specs.Prelude.{◌≡◌, ℕ, ◌↔◌};
ghost use Rattle.std.specs.Int.NonZero.{non_zero_usize_get};
ghost use Rattle.commonware_utils.specs.Codec.{Within, as_numbers, exactly};

use commonware_utils::codec::RangeCfg;
use std::num::NonZeroUsize;

/// The range of a number alone.
pub fn only(n: usize) -> RangeCfg<usize>
    ensures bounds { result ≡ exactly n }
    ensures holds { (k : ℕ) → Within result k ↔ (k ≡ n) }
{
    RangeCfg::exact(n)
}

/// The range of a number alone that is not 0.
pub fn only_one_above_zero(number: NonZeroUsize) -> RangeCfg<NonZeroUsize>
    ensures bounds { as_numbers result ≡ exactly (non_zero_usize_get number) }
    ensures holds { (k : ℕ) → Within (as_numbers result) k ↔ (k ≡ non_zero_usize_get number) }
{
    RangeCfg::exact(number)
}
