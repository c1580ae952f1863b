//! A constant that mixes the bits of a number, and no two numbers into one.
ghost use Rattle.std.specs.Prelude.{◌≡◌, ◌*◌, ◌%◌, ◌^◌};

/// An odd number of 64 bits, by which others are multiplied modulo 2^64 to mix their bits.
pub const GOLDEN_RATIO: u64 = 0x9e37_79b9_7f4a_7c15;

/// Which number [`GOLDEN_RATIO`] is, and that numbers whose products with it agree modulo 2^64 are
/// equal.
pub fn golden_ratio_law(a: u64, b: u64)
    ensures number { GOLDEN_RATIO ≡ 0x9e37_79b9_7f4a_7c15 }
    ensures mixes { (a * GOLDEN_RATIO) % 2 ^ 64 ≡ (b * GOLDEN_RATIO) % 2 ^ 64 → a ≡ b }
{}
