//! Sizes: the larger of two, and the largest of one allocation.
ghost use Rattle.std.specs.Prelude.{◌≡◌};
ghost use Rattle.std.specs.Prelude.{max as larger};

/// The most bytes that one allocation can have.
pub const MAX_ALLOCATION_BYTES: usize = isize::MAX as usize;

/// Which number [`MAX_ALLOCATION_BYTES`] is.
pub fn max_allocation_law()
    ensures { MAX_ALLOCATION_BYTES ≡ 9223372036854775807 }
{}

/// Returns the larger of two sizes.
pub fn max(a: usize, b: usize) -> usize
    ensures { result ≡ larger a b }
{
    if a > b { a } else { b }
}
