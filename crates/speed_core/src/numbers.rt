//! The numbers that the collections are built of.
ghost use Rattle.std.specs.Prelude.{◌≡◌, ◌-◌, ◌*◌, ◌/◌, ◌%◌, ◌^◌, ◌++◌, ◌≤◌, IfOk, bit_xor, length, replicate};
ghost use Rattle.std.specs.Int.{to_be_bytes, w32};

use std::alloc::{AllocError, Global};

/// The state from which the random numbers begin.
const SEED: u64 = 88172645463325252;

/// The state after this one: three shifts, to the left, the right and the left, each of which is
/// mixed into what it is a shift of.
pub(crate) fn next_state(state: u64) -> u64
    ensures { let left = bit_xor state (state * 8192 % 2 ^ 64) in
        let right = bit_xor left (left / 128) in
        result ≡ bit_xor right (right * 131072 % 2 ^ 64) }
{
    let left = state ^ state.wrapping_mul(8192);
    let right = left ^ (left / 128);
    right ^ right.wrapping_mul(131072)
}

/// Returns `count` random numbers, which are the states after the seed, modulo 2^32.
pub fn random(alloc: Global, count: u32) -> Result<Vec<u32>, AllocError>
    ensures { IfOk result (λ numbers. length numbers.items ≡ count) }
{
    let mut state = SEED;
    (0..count)
        .map(|_| {
            state = next_state(state);
            (state % 4294967296) as u32
        })
        .collect(alloc)
}

/// Returns the first `count` multiples of 7, modulo 2^32.
pub fn rising(alloc: Global, count: u32) -> Result<Vec<u32>, AllocError>
    ensures { IfOk result (λ numbers. length numbers.items ≡ count) }
{
    (0..count)
        .map(|index| index.wrapping_add(1).wrapping_mul(7))
        .collect(alloc)
}

/// The four bytes of the number, the most significant first, and then zeros.
pub fn wide_bytes<const N: usize>(number: u32) -> [u8; N]
    requires { 4 ≤ N }
    ensures { result ≡ to_be_bytes w32 number ++ replicate (N - 4) 0 }
{
    let mut bytes = [0u8; N];
    bytes[..4].copy_from_slice(&number.to_be_bytes());
    bytes
}
