//! The bytes of a question.
ghost use Rattle.std.specs.Prelude.{◌≡◌, ◌≤◌, ◌++◌, ◌∷◌, [], length, IfErr, OnOk};

use std::alloc::{AllocError, Allocator};
use std::marker::Model;

/// How many bytes are kept without an allocation.
const SHORT: usize = 64;

/// The bytes of a question. Up to 64 of them are kept in the value itself; more are allocated.
///
/// Those of `020509ffff` are `[2, 5, 9, 0xff, 0xff]`.
#[derive(Drop)]
pub struct Bytes<A: Allocator> {
    /// All the bytes while there are at most 64.
    short: [u8; SHORT],
    /// How many of `short` are in use: none once there are more.
    count: usize,
    /// All the bytes once there are more.
    long: Vec<u8, A>,
}

impl<A: Allocator> Model for Bytes<A> {
    ghost use Rattle.std.specs.Prelude.{◌≡◌, ◌≤◌, ◌⊎◌, ◌++◌, [], ℕ, List, length, take};

    ghost Value = { List ℕ };

    ghost view = { λ b. take b.count b.short ++ b.long.items };

    ghost invariant = { λ b. (b.count ≤ 64) × ((b.long.items ≡ [])
        ⊎ ((b.count ≡ 0) × (64 ≤ length b.long.items))) };
}

impl<A: Allocator> Bytes<A> {
    /// No bytes.
    pub(crate) fn new(alloc: A) -> Bytes<A>
        ensures { result ≡ [] }
    {
        Bytes {
            short: [0; SHORT],
            count: 0,
            long: Vec::new(alloc),
        }
    }

    /// Appends a byte. The error is an allocation failure, and comes only where there are 64 bytes
    /// or more.
    pub(crate) fn push(&mut self, byte: u8) -> Result<(), AllocError>
        ensures appended { OnOk result (self.new ≡ self.old ++ byte ∷ []) }
        ensures memory { IfErr result (λ _. 64 ≤ length self.old) }
    {
        if self.long.is_empty() && self.count < SHORT {
            self.short[self.count] = byte;
            self.count += 1;
            return Ok(());
        }
        if self.long.is_empty() {
            self.long.extend_from_slice(&self.short)?;
            self.count = 0;
        }
        self.long.push(byte)?;
        Ok(())
    }

    /// The bytes.
    pub fn as_slice(&self) -> &[u8]
        ensures { result.now ≡ self.now }
    {
        if self.long.is_empty() {
            &self.short[..self.count]
        } else {
            self.long.as_slice()
        }
    }
}
