//! The line under way.
ghost use Rattle.std.specs.Prelude.{◌≡◌, ◌+◌, ◌<◌, ◌++◌, [], length, IfErr, OnOk};

use std::alloc::{AllocError, Allocator};
use std::marker::Model;

/// How many bytes are kept without an allocation.
const SHORT: usize = 4096;

/// The bytes of the line under way, of which no line feed has come yet. Up to 4096 of them are kept
/// in the value itself; more are allocated.
#[derive(Drop)]
pub(crate) struct Pending<A: Allocator> {
    /// All the bytes while there are at most 4096.
    short: [u8; SHORT],
    /// How many of `short` are in use: none once there are more.
    count: usize,
    /// All the bytes once there are more.
    long: Vec<u8, A>,
}

impl<A: Allocator> Model for Pending<A> {
    ghost use Rattle.std.specs.Prelude.{◌≡◌, ◌≤◌, ◌<◌, ◌⊎◌, ◌++◌, [], ℕ, List, length, take};

    ghost Value = { List ℕ };

    ghost view = { λ pending. take pending.count pending.short ++ pending.long.items };

    ghost invariant = { λ pending. (pending.count ≤ 4096) × ((pending.long.items ≡ [])
        ⊎ ((pending.count ≡ 0) × (4096 < length pending.long.items))) };
}

impl<A: Allocator + Copy> Pending<A> {
    /// No bytes.
    pub(crate) fn new(alloc: A) -> Pending<A>
        ensures { result ≡ [] }
    {
        Pending {
            short: [0; SHORT],
            count: 0,
            long: Vec::new(alloc),
        }
    }

    /// Appends bytes. The error is an allocation failure, and comes only where there are more than
    /// 4096 with them.
    pub(crate) fn extend(&mut self, bytes: &[u8]) -> Result<(), AllocError>
        ensures appended { OnOk result (self.new ≡ self.old ++ bytes.now) }
        ensures memory { IfErr result (λ _. 4096 < length self.old + length bytes.now) }
    {
        if !self.long.is_empty() {
            return self.long.extend_from_slice(bytes);
        }
        if bytes.len() <= SHORT - self.count {
            let end = self.count + bytes.len();
            self.short[self.count..end].copy_from_slice(bytes);
            self.count = end;
            return Ok(());
        }
        let mut long = Vec::new(*self.long.allocator());
        long.extend_from_slice(&self.short[..self.count])?;
        long.extend_from_slice(bytes)?;
        self.long = long;
        self.count = 0;
        Ok(())
    }

    /// The bytes.
    pub(crate) fn as_slice(&self) -> &[u8]
        ensures { result.now ≡ self.now }
    {
        if self.long.is_empty() {
            &self.short[..self.count]
        } else {
            self.long.as_slice()
        }
    }

    /// Lets the bytes go.
    pub(crate) fn clear(&mut self)
        ensures { self.new ≡ [] }
    {
        self.count = 0;
        self.long.clear();
    }
}
