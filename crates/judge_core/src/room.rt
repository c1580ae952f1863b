//! A room of fixed size for what is said, so that saying it takes no allocation.
ghost use Rattle.std.specs.Prelude.{◌≡◌, ◌++◌, [], IsTrue, false};

use std::marker::Model;

/// How many bytes a room holds.
const SIZE: usize = 4096;

/// Up to 4096 bytes that are to be written.
#[derive(Drop)]
pub(crate) struct Room {
    bytes: [u8; SIZE],
    /// How many of them are in use.
    count: usize,
}

impl Model for Room {
    ghost use Rattle.std.specs.Prelude.{◌≤◌, ℕ, List, take};

    ghost Value = { List ℕ };

    ghost view = { λ room. take room.count room.bytes };

    ghost invariant = { λ room. room.count ≤ 4096 };
}

impl Room {
    /// An empty room.
    pub(crate) fn new() -> Room
        ensures { result ≡ [] }
    {
        Room {
            bytes: [0; SIZE],
            count: 0,
        }
    }

    /// Appends the bytes where they fit, and returns whether they do.
    pub(crate) fn push(&mut self, bytes: &[u8]) -> bool
        ensures fits { IsTrue result → self.new ≡ self.old ++ bytes.now }
        ensures full { result ≡ false → self.new ≡ self.old }
    {
        if SIZE - self.count < bytes.len() {
            return false;
        }
        let end = self.count + bytes.len();
        self.bytes[self.count..end].copy_from_slice(bytes);
        self.count = end;
        true
    }

    /// The bytes.
    pub(crate) fn as_slice(&self) -> &[u8]
        ensures { result.now ≡ self.now }
    {
        &self.bytes[..self.count]
    }

    /// Empties the room.
    pub(crate) fn clear(&mut self)
        ensures { self.new ≡ [] }
    {
        self.count = 0;
    }
}
