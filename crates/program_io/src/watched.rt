//! Readers and writers that remember whether they have failed or ended.
ghost use Rattle.std.specs.Prelude.{◌≡◌, ◌||◌, ◌++◌, ℕ, List, length, true, false, is_err, OnErr, OnOk};
ghost use Rattle.std.specs.Io.{ReadsAtMost, WritesAtMost};
ghost use Rattle.std.specs.Io.KnownBytes.{Appends, Keeps, ReadConsumes, WriteAppends};
ghost use Rattle.program_io.specs.Watch.{ended_after, is_failed_write};

use crate::output::{WriteFailed, write_bytes};
use std::io;
use std::io::{Read, Write};
use std::marker::Model;

/// A reader or a writer that remembers whether a call has failed, and whether its last read was at
/// the end.
///
/// Each call is passed on to the inner reader or writer, once, and its result is returned as it is.
///
/// Once the reads over `b"abcdef"` have returned all 6 bytes, the reader has not ended; the next
/// read returns 0, and it has ended, and has not failed.
#[derive(Drop)]
pub struct Watched<S> {
    inner: S,
    failed: bool,
    ended: bool,
}

impl<S> Model for Watched<S> {
    ghost use Rattle.program_io.specs.Watch.{Watch};

    ghost Value = { Watch S };

    ghost view = { λ w. record { inner = w.inner; failed = w.failed; ended = w.ended } };
}

impl<S> Watched<S> {
    /// Watches a reader or a writer. No call has failed yet, and no read was at the end.
    pub fn new(inner: S) -> Watched<S>
        ensures inner { result.inner ≡ inner }
        ensures failed { result.failed ≡ false }
        ensures ended { result.ended ≡ false }
    {
        Watched {
            inner,
            failed: false,
            ended: false,
        }
    }

    /// Returns the reader or writer that is watched.
    pub fn inner(&self) -> &S
        ensures { result.now ≡ self.now.inner }
    {
        &self.inner
    }

    /// Whether a call has returned an error, or a write has taken no byte of a non-empty slice.
    ///
    /// Once true it stays true.
    pub fn failed(&self) -> bool
        ensures { result ≡ self.now.failed }
    {
        self.failed
    }

    /// Whether the last read with room for a byte returned 0.
    pub fn ended(&self) -> bool
        ensures { result ≡ self.now.ended }
    {
        self.ended
    }
}

impl<S: Read> Read for Watched<S> {
    ghost remaining = { λ w. S.remaining w.inner };

    /// Reads from the inner reader, once, and remembers an error and the end.
    fn read(&mut self, buf: &mut [u8]) -> io::Result<usize>
        ensures bound { ReadsAtMost result buf.new }
        ensures bytes { ReadConsumes (S.remaining self.old.inner) (S.remaining self.new.inner)
            result buf.new }
        ensures failed { self.new.failed ≡ (self.old.failed || is_err result) }
        ensures ended { self.new.ended ≡ ended_after self.old.ended (length buf.old) result }
    {
        let result = self.inner.read(buf);
        if result.is_err() {
            self.failed = true;
        }
        if !buf.is_empty() {
            self.ended = match &result {
                Ok(n) => *n == 0,
                Err(_) => false,
            };
        }
        result
    }
}

impl<S: Write> Write for Watched<S> {
    ghost contents = { λ w. S.contents w.inner };

    /// Writes to the inner writer, once, and remembers an error, and that no byte of a non-empty
    /// slice was taken.
    fn write(&mut self, buf: &[u8]) -> io::Result<usize>
        ensures bound { WritesAtMost result buf.now }
        ensures bytes { WriteAppends (S.contents self.old.inner) (S.contents self.new.inner)
            result buf.now }
        ensures failed { self.new.failed
            ≡ (self.old.failed || is_failed_write (length buf.now) result) }
        ensures ended { self.new.ended ≡ self.old.ended }
    {
        let result = self.inner.write(buf);
        let failed = match &result {
            Ok(n) => *n == 0 && !buf.is_empty(),
            Err(_) => true,
        };
        if failed {
            self.failed = true;
        }
        result
    }

    /// Flushes the inner writer, once, and remembers an error.
    fn flush(&mut self) -> io::Result<()>
        ensures bytes { Keeps (S.contents self.old.inner) (S.contents self.new.inner) }
        ensures failed { self.new.failed ≡ (self.old.failed || is_err result) }
        ensures ended { self.new.ended ≡ self.old.ended }
    {
        let result = self.inner.flush();
        if result.is_err() {
            self.failed = true;
        }
        result
    }
}

impl<S: Write> Watched<S> {
    /// Writes all the bytes to the inner writer, and remembers where that fails.
    pub(crate) fn write_bytes(&mut self, bytes: &[u8]) -> Result<(), WriteFailed>
        ensures bytes { OnOk result
            (Appends (S.contents self.old.inner) (S.contents self.new.inner) bytes.now) }
        ensures sound { OnOk result (self.new.failed ≡ self.old.failed) }
        ensures ended { self.new.ended ≡ self.old.ended }
        ensures failed { OnErr result (self.new.failed ≡ true) }
        ensures beginning { (front back : List ℕ) × (bytes.now ≡ front ++ back)
            × Appends (S.contents self.old.inner) (S.contents self.new.inner) front }
    {
        let result = write_bytes(&mut self.inner, bytes);
        if result.is_err() {
            self.failed = true;
        }
        result
    }
}
