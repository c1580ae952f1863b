//! A reader and a writer that do what a script says, and count their calls.
ghost use Rattle.std.specs.Prelude.{◌≡◌, ◌<◌, max, [], None, Some};

use std::alloc::Allocator;
use std::io;
use std::io::{Read, Write};

/// What a [`ScriptedReader`] does at the one call of `read` at which it goes wrong.
#[derive(Clone, Copy, Debug, PartialEq, Eq)]
pub enum ReadFault {
    /// It gives nothing and fails with this kind of error. The call after it gives what this one
    /// would have given.
    Fails(io::ErrorKind),
    /// It gives one byte, where there is one and there is room for it, whatever its step.
    GivesOneByte,
}

/// A reader that gives at most `step` bytes a call. At the end of its bytes it ends, or fails at
/// every call. One call of `read` may go wrong.
///
/// Of the bytes `b"abcd"`, 2 a call, where call 1 gives one byte: the calls return 2, 1, 1 and 0.
#[derive(Drop)]
pub struct ScriptedReader<'a> {
    /// The bytes that no call has given yet.
    pub rest: &'a [u8],
    /// How many bytes one call gives at most.
    pub step: usize,
    /// The kind of error at the end of the bytes. With none, the stream ends there.
    pub failure: Option<io::ErrorKind>,
    /// The call of `read` that goes wrong, counted from 0, and how. The calls after it are as
    /// those before it.
    pub fault: Option<(u32, ReadFault)>,
    /// How many calls of `read` there have been.
    pub calls: u32,
    // A step of 0 would say that the bytes have ended where they have not.
    ghost moves: { 0 < step },
}

impl<'a> ScriptedReader<'a> {
    /// A reader of these bytes, which ends after them. A step of 0 counts as 1.
    pub fn new(bytes: &'a [u8], step: usize) -> ScriptedReader<'a>
        ensures rest { result.rest.now ≡ bytes.now }
        ensures step { result.step ≡ max step 1 }
        ensures ends { result.failure ≡ None }
        ensures goes_well { result.fault ≡ None }
        ensures uncalled { result.calls ≡ 0 }
    {
        ScriptedReader {
            rest: bytes,
            step: step.max(1),
            failure: None,
            fault: None,
            calls: 0,
        }
    }

    /// The same reader, but each call at the end of its bytes fails with this kind of error.
    pub fn failing(mut self, kind: io::ErrorKind) -> ScriptedReader<'a>
        ensures rest { result.rest ≡ self.entry.rest }
        ensures step { result.step ≡ self.entry.step }
        ensures fails { result.failure ≡ Some kind }
        ensures fault { result.fault ≡ self.entry.fault }
        ensures calls { result.calls ≡ self.entry.calls }
    {
        self.failure = Some(kind);
        self
    }

    /// The same reader, but its call `at` of `read`, counted from 0, goes wrong in this way.
    pub fn with_fault(mut self, at: u32, way: ReadFault) -> ScriptedReader<'a>
        ensures rest { result.rest ≡ self.entry.rest }
        ensures step { result.step ≡ self.entry.step }
        ensures failure { result.failure ≡ self.entry.failure }
        ensures goes_wrong { result.fault ≡ Some (at, way) }
        ensures calls { result.calls ≡ self.entry.calls }
    {
        self.fault = Some((at, way));
        self
    }
}

impl<'a> Read for ScriptedReader<'a> {
    ghost remaining = { λ r. Some r.rest.now };

    fn read(&mut self, buf: &mut [u8]) -> io::Result<usize> {
        let call = self.calls;
        self.calls = call.saturating_add(1);
        let step = match self.fault {
            Some((at, ReadFault::Fails(kind))) if at == call => return Err(io::Error::from(kind)),
            Some((at, ReadFault::GivesOneByte)) if at == call => 1,
            _ => self.step,
        };
        if self.rest.is_empty() {
            return match self.failure {
                Some(kind) => Err(io::Error::from(kind)),
                None => Ok(0),
            };
        }
        let n = self.rest.len().min(step).min(buf.len());
        let (now, later) = self.rest.split_at(n);
        buf[..n].copy_from_slice(now);
        self.rest = later;
        Ok(n)
    }
}

/// What a [`ScriptedWriter`] does at the call of `write` at which it goes wrong.
#[derive(Clone, Copy, Debug, PartialEq, Eq)]
pub enum WriteFault {
    /// It takes nothing and fails with this kind of error.
    Fails(io::ErrorKind),
    /// It takes nothing and fails with this kind of error, and so does every later call.
    Breaks(io::ErrorKind),
    /// It takes nothing and says so: it returns `Ok(0)`.
    TakesNothing,
    /// It takes one byte, where there is one, whatever its step, unless that is 0.
    TakesOneByte,
}

/// A writer that takes at most `step` bytes a call, and keeps them. One call of `write` may go
/// wrong, or each from one on, and `flush` may fail.
///
/// Calls with 3 bytes, 2 a call, where call 1 takes one byte: they return 2, 1, 2 and 2.
#[derive(Drop)]
pub struct ScriptedWriter<A: Allocator> {
    /// The bytes that it has taken.
    pub taken: Vec<u8, A>,
    /// How many bytes one call takes at most.
    pub step: usize,
    /// The call of `write` that goes wrong, counted from 0, and how. Unless that lasts, the calls
    /// after it are as those before it.
    pub fault: Option<(u32, WriteFault)>,
    /// The kind of error with which `flush` fails, if it does.
    pub flush_failure: Option<io::ErrorKind>,
    /// How many calls of `write` there have been.
    pub calls: u32,
    /// How many calls of `flush` there have been.
    pub flushes: u32,
}

impl<A: Allocator> ScriptedWriter<A> {
    /// A writer that has taken nothing, and whose calls all go well. With a step of 0 it never
    /// takes a byte.
    pub fn new(alloc: A, step: usize) -> ScriptedWriter<A>
        ensures taken { result.taken.items ≡ [] }
        ensures step { result.step ≡ step }
        ensures goes_well { (result.fault ≡ None) × (result.flush_failure ≡ None) }
        ensures uncalled { (result.calls ≡ 0) × (result.flushes ≡ 0) }
    {
        ScriptedWriter {
            taken: Vec::new(alloc),
            step,
            fault: None,
            flush_failure: None,
            calls: 0,
            flushes: 0,
        }
    }

    /// The same writer, but its call `at` of `write`, counted from 0, goes wrong in this way.
    pub fn with_fault(mut self, at: u32, fault: WriteFault) -> ScriptedWriter<A>
        ensures { result ≡ record self { fault = Some (at, fault) } }
    {
        self.fault = Some((at, fault));
        self
    }

    /// The same writer, but each of its flushes fails with this kind of error.
    pub fn failing_flush(mut self, kind: io::ErrorKind) -> ScriptedWriter<A>
        ensures { result ≡ record self { flush_failure = Some kind } }
    {
        self.flush_failure = Some(kind);
        self
    }
}

impl<A: Allocator> Write for ScriptedWriter<A> {
    ghost contents = { λ w. Some w.taken.items };

    fn write(&mut self, buf: &[u8]) -> io::Result<usize> {
        let call = self.calls;
        self.calls = call.saturating_add(1);
        let step = match self.fault {
            Some((at, WriteFault::Fails(kind))) if at == call => return Err(io::Error::from(kind)),
            Some((at, WriteFault::Breaks(kind))) if at <= call => {
                return Err(io::Error::from(kind));
            }
            Some((at, WriteFault::TakesNothing)) if at == call => return Ok(0),
            Some((at, WriteFault::TakesOneByte)) if at == call => self.step.min(1),
            _ => self.step,
        };
        let n = buf.len().min(step);
        self.taken.extend_from_slice(&buf[..n])?;
        Ok(n)
    }

    fn flush(&mut self) -> io::Result<()> {
        self.flushes = self.flushes.saturating_add(1);
        match self.flush_failure {
            Some(kind) => Err(io::Error::from(kind)),
            None => Ok(()),
        }
    }
}
