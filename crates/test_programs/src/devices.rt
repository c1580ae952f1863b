//! What a reader gives and what a writer does, in the tests of the program.
use committee_core::Watched;
use std::alloc::Global;
use std::io::ErrorKind;
use test_equipment::{ReadFault, ScriptedReader, ScriptedWriter, WriteFault};

/// More than any report of these tests has bytes, and than any input has.
pub const WHOLE: usize = 100_000;

/// What a reader gives.
#[derive(Clone, Copy)]
pub struct Input<'a> {
    pub bytes: &'a [u8],
    /// How many bytes it gives a call.
    pub step: usize,
    /// How each call fails that comes after the bytes, if it does.
    pub failure: Option<ErrorKind>,
    /// The call that goes wrong, counted from 0, and how.
    pub fault: Option<(u32, ReadFault)>,
}

impl<'a> Input<'a> {
    /// The bytes, all at once, and then the end.
    pub fn of(bytes: &'a [u8]) -> Input<'a> {
        Input {
            bytes,
            step: WHOLE,
            failure: None,
            fault: None,
        }
    }

    /// The bytes, one a call, and then failures.
    pub fn failing(bytes: &'a [u8], kind: ErrorKind) -> Input<'a> {
        Input {
            bytes,
            step: 1,
            failure: Some(kind),
            fault: None,
        }
    }

    /// A reader that gives this.
    pub fn reader(&self) -> Watched<ScriptedReader<'a>> {
        let mut device = ScriptedReader::new(self.bytes, self.step);
        if let Some((at, way)) = self.fault {
            device = device.with_fault(at, way);
        }
        Watched::new(match self.failure {
            Some(kind) => device.failing(kind),
            None => device,
        })
    }
}

/// What a writer does.
#[derive(Clone, Copy)]
pub struct Output {
    /// How many bytes it takes a call.
    pub step: usize,
    /// The call that goes wrong, counted from 0, and how.
    pub fault: Option<(u32, WriteFault)>,
    /// How a flush fails, if it does.
    pub flush_failure: Option<ErrorKind>,
}

/// All bytes are taken at once.
pub const TAKEN: Output = Output {
    step: WHOLE,
    fault: None,
    flush_failure: None,
};

impl Output {
    /// At most this number of bytes are taken a call, but one call goes wrong, or each from it on.
    pub fn failing(step: usize, at: u32, fault: WriteFault) -> Output {
        Output {
            step,
            fault: Some((at, fault)),
            flush_failure: None,
        }
    }

    /// A writer that does this.
    pub fn writer(&self, alloc: Global) -> ScriptedWriter<Global> {
        let mut device = ScriptedWriter::new(alloc, self.step);
        if let Some((at, fault)) = self.fault {
            device = device.with_fault(at, fault);
        }
        match self.flush_failure {
            Some(kind) => device.failing_flush(kind),
            None => device,
        }
    }
}
