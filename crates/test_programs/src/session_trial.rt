//! A session over scripted devices, and whether it does what it has to.
use crate::committees::{TWO, TWO_REPORT};
use crate::devices::{Input, Output, TAKEN};
use committee_core::{Watched, session};
use std::alloc::{AllocError, Global};
use test_equipment::walk::Heap;
use test_equipment::{Refusing, ScriptedReader, ScriptedWriter};

/// A session, and what has to become of it.
#[derive(Clone, Copy)]
pub struct Session<'a> {
    pub words: &'a [&'a str],
    pub input: Input<'a>,
    pub output: Output,
    pub errors: Output,
    /// How many allocations succeed before one fails.
    pub granted: u64,
    pub status: u8,
    /// What is written, where that is one text.
    pub written: Option<&'a str>,
    /// What is said on standard error.
    pub said: &'a str,
}

/// The words that ask for the report on a committee.
pub const READ: &[&str] = &["read"];

/// A session that reads bytes and writes a report.
pub fn read_session<'a>(bytes: &'a [u8], report: &'a str) -> Session<'a> {
    let input = Input::of(bytes);
    Session {
        words: READ,
        input,
        output: TAKEN,
        errors: TAKEN,
        granted: u64::MAX,
        status: 0,
        written: Some(report),
        said: "",
    }
}

/// The session that reports on the committee of two.
pub fn two_session() -> Session<'static> {
    read_session(TWO, TWO_REPORT)
}

/// The words, as the program gets them.
pub fn words_of<H: Heap>(heap: H, words: &[&str]) -> Result<Vec<String<H>, H>, AllocError> {
    let mut strings = Vec::new(heap);
    for word in words {
        strings.push(String::from_str(heap, word)?)?;
    }
    Ok(strings)
}

/// The program's name and then the words, as the program gets them.
pub fn arguments_of<H: Heap>(heap: H, words: &[&str]) -> Result<Vec<String<H>, H>, AllocError> {
    let mut strings = words_of(heap, &["committee"])?;
    for word in words {
        strings.push(String::from_str(heap, word)?)?;
    }
    Ok(strings)
}

/// Whether the reader is called for the word `read` alone, and the writer has taken what it has to
/// and isn't called where nothing is to be written.
fn are_right(
    input: &Watched<ScriptedReader<'_>>,
    output: &Watched<ScriptedWriter<Global>>,
    wanted: &Session<'_>,
) -> bool {
    let device = output.inner();
    let written = match wanted.written {
        Some(text) => {
            let silent = !text.is_empty() || (device.calls, device.flushes) == (0, 0);
            silent && device.taken.as_slice() == text.as_bytes()
        }
        None => true,
    };
    (wanted.words == READ || input.inner().calls == 0)
        && output.failed() == wanted.written.is_none()
        && written
}

/// Whether the status is the expected one, and standard error has taken what is said, and isn't
/// called again where it failed.
fn is_told(status: u8, errors: &ScriptedWriter<Global>, wanted: &Session<'_>) -> bool {
    status == wanted.status
        && (wanted.errors.fault.is_none() || errors.calls == (status > 0) as u32)
        && errors.taken.as_slice() == wanted.said.as_bytes()
}

/// Whether the session does what it has to.
pub fn is_right(alloc: Global, wanted: &Session<'_>) -> Result<bool, AllocError> {
    let heap = Refusing::after(alloc, u64::MAX);
    let words = words_of(&heap, wanted.words)?;
    let mut input = wanted.input.reader();
    let mut output = Watched::new(wanted.output.writer(alloc));
    let mut errors = wanted.errors.writer(alloc);
    heap.restart(wanted.granted);
    let status = session(&heap, &words, &mut input, &mut output, &mut errors);
    Ok(is_told(status, &errors, wanted) && are_right(&input, &output, wanted))
}
