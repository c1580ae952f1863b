//! Whoever sends the judge a line and waits has its answer: at each read, the answers to all lines
//! that came whole are written and flushed.

use judge_core::session;
use program_io::Watched;
use std::cell::Cell;
use std::io;
use std::io::{Read, Write};

/// What has gone between the two sides, in line feeds.
#[derive(Drop)]
struct Dialogue {
    asked: Cell<usize>,
    written: Cell<usize>,
    flushed: Cell<usize>,
    /// Whether a read came before an answer to a line that had been asked.
    late: Cell<bool>,
}

impl Dialogue {
    /// Nothing yet.
    fn new() -> Dialogue {
        Dialogue {
            asked: Cell::new(0),
            written: Cell::new(0),
            flushed: Cell::new(0),
            late: Cell::new(false),
        }
    }
}

/// How many line feeds there are.
fn feeds(bytes: &[u8]) -> usize {
    bytes.iter().filter(|byte| **byte == b'\n').count()
}

/// Gives a piece a call, and looks first at what was answered.
#[derive(Drop)]
struct Asking<'a> {
    pieces: &'a [&'static str],
    /// How many of them were given.
    given: usize,
    dialogue: &'a Dialogue,
}

impl<'a> Read for Asking<'a> {
    ghost use Rattle.std.specs.Prelude.{None};

    ghost remaining = { λ _. None };

    fn read(&mut self, buf: &mut [u8]) -> io::Result<usize> {
        let dialogue = self.dialogue;
        if dialogue.flushed.get() != dialogue.asked.get() {
            dialogue.late.set(true);
        }
        let Some(piece) = self.pieces.get(self.given) else {
            return Ok(0);
        };
        let bytes = piece.as_bytes();
        let n = bytes.len().min(buf.len());
        buf[..n].copy_from_slice(&bytes[..n]);
        self.given = self.given.saturating_add(1);
        dialogue
            .asked
            .set(dialogue.asked.get().saturating_add(feeds(&bytes[..n])));
        Ok(n)
    }
}

/// Takes all bytes.
#[derive(Drop)]
struct Hearing<'a> {
    dialogue: &'a Dialogue,
}

impl<'a> Write for Hearing<'a> {
    ghost use Rattle.std.specs.Prelude.{None};

    ghost contents = { λ _. None };

    fn write(&mut self, buf: &[u8]) -> io::Result<usize> {
        let written = &self.dialogue.written;
        written.set(written.get().saturating_add(feeds(buf)));
        Ok(buf.len())
    }

    fn flush(&mut self) -> io::Result<()> {
        self.dialogue.flushed.set(self.dialogue.written.get());
        Ok(())
    }
}

#[test]
fn a_line_is_answered_before_the_next_is_read(rt: HostRuntime) {
    let dialogue = Dialogue::new();
    let notes = Dialogue::new();
    let pieces = [
        "u8 07\n",
        "u8 0",
        "8\nfaults n3f1 7\n",
        "build set<u8> 020201\nu8 ",
        "09\n",
        "u9 00\n",
    ];
    let words = Vec::new(rt.alloc());
    let mut input = Watched::new(Asking {
        pieces: &pieces,
        given: 0,
        dialogue: &dialogue,
    });
    let mut output = Watched::new(Hearing {
        dialogue: &dialogue,
    });
    let mut errors = Hearing { dialogue: &notes };
    let status = session(rt.alloc(), &words, &mut input, &mut output, &mut errors);
    assert!(rt; status == 1);
    assert!(rt; !dialogue.late.get());
    assert!(rt; (dialogue.asked.get(), dialogue.flushed.get()) == (6, 6));
    assert!(rt; notes.written.get() == 1);
}
