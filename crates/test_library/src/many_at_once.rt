//! Bytes, words of four bytes and keys of 32, of which many are written and read at once: more of
//! them than any list has room for at first, with each allocation failing in turn, and inputs that
//! end before the last of them. And some of them written after 0 to 100 bytes.
use crate::readings::{are_after, full_sink, outcome, read_refused, read_whole};
use crate::refused_codec::{ACTS, Act, Trial};
use commonware_sequence::FixedBytes;
use commonware_utils::codec::{EncodeSize, Error, RangeCfg, Read, Source, Write};
use commonware_utils::ordered::Set;
use std::alloc::{AllocError, Global};
use std::process::Abort;
use test_equipment::Refusing;
use test_equipment::walk::{Heap, Outcome, Refusable, full, makes_requests, refused, requests};

/// A key, as a committee has.
type Key = FixedBytes<32>;

/// How many items there are.
pub(super) const MANY: u32 = 5000;

/// The bytes of the length 5,000, which is 39 · 128 + 8.
static LENGTH: [u8; 2] = [0x88, 0x27];

/// Items, the bytes of all of them, and the bytes of the list of them.
#[derive(Drop)]
pub(super) struct Row<T> {
    items: Vec<T>,
    bytes: Vec<u8>,
    list: Vec<u8>,
}

impl<T: Drop> Row<T> {
    /// No items, with the length of many.
    pub(super) fn new(alloc: Global) -> Result<Self, AllocError> {
        Ok(Row {
            items: Vec::new(alloc),
            bytes: Vec::new(alloc),
            list: LENGTH.to_vec(alloc)?,
        })
    }

    /// Appends an item, which has these bytes.
    pub(super) fn push(&mut self, item: T, bytes: &[u8]) -> Result<(), AllocError> {
        self.items.push(item)?;
        self.bytes.extend_from_slice(bytes)?;
        self.list.extend_from_slice(bytes)
    }
}

/// The two lowest bytes of a number, the higher one first.
pub(super) fn lowest(number: u32) -> [u8; 2] {
    [(number / 256 % 256) as u8, (number % 256) as u8]
}

/// Many bytes.
fn bytes(rt: &impl Abort, alloc: Global) -> Row<u8> {
    let mut row = Row::new(alloc).expect(rt, "memory");
    for number in 0..MANY {
        let [_, byte] = lowest(number);
        row.push(byte, &[byte]).expect(rt, "memory");
    }
    row
}

/// Many words, each greater than the one before.
fn words(rt: &impl Abort, alloc: Global) -> Row<u32> {
    let mut row = Row::new(alloc).expect(rt, "memory");
    for number in 0..MANY {
        let [higher, lower] = lowest(number);
        let word = 0x0506_0000 + number;
        row.push(word, &[5, 6, higher, lower]).expect(rt, "memory");
    }
    row
}

/// Many keys, each greater than the one before by its last two bytes.
fn keys(rt: &impl Abort, alloc: Global) -> Row<Key> {
    let mut row = Row::new(alloc).expect(rt, "memory");
    for number in 0..MANY {
        let mut bytes = [0x11u8; 32];
        let [higher, lower] = lowest(number);
        bytes[30] = higher;
        bytes[31] = lower;
        row.push(Key::new(bytes), &bytes).expect(rt, "memory");
    }
    row
}

/// Many items of each type.
#[derive(Drop)]
struct Rows {
    bytes: Row<u8>,
    words: Row<u32>,
    keys: Row<Key>,
}

/// Many items of each type.
fn many_of_each(rt: &impl Abort, alloc: Global) -> Rows {
    Rows {
        bytes: bytes(rt, alloc),
        words: words(rt, alloc),
        keys: keys(rt, alloc),
    }
}

/// A type of items.
#[derive(Clone, Copy)]
enum Kind {
    Byte,
    Word,
    Key,
}

static KINDS: [Kind; 3] = [Kind::Byte, Kind::Word, Kind::Key];

/// The items of a type written at once, or read.
#[derive(Drop)]
struct AtOnce<'a> {
    rows: &'a Rows,
    kind: Kind,
    is_write: bool,
}

impl<'r> Refusable for AtOnce<'r> {
    fn outcome<H: Heap>(&self, heap: H, granted: u64) -> Outcome {
        let rows = self.rows;
        match (self.kind, self.is_write) {
            (Kind::Byte, true) => written(heap, granted, &rows.bytes),
            (Kind::Word, true) => written(heap, granted, &rows.words),
            (Kind::Key, true) => written(heap, granted, &rows.keys),
            (Kind::Byte, false) => read(heap, granted, &rows.bytes, &()),
            (Kind::Word, false) => read(heap, granted, &rows.words, &()),
            (Kind::Key, false) => read(heap, granted, &rows.keys, &()),
        }
    }
}

/// The items written at once after three bytes, which a refusal leaves as they were.
pub(super) fn written<H: Heap, T: Write<H>>(heap: H, granted: u64, row: &Row<T>) -> Outcome {
    match full_sink(heap, 3) {
        Ok(mut sink) => written_after(heap, granted, row, &mut sink),
        Err(_) => Outcome::Wrong,
    }
}

/// The items written at once into this sink, of three bytes.
fn written_after<H: Heap, T: Write<H>>(
    heap: H,
    granted: u64,
    row: &Row<T>,
    sink: &mut Vec<u8, H>,
) -> Outcome {
    if !row.items.is_writable() {
        return Outcome::Wrong;
    }
    heap.restart(granted);
    match T::write_at_once(row.items.as_slice(), sink) {
        Some(Ok(())) => full(are_after(sink, 3, &row.bytes)),
        Some(Err(_)) => refused(are_after(sink, 3, b"")),
        None => Outcome::Wrong,
    }
}

/// The items read at once from a source, which a refusal leaves as it was.
pub(super) fn read<H: Heap, T: Read<H> + Eq + Drop>(
    heap: H,
    granted: u64,
    row: &Row<T>,
    cfg: &T::Cfg,
) -> Outcome {
    let mut src = Source::new(&row.bytes);
    heap.restart(granted);
    match T::read_at_once(heap, &mut src, row.items.len(), cfg) {
        Some(Ok(items)) => read_whole(items.as_slice() == row.items.as_slice(), &src),
        Some(Err(error)) => read_refused(error, &src),
        None => Outcome::Wrong,
    }
}

/// Many items are written, and read, with one request.
#[test]
fn many_take_one_request(rt: HostRuntime) {
    let rows = many_of_each(&rt, rt.alloc());
    for kind in &KINDS {
        for is_write in [true, false] {
            let call = AtOnce {
                rows: &rows,
                kind: *kind,
                is_write,
            };
            assert!(rt; requests(rt.alloc(), &call) == Some(1));
        }
    }
}

/// Whether the items are written at once as these bytes, into a sink of `held` bytes.
fn are_appended<T: Write<Global>>(
    alloc: Global,
    items: &Vec<T>,
    bytes: &[u8],
    held: usize,
) -> Result<bool, AllocError> {
    let mut sink = full_sink(alloc, held)?;
    if !items.is_writable() {
        return Ok(false);
    }
    match T::write_at_once(items.as_slice(), &mut sink) {
        Some(written) => written.map(|()| are_after(&sink, held, bytes)),
        None => Ok(false),
    }
}

/// Whether the first items of a row are written at once, `count` of `size` bytes each, into a sink
/// of 0 to 100 bytes.
pub(super) fn are_appended_to_each<T: Write<Global> + Copy + Drop>(
    alloc: Global,
    row: &Row<T>,
    count: usize,
    size: usize,
) -> Result<bool, AllocError> {
    let items = Vec::from_slice(alloc, &row.items[..count.min(row.items.len())])?;
    let bytes = &row.bytes[..count.saturating_mul(size).min(row.bytes.len())];
    for held in 0..=100 {
        if !are_appended(alloc, &items, bytes, held)? {
            return Ok(false);
        }
    }
    Ok(true)
}

#[test]
fn many_are_written_after_others(rt: HostRuntime) {
    let alloc = rt.alloc();
    let rows = many_of_each(&rt, alloc);
    for count in [0, 1, 2, 3, 31, 32, 33, 256, 300, MANY as usize] {
        let bytes = are_appended_to_each(alloc, &rows.bytes, count, 1);
        let words = are_appended_to_each(alloc, &rows.words, count, 4);
        let keys = are_appended_to_each(alloc, &rows.keys, count, 32);
        assert!(rt; [bytes, words, keys] == [Ok(true); 3], "{count}");
    }
}

/// What holds the items.
#[derive(Clone, Copy)]
enum Form {
    Bytes,
    Words,
    Keys,
    WordSet,
    KeySet,
}

static FORMS: [Form; 5] = [
    Form::Bytes,
    Form::Words,
    Form::Keys,
    Form::WordSet,
    Form::KeySet,
];

/// An act on a list or a set of many.
#[derive(Drop)]
struct Listed<'a> {
    rows: &'a Rows,
    form: Form,
    act: Act,
}

impl<'r> Refusable for Listed<'r> {
    fn outcome<H: Heap>(&self, heap: H, granted: u64) -> Outcome {
        self.form
            .tried(self.rows, &Trial::new(self.act, heap, granted))
    }
}

impl Form {
    /// What the trial returns on the form's list of many.
    fn tried<H: Heap>(self, rows: &Rows, trial: &Trial<H>) -> Outcome {
        let limits = (RangeCfg::from(..), ());
        match self {
            Form::Bytes => trial.on::<Vec<u8, _>>(&rows.bytes.list, &limits),
            Form::Words => trial.on::<Vec<u32, _>>(&rows.words.list, &limits),
            Form::Keys => trial.on::<Vec<Key, _>>(&rows.keys.list, &limits),
            Form::WordSet => trial.on::<Set<u32, _>>(&rows.words.list, &limits),
            Form::KeySet => trial.on::<Set<Key, _>>(&rows.keys.list, &limits),
        }
    }
}

/// Lists and sets of many are written, read and cloned with each allocation failing in turn.
#[test]
fn lists_of_many_require_little(rt: HostRuntime) {
    let rows = many_of_each(&rt, rt.alloc());
    for form in &FORMS {
        for act in &ACTS {
            let call = Listed {
                rows: &rows,
                form: *form,
                act: *act,
            };
            assert!(rt; makes_requests(rt.alloc(), &call, 1));
        }
    }
}

impl Form {
    /// The bytes of the list of many that the form is read from.
    fn list<'a>(self, rows: &'a Rows) -> &'a [u8] {
        match self {
            Form::Bytes => &rows.bytes.list,
            Form::Words | Form::WordSet => &rows.words.list,
            Form::Keys | Form::KeySet => &rows.keys.list,
        }
    }

    /// What reading the form from the bytes returns.
    fn read<H: Heap>(self, heap: H, bytes: &[u8]) -> (Option<Error>, usize) {
        let limits = (RangeCfg::from(..), ());
        match self {
            Form::Bytes => outcome::<Vec<u8, _>, _>(heap, bytes, &limits),
            Form::Words => outcome::<Vec<u32, _>, _>(heap, bytes, &limits),
            Form::Keys => outcome::<Vec<Key, _>, _>(heap, bytes, &limits),
            Form::WordSet => outcome::<Set<u32, _>, _>(heap, bytes, &limits),
            Form::KeySet => outcome::<Set<Key, _>, _>(heap, bytes, &limits),
        }
    }
}

/// Whether each proper prefix of the input ends too soon, and allocates nothing.
fn is_cut_everywhere(alloc: Global, form: Form, list: &[u8]) -> bool {
    let heap = Refusing::all_after(alloc, 0);
    for length in 0..list.len() {
        if form.read(&heap, &list[..length]) != (Some(Error::EndOfBuffer), 0) {
            return false;
        }
    }
    !heap.has_refused()
}

/// An input that ends too soon is refused without an allocation, wherever it ends.
#[test]
fn a_truncated_input_requires_no_memory(rt: HostRuntime) {
    let rows = many_of_each(&rt, rt.alloc());
    for form in &FORMS {
        assert!(rt; is_cut_everywhere(rt.alloc(), *form, form.list(&rows)));
    }
}

/// Whether nothing is done at once with items of a type that has no bodies of its own for it.
fn is_left<H: Heap>(heap: H, items: &Vec<usize>) -> bool {
    let mut sink: Vec<u8, H> = Vec::new(heap);
    let mut src = Source::new(b"\x01\x02");
    if !items.is_writable() {
        return false;
    }
    let written = <usize as Write<H>>::write_at_once(items.as_slice(), &mut sink);
    let read = <usize as Read<H>>::read_at_once(heap, &mut src, 2, &RangeCfg::from(..));
    written.is_none() && read.is_none() && sink.is_empty() && src.position() == 0
}

#[test]
fn numbers_are_written_and_read_one_by_one(rt: HostRuntime) {
    let heap = Refusing::all_after(rt.alloc(), 0);
    let items = vec![in rt.alloc(); 1usize, 2].expect(&rt, "memory");
    assert!(rt; is_left(&heap, &items) && !heap.has_refused());
}
