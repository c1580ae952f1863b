//! The first fault of each input that begins with no list, set or map of items of one size, worked
//! out by hand. A source is where it was after each, at the start of the input and behind bytes
//! that it was advanced past.
use commonware_utils::codec::{Error, RangeCfg, Source};
use commonware_utils::views::{ListView, MapView, SetView};
use std::alloc::{AllocError, Global};

/// What an input is read as: items of this size, keys of it, or keys and values of these two.
#[derive(Clone, Copy)]
enum Form {
    List(usize),
    Set(usize),
    Map(usize, usize),
}

impl Form {
    /// The error that reading the form returns, or `None` where it is read.
    fn error(self, src: &mut Source<'_>, range: RangeCfg<usize>) -> Option<Error> {
        match self {
            Form::List(size) => ListView::read(src, size, range).err(),
            Form::Set(size) => SetView::read(src, size, range).err(),
            Form::Map(key_size, value_size) => {
                MapView::read(src, key_size, value_size, range).err()
            }
        }
    }
}

/// Whether the form is refused with the error, behind `before` bytes of the input, and the source
/// is where it was.
fn is_refused_behind(
    form: Form,
    range: RangeCfg<usize>,
    input: &[u8],
    before: usize,
    error: &Error,
) -> bool {
    let mut src = Source::new(input);
    src.advance(src.remaining().min(before));
    let (start, left) = (src.position(), src.remaining());
    form.error(&mut src, range).as_ref() == Some(error)
        && src.position() == start
        && src.remaining() == left
}

/// Whether the form is refused with the error at the start of the input, and behind three bytes.
fn is_refused(
    alloc: Global,
    form: Form,
    range: RangeCfg<usize>,
    input: &[u8],
    error: &Error,
) -> Result<bool, AllocError> {
    let mut behind = vec![in alloc; 1u8, 0, 0xff]?;
    behind.extend_from_slice(input)?;
    Ok(
        is_refused_behind(form, range, input, 0, error)
            && is_refused_behind(form, range, &behind, 3, error),
    )
}

/// Whether each input is refused in a range with the error beside it.
fn are_refused(
    alloc: Global,
    range: RangeCfg<usize>,
    rows: &[(Form, &[u8], Error)],
) -> Result<bool, AllocError> {
    for (form, input, error) in rows {
        if !is_refused(alloc, *form, range, input, error)? {
            return Ok(false);
        }
    }
    Ok(true)
}

/// The fault of keys that aren't strictly increasing.
const UNSORTED: Error = Error::Invalid("Set", "items must be sorted and unique");

#[test]
fn lengths_are_refused(rt: HostRuntime) {
    let rows = [
        // The varint ends too soon, is overlong, or is above 4294967295.
        (Form::List(2), b"\x80".as_slice(), Error::EndOfBuffer),
        (Form::Map(2, 1), b"", Error::EndOfBuffer),
        (Form::Set(2), b"\x82\x00\x01\x01", Error::InvalidVarint),
        (Form::List(0), b"\xff\xff\xff\xff\x10", Error::InvalidVarint),
        // The length is out of the range, which is looked at before the bytes that are left.
        (Form::Set(2), b"\x00", Error::InvalidLength(0)),
        (Form::List(2), b"\x04", Error::InvalidLength(4)),
        (Form::Map(1, 1), b"\x04\x01", Error::InvalidLength(4)),
        (Form::List(0), b"\x80\x01", Error::InvalidLength(128)),
    ];
    assert!(rt; are_refused(rt.alloc(), RangeCfg::from(1..=3), &rows) == Ok(true));
}

#[test]
fn items_and_values_are_refused(rt: HostRuntime) {
    let rows = [
        (
            Form::List(2),
            b"\x02\xaa\xbb\xcc".as_slice(),
            Error::EndOfBuffer,
        ),
        // No number of the type `usize` is as great as these sizes together.
        (Form::List(usize::MAX), b"\x02\xaa", Error::EndOfBuffer),
        // The end comes before the order of the keys, and this before the values.
        (Form::Set(1), b"\x03\x02\x01", Error::EndOfBuffer),
        (Form::Set(1), b"\x03\x01\x02\x02", UNSORTED),
        (Form::Set(2), b"\x02\xaa\xbc\xaa\xbb", UNSORTED),
        (Form::Map(1, 2), b"\x02\x02\x01", UNSORTED),
        // Of keys of no bytes any two are equal.
        (Form::Set(0), b"\x02", UNSORTED),
        // Of a map the values are missing, in whole or in part.
        (Form::Map(1, 2), b"\x01\x07", Error::EndOfBuffer),
        (Form::Map(1, 2), b"\x01\x07\x01\xaa", Error::EndOfBuffer),
        // A map states again how many values there are, and this is looked at before their bytes.
        (Form::Map(1, 2), b"\x01\xaa\x02", Error::InvalidLength(2)),
        (Form::Map(1, 2), b"\x01\x07\x81\x00", Error::InvalidVarint),
    ];
    assert!(rt; are_refused(rt.alloc(), RangeCfg::from(..), &rows) == Ok(true));
}

/// A list, a set and a map are read from one source, one after another.
#[test]
fn what_follows_is_left(rt: HostRuntime) {
    let input = b"\x02\x01\x02\x01\x05\x02\x01\x02\x02\x0a\x0b\x02\x03\x01";
    let mut src = Source::new(input);
    let list = ListView::read(&mut src, 1, RangeCfg::from(..)).expect(&rt, "a list");
    assert!(rt; list.as_bytes() == b"\x01\x02".as_slice() && src.position() == 3);
    let set = SetView::read(&mut src, 1, RangeCfg::from(..)).expect(&rt, "a set");
    assert!(rt; set.as_bytes() == b"\x05".as_slice() && src.position() == 5);
    let map = MapView::read(&mut src, 1, 1, RangeCfg::exact(2)).expect(&rt, "a map");
    assert!(rt;
        map.keys().as_bytes() == b"\x01\x02".as_slice()
            && map.values().as_bytes() == b"\x0a\x0b".as_slice()
    );
    assert!(rt; src.position() == 11 && src.rest() == b"\x02\x03\x01".as_slice());
    let refused = SetView::read(&mut src, 1, RangeCfg::from(..)).err();
    assert!(rt; refused == Some(UNSORTED) && src.position() == 11);
    let last = ListView::read(&mut src, 1, RangeCfg::from(..)).expect(&rt, "a list");
    assert!(rt; last.as_bytes() == b"\x03\x01".as_slice() && src.remaining() == 0);
    assert!(rt; list.get(1) == Some(b"\x02".as_slice()) && set.contains(b"\x05"));
}
