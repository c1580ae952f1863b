//! Lists of items.
use crate::bench::{is_coded_as, is_written_as, read};
use crate::codec::{Error, RangeCfg, Source, list_fault_law, read_list};
use std::alloc::Global;
use std::process::Abort;

#[test]
fn lists_are_written_and_read(rt: HostRuntime) {
    let alloc = rt.alloc();
    let any = RangeCfg::from(..);
    list_fault_law::<u8, _>(alloc, any, &());
    let list = vec![in alloc; 1u8, 3, 2, 4].expect(&rt, "memory");
    let bytes = b"\x04\x01\x03\x02\x04";
    assert!(rt; is_coded_as(alloc, &list, &(any, ()), bytes));
}

#[test]
fn lists_nest(rt: HostRuntime) {
    let alloc = rt.alloc();
    let any = RangeCfg::from(..);
    let bytes = b"\x02\x01\x02\x08\x09\x00\x05";
    let (lists, taken) = read::<Vec<Vec<Vec<u8>>>, _>(alloc, bytes, &(any, (any, (any, ()))));
    let lists = lists.expect(&rt, "a value");
    assert!(rt;
        lists.len() == 2 && taken == 6 && is_written_as(alloc, &lists, b"\x02\x01\x02\x08\x09\x00")
    );
}

/// Whether a list is refused, as it has three items, and nothing of the five bytes is taken.
fn is_refused(alloc: Global, src: &mut Source<'_>) -> bool {
    let refused = read_list::<u8, _>(alloc, src, RangeCfg::from(..=2), &());
    refused.err() == Some(Error::InvalidLength(3)) && src.position() == 0 && src.remaining() == 5
}

/// Whether the list is 7, 8 and 9, and one byte is left after it.
fn is_read(rt: &impl Abort, alloc: Global, src: &mut Source<'_>) -> bool {
    let list = read_list::<u8, _>(alloc, src, RangeCfg::from(..=3), &()).expect(rt, "memory");
    if list.as_slice() != [7, 8, 9].as_slice() || src.rest() != b"\xff".as_slice() {
        return false;
    }
    src.advance(1);
    src.remaining() == 0
}

#[test]
fn a_list_is_read_under_its_range(rt: HostRuntime) {
    let mut src = Source::new(b"\x03\x07\x08\x09\xff");
    assert!(rt; is_refused(rt.alloc(), &mut src) && is_read(&rt, rt.alloc(), &mut src));
}
