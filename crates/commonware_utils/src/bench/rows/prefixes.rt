//! Inputs that are accepted, and each of their prefixes, which are truncated.
use crate::Participant;
use crate::bench::{read, refuses};
use crate::codec::{Error, RangeCfg, Read};
use crate::ordered::{BiMap, Map, Set};
use crate::vec::NonEmptyVec;
use std::alloc::Allocator;

/// Whether the input is accepted and taken to its end, and each shorter prefix is truncated, with
/// the source where it was.
fn has_no_shorter_encoding<T: Read<A> + Drop, A: Allocator + Copy>(
    alloc: A,
    cfg: &T::Cfg,
    text: &[u8],
) -> bool {
    for len in 0..text.len() {
        let (beginning, _) = text.split_at(len);
        if !refuses::<T, A>(alloc, cfg, &[(beginning, Error::EndOfBuffer)]) {
            return false;
        }
    }
    let (result, taken) = read::<T, A>(alloc, text, cfg);
    result.is_ok() && taken == text.len()
}

#[test]
fn numbers_and_lists_have_no_shorter_encoding(rt: HostRuntime) {
    let (alloc, any) = (rt.alloc(), RangeCfg::from(..));
    assert!(rt;
        has_no_shorter_encoding::<u32, _>(alloc, &(), b"\x00\x00\x01\x02")
            && has_no_shorter_encoding::<usize, _>(alloc, &any, b"\xac\x02")
    );
    let any = (RangeCfg::from(..), ());
    let full = (RangeCfg::from(..), ());
    let maps = (RangeCfg::from(..), (RangeCfg::from(..), (), ()));
    assert!(rt;
        has_no_shorter_encoding::<Vec<u8>, _>(alloc, &any, b"\x04\x01\x03\x02\x04")
            && has_no_shorter_encoding::<NonEmptyVec<u8, _>, _>(alloc, &full, b"\x03\x01\x02\x03")
            && has_no_shorter_encoding::<Vec<Map<u8, u8, _>>, _>(
                alloc,
                &maps,
                b"\x02\x00\x00\x01\x05\x01\x06"
            )
    );
}

#[test]
fn sets_and_maps_have_no_shorter_encoding(rt: HostRuntime) {
    let alloc = rt.alloc();
    let any = (RangeCfg::from(..), ());
    let lists = (RangeCfg::from(..), (RangeCfg::from(..), ()));
    let words = b"\x02\x00\x00\x00\x01\x00\x00\x01\x00";
    let nest = b"\x02\x01\x01\x02\x01\x01";
    assert!(rt;
        has_no_shorter_encoding::<Set<u32, _>, _>(alloc, &any, words)
            && has_no_shorter_encoding::<Set<Participant, _>, _>(alloc, &any, b"\x02\x01\xac\x02")
            && has_no_shorter_encoding::<Set<NonEmptyVec<u8, _>, _>, _>(alloc, &lists, nest)
    );
    let any = (RangeCfg::from(..), (), ());
    let four = b"\x04\x01\x02\x03\x04\x04\x0a\x14\x1e\x28";
    let two = b"\x02\x01\x02\x02\x14\x0a";
    assert!(rt;
        has_no_shorter_encoding::<Map<u8, u8, _>, _>(alloc, &any, four)
            && has_no_shorter_encoding::<BiMap<u8, u8, _>, _>(alloc, &any, two)
    );
}
