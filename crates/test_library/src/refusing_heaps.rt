//! The heap of these tests: which requests it refuses, and that it says so.
use std::alloc::Global;
use test_equipment::Refusing;
use test_equipment::walk::Heap;

/// Whether room for `count` bytes is granted.
fn grants<H: Heap>(heap: H, count: usize) -> bool {
    let bytes: Result<Vec<u8, H>, _> = Vec::with_capacity(heap, count);
    bytes.is_ok()
}

#[test]
fn later_requests_are_granted_again(rt: HostRuntime) {
    let heap = Refusing::after(rt.alloc(), 1);
    let mut items: Vec<u32, &Refusing<Global>> = Vec::new(&heap);
    assert!(rt; items.push(1).is_ok() && !heap.has_refused());
    assert!(rt; items.reserve(100).is_err() && heap.has_refused() && items.reserve(100).is_ok());
    heap.restart(0);
    assert!(rt; !heap.has_refused());
}

#[test]
fn all_later_requests_are_refused(rt: HostRuntime) {
    let heap = Refusing::all_after(rt.alloc(), 1);
    for granted in &[true, false, false, false] {
        assert!(rt; grants(&heap, 4) == *granted && heap.has_refused() != *granted);
    }
    heap.relent();
    assert!(rt; grants(&heap, 4) && heap.has_refused());
}

/// Sizes in bytes, and whether they are granted where 64 are the most.
static LARGE: [(usize, bool); 5] = [(64, true), (65, false), (1, true), (65, false), (64, true)];

/// Whether room for 16 words of four bytes is granted, and room for 17 isn't.
fn grants_words<H: Heap>(heap: H) -> bool {
    let mut words: Vec<u32, H> = Vec::new(heap);
    words.reserve(16).is_ok() && words.reserve(17).is_err()
}

#[test]
fn large_requests_are_refused_each_time(rt: HostRuntime) {
    let heap = Refusing::above(rt.alloc(), 64);
    for (items, granted) in &LARGE {
        heap.restart(u64::MAX);
        assert!(rt;
            grants(&heap, *items) == *granted && heap.has_refused() != *granted,
            "{items}"
        );
    }
    assert!(rt; grants_words(&heap));
}
