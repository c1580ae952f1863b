//! The unions of bytes with each allocation failing in turn.
use commonware_utils::{union, union_unique};
use test_equipment::walk::{Heap, Outcome, Refusable, full, makes_requests, refused};

/// A union of 1, 2, 3 and 4, 5, 6, with the length of the first ones before them or without.
#[derive(Drop)]
struct Union {
    counted: bool,
    whole: &'static [u8],
}

static UNIONS: [Union; 2] = [
    Union {
        counted: false,
        whole: b"\x01\x02\x03\x04\x05\x06",
    },
    Union {
        counted: true,
        whole: b"\x03\x01\x02\x03\x04\x05\x06",
    },
];

impl Refusable for Union {
    fn outcome<H: Heap>(&self, heap: H, granted: u64) -> Outcome {
        let (front, back) = (b"\x01\x02\x03", b"\x04\x05\x06");
        heap.restart(granted);
        let text = if self.counted {
            union_unique(heap, front, back)
        } else {
            union(heap, front, back)
        };
        match text {
            Ok(text) => full(text.as_slice() == self.whole),
            Err(_) => refused(true),
        }
    }
}

#[test]
fn a_refused_union_gives_nothing(rt: HostRuntime) {
    for union in &UNIONS {
        assert!(rt; makes_requests(rt.alloc(), union, 1), "{}", union.counted);
    }
}
