//! An allocator that refuses one request, all from one on, or each one that is too large: each
//! refusal is an allocation failure for its caller.

use std::alloc::{AllocError, Allocator};
use std::cell::Cell;

/// Passes every request on to another allocator, but refuses one of them, or all from one on, or
/// each one for more than a number of bytes.
///
/// Of `Refusing::all_after(alloc, 1)` the first request is granted, and every later one refused.
///
/// A call of `grow` or `shrink` counts as a request too, since it allocates a new block: one for
/// all the bytes of that. A test passes it as `&Refusing<B>`, which is an allocator as well, and
/// `Copy`.
#[derive(Drop)]
pub struct Refusing<B: Allocator> {
    inner: B,
    refusals: Refusals,
}

/// Which requests are refused.
#[derive(Drop)]
struct Refusals {
    /// The most bytes that a request may be for.
    most: usize,
    /// Whether those after the first refused one are refused as well.
    lasting: bool,
    /// How many requests are granted before that.
    granted: Cell<u64>,
    /// Whether a request has been refused.
    refused: Cell<bool>,
}

impl Refusals {
    /// Grants the first `granted` requests that are for at most `most` bytes.
    fn new(most: usize, lasting: bool, granted: u64) -> Refusals {
        Refusals {
            most,
            lasting,
            granted: Cell::new(granted),
            refused: Cell::new(false),
        }
    }
}

impl<B: Allocator> Refusing<B> {
    /// Returns an allocator over `inner` that grants `granted` requests and refuses the next one
    /// alone: it grants the later ones again.
    ///
    /// With `u64::MAX` it refuses none that a program can reach.
    pub fn after(inner: B, granted: u64) -> Refusing<B> {
        Refusing {
            inner,
            refusals: Refusals::new(usize::MAX, false, granted),
        }
    }

    /// Returns an allocator over `inner` that grants `granted` requests and refuses all later ones.
    pub fn all_after(inner: B, granted: u64) -> Refusing<B> {
        Refusing {
            inner,
            refusals: Refusals::new(usize::MAX, true, granted),
        }
    }

    /// Returns an allocator over `inner` that refuses each request for more than `most` bytes, and
    /// grants all others.
    pub fn above(inner: B, most: usize) -> Refusing<B> {
        Refusing {
            inner,
            refusals: Refusals::new(most, false, u64::MAX),
        }
    }

    /// From now on it grants `granted` requests, and refuses as it did at first, whatever came
    /// before. Those that are too large for it stay refused.
    pub fn restart(&self, granted: u64) {
        self.refusals.granted.set(granted);
        self.refusals.refused.set(false);
    }

    /// From now on it grants all requests, but those that are too large for it. Whether it has
    /// refused one stays.
    pub fn relent(&self) {
        self.refusals.granted.set(u64::MAX);
    }

    /// Whether a request has been refused, since the last restart if there was one.
    pub fn has_refused(&self) -> bool {
        self.refusals.refused.get()
    }
}

/// Counts a request for `size` bytes, and returns whether it is refused.
fn refuses(refusals: &Refusals, size: usize) -> bool {
    let granted = refusals.granted.get();
    refusals.granted.set(granted.saturating_sub(1));
    let comes_next = granted == 0 && (refusals.lasting || !refusals.refused.get());
    let refused = comes_next || size > refusals.most;
    if refused {
        refusals.refused.set(true);
    }
    refused
}

unsafe impl<B: Allocator> Allocator for Refusing<B> {
    ghost dealloc_token = { λ heap ty ptr. B.dealloc_token heap.inner ty ptr };

    fn allocate(&self, size: usize, align: usize) -> Result<*mut u8, AllocError> {
        if refuses(&self.refusals, size) {
            return Err(AllocError);
        }
        self.inner.allocate(size, align)
    }

    unsafe fn deallocate(&self, ptr: *mut u8, size: usize, align: usize) {
        self.inner.deallocate(ptr, size, align);
    }
}
