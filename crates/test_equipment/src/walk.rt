//! Each allocation of a call made to fail in turn, alone and with all that come after it, counting
//! upwards until a run meets no failure.
ghost use Rattle.std.specs.Prelude.{◌≡◌, if◌then◌else◌};
ghost use Rattle.test_equipment.specs.declared.walk.Outcome.TheVariants.{Full, Refused, Wrong};

use crate::Refusing;
use std::alloc::{Allocator, Global};

/// More requests than any call makes that tests walk over.
const ENOUGH: u64 = 1000;

/// The heap of a walk, a reference to a [`Refusing`]: as a type parameter of a call, so that the
/// call's proof doesn't look into the reference and what it points to.
pub trait Heap: Allocator + Copy {
    /// The allocator that grants and refuses the heap's requests.
    fn refusing(&self) -> &Refusing<Global>;

    /// From now on `granted` requests are granted, as [`Refusing::restart`] has it.
    fn restart(&self, granted: u64) {
        self.refusing().restart(granted);
    }

    /// From now on all requests are granted, as [`Refusing::relent`] has it.
    fn relent(&self) {
        self.refusing().relent();
    }

    /// Whether a request has been refused since the last restart.
    fn has_refused(&self) -> bool {
        self.refusing().has_refused()
    }
}

impl Heap for &Refusing<Global> {
    fn refusing(&self) -> &Refusing<Global> {
        self
    }
}

/// What a run of a call returned.
#[derive(Clone, Copy, Debug, PartialEq, Eq)]
pub enum Outcome {
    /// The full result.
    Full,
    /// An allocation failure, after which all is as it has to be.
    Refused,
    /// Neither.
    Wrong,
}

/// A full result, if it is the right one.
pub fn full(right: bool) -> Outcome
    ensures { result ≡ (if right then Full else Wrong) }
{
    if right { Outcome::Full } else { Outcome::Wrong }
}

/// An allocation failure, if all is as it has to be after it.
pub fn refused(right: bool) -> Outcome
    ensures { result ≡ (if right then Refused else Wrong) }
{
    if right {
        Outcome::Refused
    } else {
        Outcome::Wrong
    }
}

/// A call that allocates.
pub trait Refusable {
    /// Returns what the call does where its request after `granted` granted ones is refused. The
    /// heap refuses none before.
    fn outcome<H: Heap>(&self, heap: H, granted: u64) -> Outcome;

    /// Whether the call may give the full result though a request was refused, as one for more
    /// room than it needs.
    fn may_do_without(&self) -> bool {
        false
    }
}

/// What a walk refuses at each of its steps.
#[derive(Clone, Copy)]
enum Refusal {
    /// One request alone.
    One,
    /// A request and all that come after it.
    AllLater,
}

/// Returns how many requests the call makes where none is refused, and then it gives the full
/// result. `None` where that isn't so, or where a run with one of them refused returns anything
/// else than it may.
fn walk<C: Refusable>(alloc: Global, call: &C, refusal: Refusal) -> Option<u64> {
    for granted in 0..ENOUGH {
        let heap = match refusal {
            Refusal::One => Refusing::after(alloc, u64::MAX),
            Refusal::AllLater => Refusing::all_after(alloc, u64::MAX),
        };
        let outcome = call.outcome(&heap, granted);
        let is_full = outcome == Outcome::Full;
        if !heap.has_refused() {
            return is_full.then_some(granted);
        }
        if outcome != Outcome::Refused && !(is_full && call.may_do_without()) {
            return None;
        }
    }
    None
}

/// Returns how many requests the call makes, as the walks over them find it that refuse each alone
/// and with all that come after it. `None` where one of them returns anything else than it may.
pub fn requests<C: Refusable>(alloc: Global, call: &C) -> Option<u64> {
    let asked = walk(alloc, call, Refusal::One)?;
    let again = walk(alloc, call, Refusal::AllLater)?;
    (asked == again).then_some(asked)
}

/// Whether the call makes at least `least` requests, or none where that is 0, and returns what it
/// may where each is refused in turn.
pub fn makes_requests<C: Refusable>(alloc: Global, call: &C, least: u64) -> bool {
    match requests(alloc, call) {
        Some(asked) => asked >= least && (least > 0 || asked == 0),
        None => false,
    }
}
