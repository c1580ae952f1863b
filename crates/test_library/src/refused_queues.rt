//! Bounded queues with each of their allocations failing in turn, and their calls that allocate
//! nothing.
use commonware_utils::NZUsize;
use commonware_utils::vec::Bounded;
use std::collections::VecDeque;
use test_equipment::Refusing;
use test_equipment::walk::{Heap, Outcome, Refusable, full, makes_requests, refused};

/// Five items pushed into a queue for five. An item that comes back is pushed again.
struct Pushes;

impl Refusable for Pushes {
    fn outcome<H: Heap>(&self, heap: H, granted: u64) -> Outcome {
        let mut queue = Bounded::new(heap, NZUsize!(5));
        heap.restart(granted);
        pushed(heap, &mut queue)
    }
}

/// The outcome of the five pushes into an empty queue.
fn pushed<H: Heap>(heap: H, queue: &mut Bounded<u8, H>) -> Outcome {
    let mut came_back = false;
    for item in 1u8..=5 {
        let before = queue.len();
        let mut answer = queue.push(item);
        if answer == Err(item) && queue.len() == before {
            came_back = true;
            heap.relent();
            answer = queue.push(item);
        }
        if answer != Ok(None) {
            return Outcome::Wrong;
        }
    }
    let right = queue.iter().eq([1, 2, 3, 4, 5].iter());
    if came_back {
        refused(right)
    } else {
        full(right)
    }
}

/// A clone of a queue for three, of the last of as many items pushed, which count from 1.
#[derive(Drop)]
struct Clones(u8);

impl Refusable for Clones {
    fn outcome<H: Heap>(&self, heap: H, granted: u64) -> Outcome {
        let mut queue = Bounded::new(heap, NZUsize!(3));
        for item in 1..=self.0 {
            let _ = queue.push(item);
        }
        heap.restart(granted);
        let clone: Result<_, _> = queue.clone();
        let last = self.0.saturating_sub(3)..self.0;
        let unchanged = queue.iter().copied().eq(last.map(|item| item + 1));
        match clone {
            Ok(clone) => full(unchanged && clone == queue),
            Err(_) => refused(unchanged),
        }
    }
}

#[test]
fn each_request_is_refused_in_turn(rt: HostRuntime) {
    assert!(rt; makes_requests(rt.alloc(), &Pushes, 1));
}

/// Whether a full queue of 1, 2, 3 takes 4 and 5 for the first two, and gives the third.
fn takes_two<H: Heap>(queue: &mut Bounded<u8, H>) -> bool {
    queue.push(4) == Ok(Some(1))
        && queue.push(5) == Ok(Some(2))
        && queue.pop_front() == Some(3)
        && queue.capacity().get() == 3
}

#[test]
fn a_full_queue_takes_no_memory(rt: HostRuntime) {
    let heap = Refusing::all_after(rt.alloc(), u64::MAX);
    let mut queue = Bounded::new(&heap, NZUsize!(3));
    for item in 1u8..=3 {
        let _ = queue.push(item);
    }
    heap.restart(0);
    assert!(rt; takes_two(&mut queue));
    let items: VecDeque<u8, _> = queue.into();
    assert!(rt; items.iter().eq([4, 5].iter()) && !heap.has_refused());
}

/// A queue is cloned whatever it holds, and without memory where it is empty.
#[test]
fn queues_are_cloned(rt: HostRuntime) {
    assert!(rt; makes_requests(rt.alloc(), &Clones(0), 0));
    for pushed in 1..=100 {
        assert!(rt; makes_requests(rt.alloc(), &Clones(pushed), 1), "{pushed}");
    }
}

#[test]
fn an_empty_queue_takes_no_memory(rt: HostRuntime) {
    let heap = Refusing::all_after(rt.alloc(), 0);
    let empty: Bounded<u8, _> = Bounded::new(&heap, NZUsize!(9));
    let other: Bounded<u8, _> = Bounded::new(&heap, NZUsize!(3));
    assert!(rt; empty != other && !heap.has_refused());
    assert!(rt; empty.into_inner().is_empty());
}
