//! The builders of sets and maps at many items in many orders, with each allocation failing in
//! turn, and lists that are sets already.
use crate::builders::{BUILDERS, Builder};
use crate::{refused_maps, refused_sets};
use commonware_utils::ordered::{Error, Map, Set};
use test_equipment::Refusing;
use test_equipment::walk::{Heap, Outcome, Refusable, full, makes_requests, refused};

/// An order of the numbers below 40.
#[derive(Clone, Copy)]
enum Order {
    Rising,
    Falling,
    /// The numbers from 20 on, and then the others.
    Broken,
    /// The multiples of 27, which has no divisor in common with 40.
    Mixed,
}

static ORDERS: [Order; 4] = [Order::Rising, Order::Falling, Order::Broken, Order::Mixed];

impl Order {
    /// The number at a position.
    fn at(self, position: u32) -> u32 {
        match self {
            Order::Rising => position,
            Order::Falling => 39u32.saturating_sub(position),
            Order::Broken => position.wrapping_add(20) % 40,
            Order::Mixed => position.wrapping_mul(27) % 40,
        }
    }

    /// The numbers.
    fn items(self) -> [u32; 40] {
        let mut items = [0; 40];
        for (item, position) in items.iter_mut().zip(0..40) {
            *item = self.at(position);
        }
        items
    }

    /// The numbers, each with its position.
    fn pairs(self) -> [(u32, u8); 40] {
        let mut pairs = [(0, 0); 40];
        for (pair, position) in pairs.iter_mut().zip(0..40u8) {
            *pair = (self.at(u32::from(position)), position);
        }
        pairs
    }

    /// Whether the numbers at these positions are those below 40, in order.
    fn rises_at(self, positions: &[u8]) -> bool {
        for (position, number) in positions.iter().zip(0..40) {
            if self.at(u32::from(*position)) != number {
                return false;
            }
        }
        positions.len() == 40
    }

    /// Whether the map has the numbers below 40, each with its position.
    fn is_map<H: Heap>(self, map: &Map<u32, u8, H>) -> bool {
        are_all(map.keys().as_slice()) && self.rises_at(map.values())
    }
}

/// Whether these are the numbers below 40, in order.
fn are_all(items: &[u32]) -> bool {
    items.iter().copied().eq(0..40)
}

/// A builder of sets at the numbers in an order.
#[derive(Drop)]
struct SetOf(Builder, Order);

impl Refusable for SetOf {
    fn outcome<H: Heap>(&self, heap: H, granted: u64) -> Outcome {
        let items = self.1.items();
        heap.restart(granted);
        match refused_sets::build(self.0, heap, &items) {
            Ok(set) => full(are_all(set.as_slice())),
            Err(error) => refused(error == Error::Memory),
        }
    }
}

/// A builder of maps at the numbers in an order, and their positions.
#[derive(Drop)]
struct MapOf(Builder, Order);

impl Refusable for MapOf {
    fn outcome<H: Heap>(&self, heap: H, granted: u64) -> Outcome {
        let pairs = self.1.pairs();
        heap.restart(granted);
        match refused_maps::build(self.0, heap, &pairs) {
            Ok(map) => full(self.1.is_map(&map)),
            Err(error) => refused(error == Error::Memory),
        }
    }
}

#[test]
fn each_request_of_a_set_is_refused_in_turn(rt: HostRuntime) {
    for (place, order) in ORDERS.iter().enumerate() {
        for (at, builder) in BUILDERS.iter().enumerate() {
            let call = SetOf(*builder, *order);
            assert!(rt; makes_requests(rt.alloc(), &call, 1), "{place} {at}");
        }
    }
}

#[test]
fn each_request_of_a_map_is_refused_in_turn(rt: HostRuntime) {
    for (place, order) in ORDERS.iter().enumerate() {
        for (at, builder) in BUILDERS.iter().enumerate() {
            let call = MapOf(*builder, *order);
            assert!(rt; makes_requests(rt.alloc(), &call, 1), "{place} {at}");
        }
    }
}

/// Whether the numbers below the count are taken as a set without an allocation.
fn are_taken<H: Heap>(heap: H, items: Vec<u32, H>, count: u32) -> Result<bool, Error> {
    heap.restart(0);
    let set = Set::try_from_vec(items)?;
    Ok(set.iter().copied().eq(0..count) && !heap.has_refused())
}

#[test]
fn a_list_that_is_a_set_is_taken_without_memory(rt: HostRuntime) {
    for count in [0, 1, 2, 40] {
        let heap = Refusing::all_after(rt.alloc(), u64::MAX);
        let items = (0..count).collect(&heap).expect(&rt, "memory");
        assert!(rt; are_taken(&heap, items, count) == Ok(true), "{count}");
    }
}
