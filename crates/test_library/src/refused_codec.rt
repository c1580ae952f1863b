//! Values of each encoding written, read, cloned and written to be read again, with each allocation
//! failing in turn: what was borrowed is as it was. And each written after 0 to 100 bytes.
ghost use Rattle.std.specs.Prelude.{IfOk};

use crate::readings::{are_after, full_sink, read_refused, read_whole};
use committee_certificates::Certificate;
use commonware_utils::Participant;
use commonware_utils::codec::{
    Canonical, Error, RangeCfg, Read, Source, UInt, Write, read_list, round_trip,
};
use commonware_utils::headline::decode;
use commonware_utils::ordered::{BiMap, Map, Set};
use commonware_utils::vec::NonEmptyVec;
use std::alloc::{Allocator, Global};
use std::num::NonZeroUsize;
use test_equipment::Refusing;
use test_equipment::walk::{Heap, Outcome, Refusable, full, makes_requests, refused};

/// What is done with a value.
#[derive(Clone, Copy)]
pub(super) enum Act {
    Write,
    Read,
    Clone,
    RoundTrip,
}

/// A type of values, and one of them.
#[derive(Clone, Copy)]
enum Form {
    Byte,
    Word,
    Varint,
    Size,
    Participant,
    /// A list of three lists.
    List,
    /// A set of three sets.
    Set,
    /// Three sets by their keys.
    Map,
    /// Three numbers by their keys.
    BiMap,
    /// Three sets by their keys, and the keys by the sets.
    BiMapOfSets,
    /// A list of three items, which is never empty.
    NonEmpty,
    /// A list of three lists, of which none is ever empty.
    NonEmptyNest,
    /// A value of one byte and three signers.
    Certificate,
    EmptyList,
    EmptySet,
    EmptyMap,
    EmptyBiMap,
    /// No value, and no signers.
    EmptyCertificate,
    /// No value, and three signers.
    SignedNothing,
}

/// Each form, and at least how many allocations it takes to write it, to read it, to clone it, and
/// to write it and read it again. Where that is 0, it takes none.
static FORMS: [(Form, [u64; 4]); 19] = [
    (Form::Byte, [1, 0, 0, 1]),
    (Form::Word, [1, 0, 0, 1]),
    (Form::Varint, [1, 0, 0, 1]),
    (Form::Size, [1, 0, 0, 1]),
    (Form::Participant, [1, 0, 0, 1]),
    (Form::List, [1, 3, 3, 4]),
    (Form::Set, [1, 3, 2, 4]),
    (Form::Map, [1, 4, 3, 5]),
    (Form::BiMap, [1, 2, 2, 3]),
    (Form::BiMapOfSets, [1, 4, 3, 5]),
    (Form::NonEmpty, [1, 1, 1, 2]),
    (Form::NonEmptyNest, [1, 3, 3, 4]),
    (Form::Certificate, [1, 2, 2, 3]),
    (Form::EmptyList, [1, 0, 0, 1]),
    (Form::EmptySet, [1, 0, 0, 1]),
    (Form::EmptyMap, [1, 0, 0, 1]),
    (Form::EmptyBiMap, [1, 0, 0, 1]),
    (Form::EmptyCertificate, [1, 0, 0, 1]),
    (Form::SignedNothing, [1, 1, 1, 2]),
];

pub(super) static ACTS: [Act; 4] = [Act::Write, Act::Read, Act::Clone, Act::RoundTrip];

/// The bytes of {{}, {1, 2}, {7}}.
const SETS: &[u8; 7] = b"\x03\x00\x02\x01\x02\x01\x07";

/// The bytes of {1: {}, 2: {5}, 3: {7, 9}}.
const SETS_BY_KEYS: &[u8; 11] = b"\x03\x01\x02\x03\x03\x00\x01\x05\x02\x07\x09";

/// An act on a value of a form.
#[derive(Drop)]
struct Call {
    form: Form,
    act: Act,
}

impl Refusable for Call {
    fn outcome<H: Heap>(&self, heap: H, granted: u64) -> Outcome {
        self.form.tried(&Trial::new(self.act, heap, granted))
    }
}

impl Form {
    /// What the trial returns on the form's value.
    fn tried<H: Heap>(self, trial: &Trial<H>) -> Outcome {
        let any = RangeCfg::from(..);
        let some: RangeCfg<NonZeroUsize> = RangeCfg::from(..);
        match self {
            Form::Byte => trial.on::<u8>(b"\x07", &()),
            Form::Word => trial.on::<u32>(b"\x00\x00\x01\x2c", &()),
            Form::Varint => trial.on::<UInt>(b"\xac\x02", &()),
            Form::Size => trial.on::<usize>(b"\xac\x02", &any),
            Form::Participant => trial.on::<Participant>(b"\xac\x02", &()),
            Form::List => trial.on::<Vec<Vec<u8, _>, _>>(SETS, &(any, (any, ()))),
            Form::Set => trial.on::<Set<Set<u8, _>, _>>(SETS, &(any, (any, ()))),
            Form::Map => trial.on::<Map<u8, Set<u8, _>, _>>(SETS_BY_KEYS, &(any, (), (any, ()))),
            Form::BiMap => trial.on::<BiMap<u8, u8, _>>(
                b"\x03\x01\x02\x03\x03\x1e\x14\x0a",
                &(any, (), ()),
            ),
            Form::BiMapOfSets => trial.on::<BiMap<u8, Set<u8, _>, _>>(
                SETS_BY_KEYS,
                &(any, (), (any, ())),
            ),
            Form::NonEmpty => trial.on::<NonEmptyVec<u8, _>>(b"\x03\x01\x02\x03", &(some, ())),
            Form::NonEmptyNest => trial.on::<NonEmptyVec<NonEmptyVec<u8, _>, _>>(
                b"\x03\x01\x01\x02\x01\x02\x01\x03",
                &(some, (some, ())),
            ),
            Form::Certificate => {
                trial.on::<Certificate<_>>(b"\x01\xaa\x03\x00\x01\x02", &(any, any))
            }
            Form::EmptyList => trial.on::<Vec<u32, _>>(b"\x00", &(any, ())),
            Form::EmptySet => trial.on::<Set<u32, _>>(b"\x00", &(any, ())),
            Form::EmptyMap => trial.on::<Map<u8, u32, _>>(b"\x00\x00", &(any, (), ())),
            Form::EmptyBiMap => trial.on::<BiMap<u8, u32, _>>(b"\x00\x00", &(any, (), ())),
            Form::EmptyCertificate => trial.on::<Certificate<_>>(b"\x00\x00", &(any, any)),
            Form::SignedNothing => {
                trial.on::<Certificate<_>>(b"\x00\x03\x00\x01\x02", &(any, any))
            }
        }
    }
}

/// An act, and the request to refuse.
#[derive(Drop)]
pub(super) struct Trial<H: Heap> {
    act: Act,
    heap: H,
    granted: u64,
    /// How many bytes a sink holds before a value is written.
    held: usize,
}

/// The value that the bytes begin with.
fn read<T: Read<A>, A: Allocator>(alloc: A, bytes: &[u8], cfg: &T::Cfg) -> Result<T, Error>
    ensures writable { IfOk result T.writable }
    ensures allowed { IfOk result (T.allowed cfg.now) }
{
    T::read_cfg(alloc, &mut Source::new(bytes), cfg)
}

impl<H: Heap> Trial<H> {
    /// The act, with the allocation after `granted` granted ones failing.
    pub(super) fn new(act: Act, heap: H, granted: u64) -> Self {
        Trial {
            act,
            heap,
            granted,
            held: 3,
        }
    }

    /// The value written into a sink of `held` bytes, with ample memory.
    fn after(heap: H, held: usize) -> Self {
        Trial {
            act: Act::Write,
            heap,
            granted: u64::MAX,
            held,
        }
    }

    /// What the act returns on the value that the bytes encode. The value has to stay as it is.
    pub(super) fn on<T: Read<H> + Write<H> + Canonical + Clone + Drop>(
        &self,
        bytes: &[u8],
        cfg: &T::Cfg,
    ) -> Outcome {
        let Ok(same): Result<T, Error> = read(self.heap, bytes, cfg) else {
            return Outcome::Wrong;
        };
        let Ok(value): Result<T, Error> = read(self.heap, bytes, cfg) else {
            return Outcome::Wrong;
        };
        let outcome = match self.act {
            Act::Write => self.write(&value, bytes),
            Act::Read => self.read(&same, bytes, cfg),
            Act::Clone => self.clone_of(&value),
            Act::RoundTrip => self.round_trip(&value, cfg),
        };
        if value == same {
            outcome
        } else {
            Outcome::Wrong
        }
    }

    /// The value written into a sink, which a refusal leaves as it was. Its size allocates nothing.
    fn write<T: Write<H>>(&self, value: &T, bytes: &[u8]) -> Outcome {
        match full_sink(self.heap, self.held) {
            Ok(mut sink) => self.write_after(value, &mut sink, bytes),
            Err(_) => Outcome::Wrong,
        }
    }

    /// The value written into this sink.
    fn write_after<T: Write<H>>(&self, value: &T, sink: &mut Vec<u8, H>, bytes: &[u8]) -> Outcome {
        if !value.is_writable() {
            return Outcome::Wrong;
        }
        self.heap.restart(self.granted);
        match value.write(sink) {
            Ok(()) => full(self.has_added(sink, bytes) && value.encode_size() == bytes.len()),
            Err(_) => refused(self.has_added(sink, b"")),
        }
    }

    /// Whether these bytes are in the sink after those that it held.
    fn has_added(&self, sink: &[u8], bytes: &[u8]) -> bool {
        are_after(sink, self.held, bytes)
    }

    /// The value read from a source, which a refusal leaves as it was.
    fn read<T: Read<H> + Eq + Drop>(&self, value: &T, bytes: &[u8], cfg: &T::Cfg) -> Outcome {
        let mut src = Source::new(bytes);
        self.heap.restart(self.granted);
        match T::read_cfg(self.heap, &mut src, cfg) {
            Ok(again) => read_whole(again == *value, &src),
            Err(error) => read_refused(error, &src),
        }
    }

    /// A clone of the value.
    fn clone_of<T: Clone + Eq + Drop>(&self, value: &T) -> Outcome {
        self.heap.restart(self.granted);
        match value.clone() {
            Ok(copy) => full(copy == *value),
            Err(_) => refused(true),
        }
    }

    /// The value written with two bytes after it, and read again.
    fn round_trip<T: Read<H> + Write<H> + Canonical + Drop>(
        &self,
        value: &T,
        cfg: &T::Cfg,
    ) -> Outcome
        requires writable { T.writable value.now }
        requires allowed { T.allowed cfg.now value.now }
    {
        self.heap.restart(self.granted);
        match round_trip(self.heap, value, b"\xff\xff", cfg) {
            Ok((again, left)) => full(again == *value && left == 2),
            Err(error) => refused(error == Error::Memory),
        }
    }
}

/// A list of three lists, read by the function for lists.
struct ListRead;

impl Refusable for ListRead {
    fn outcome<H: Heap>(&self, heap: H, granted: u64) -> Outcome {
        let any = RangeCfg::from(..);
        let mut src = Source::new(SETS);
        heap.restart(granted);
        let read: Result<Vec<Vec<u8, _>, _>, Error> = read_list(heap, &mut src, any, &(any, ()));
        match read {
            Ok(items) => read_whole(items.len() == 3, &src),
            Err(error) => read_refused(error, &src),
        }
    }
}

/// The set of {}, {1, 2} and {7}, and a byte that is left, read by the headline's decoder.
struct Decoding;

impl Refusable for Decoding {
    fn outcome<H: Heap>(&self, heap: H, granted: u64) -> Outcome {
        let any = RangeCfg::from(..);
        let text = b"\x03\x00\x02\x01\x02\x01\x07\xff";
        heap.restart(granted);
        let decoded: Result<(Set<Set<u8, _>, _>, &[u8]), Error> = decode(
            heap,
            text,
            &(any, (any, ())),
        );
        match decoded {
            Ok((set, rest)) => full(set.len() == 3 && rest == b"\xff".as_slice()),
            Err(error) => refused(error == Error::Memory),
        }
    }
}

/// Whether each act on a value of the form makes at least this many allocations.
fn acts_ask_for(alloc: Global, form: Form, least: &[u64; 4]) -> bool {
    for (act, least) in ACTS.iter().zip(least) {
        if !makes_requests(alloc, &Call { form, act: *act }, *least) {
            return false;
        }
    }
    true
}

#[test]
fn each_request_is_refused_in_turn(rt: HostRuntime) {
    for (at, (form, least)) in FORMS.iter().enumerate() {
        assert!(rt; acts_ask_for(rt.alloc(), *form, least), "{at}");
    }
    assert!(rt; makes_requests(rt.alloc(), &ListRead, 3));
    assert!(rt; makes_requests(rt.alloc(), &Decoding, 3));
}

/// Each value is written whatever the sink holds.
#[test]
fn values_are_written_after_others(rt: HostRuntime) {
    let heap = Refusing::after(rt.alloc(), u64::MAX);
    for (at, (form, _)) in FORMS.iter().enumerate() {
        for held in 0..=100 {
            let written = form.tried(&Trial::after(&heap, held));
            assert!(rt; written == Outcome::Full, "{at} {held}");
        }
    }
}
