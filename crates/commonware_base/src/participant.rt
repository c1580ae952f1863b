//! The index of a participant in a committee.
ghost use Rattle.std.specs.Prelude.{◌≡◌, ◌<◌, ◌^◌, ◌==◌, ◌≤◌, Some, refl, true, length};
ghost use Rattle.std.proofs.Common.{rules};
ghost use Rattle.std.proofs.lemmas.Cmp.{nat_cmp_total, nat_eq_equiv};
ghost use Rattle.std.specs.Cmp.Rules.{comparing};
ghost use Rattle.std.specs.Ordering.{nat_cmp};
ghost use Rattle.std.specs.Fmt.{decimal};
ghost use Rattle.commonware_base.specs.laws.CloneLaws.{equal_from_same};
ghost use Rattle.commonware_base.specs.laws.NumberLaws.{number_canonical, number_prefix_free, varint_laws};
ghost use Rattle.commonware_base.specs.Varint.{varint, varint_fault};
ghost use Rattle.commonware_base.specs.laws.VarintLaws.{varint_bytes, varint-length};
ghost use Rattle.commonware_base.specs.Words.{IsWord};

use crate::codec::{Canonical, EncodeSize, Error, MaxEncodeSize, Read, Source, UInt, Write};
use crate::eq_clone::EqClone;
use std::alloc::{AllocError, Allocator};
use std::cmp::Ordering;
use std::fmt;
use std::marker::Model;

/// The index of a participant in an ordered committee, from 0. It is encoded as a varint:
/// `Participant::new(128)` as `[0x80, 0x01]`.
#[derive(Clone, Copy, Debug, Default, PartialEq, Eq, Hash)]
pub struct Participant(u32);

impl Model for Participant {
    ghost use Rattle.std.specs.Prelude.{ℕ};

    ghost Value = { ℕ };

    ghost view = { λ participant. participant.0 };

    ghost inverse = { λ index. record { 0 = index } };
}

impl Participant {
    /// Returns the participant of an index.
    pub fn new(index: u32) -> Self
        ensures { result ≡ index }
    {
        Participant(index)
    }

    /// Returns the participant of an index. It requires that the index is at most 4294967295.
    pub fn from_usize(index: usize) -> Self
        requires { index < 2 ^ 32 }
        ensures { result ≡ index }
    {
        Participant(index as u32)
    }

    /// Returns the index.
    pub fn get(self) -> u32
        ensures { result ≡ self }
    {
        self.0
    }
}

impl PartialOrd for Participant {
    ghost partial_cmp = { λ x y. Some (nat_cmp x y) };

    ghost laws = { Prim.search (comparing, rules) };

    #[inline(always)]
    fn partial_cmp(&self, other: &Participant) -> Option<Ordering> {
        Some(self.cmp(other))
    }
}

impl Ord for Participant {
    ghost cmp = { nat_cmp };

    ghost total = { nat_cmp_total };

    ghost matches_partial_cmp = { Prim.search (comparing, rules) };

    ghost matches_eq = { Prim.search (comparing, rules) };

    // A compiler folds these two tests into those of a walk; it doesn't fold the order of `u32`.
    #[inline(always)]
    fn cmp(&self, other: &Participant) -> Ordering {
        if self.0 < other.0 {
            Ordering::Less
        } else if other.0 < self.0 {
            Ordering::Greater
        } else {
            Ordering::Equal
        }
    }
}

impl From<Participant> for usize {
    ghost from_gives = { λ participant index. index ≡ participant };

    fn from(participant: Participant) -> usize {
        participant.0 as usize
    }
}

impl fmt::Display for Participant {
    ghost output = { λ participant. Some (decimal participant) };

    fn fmt<W: fmt::Write>(&self, f: &mut fmt::Formatter<W>) -> fmt::Result {
        let index = self.0;
        write!(f, "{index}")
    }
}

impl EqClone for Participant {
    ghost clones_are_equal = { equal_from_same nat_eq_equiv };
}

impl EncodeSize for Participant {
    ghost enc = { varint };

    ghost writable = { IsWord };

    ghost prefix_free = { number_prefix_free };

    ghost text_of_bytes = { varint_bytes };

    fn encode_size(&self) -> usize {
        UInt(self.0).encode_size()
    }

    fn is_writable(&self) -> bool {
        // The prover knows the range of a value only once the body reads it: each value in the
        // range of its type is writable.
        let _index = self.0;
        true
    }
}

impl<A: Allocator> Write<A> for Participant {
    fn write(&self, sink: &mut Vec<u8, A>) -> Result<(), AllocError> {
        UInt(self.0).write(sink)
    }
}

impl MaxEncodeSize for Participant {
    ghost MAX_ENCODE_SIZE = { 5 };

    const MAX_ENCODE_SIZE: usize = 5;

    ghost bounded = { varint-length };
}

impl<A: Allocator> Read<A> for Participant {
    type Cfg = ();

    ghost allowed = { λ _ _. Unit {0} };

    ghost fault = { λ _ s f. varint_fault s f };

    ghost memory_free = { λ _ _. Unit {0} };

    ghost read_laws = { λ _ _. varint_laws };

    fn read_cfg(alloc: A, src: &mut Source<'_>, cfg: &()) -> Result<Participant, Error> {
        let UInt(index) = UInt::read_cfg(alloc, src, cfg)?;
        Ok(Participant(index))
    }
}

impl Canonical for Participant {
    ghost canonical = { number_canonical };
}
