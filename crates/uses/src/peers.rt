//! An item of one's own: a peer, and the laws that each collection requires of its items.
ghost use Rattle.std.specs.Prelude.{◌≡◌, ◌++◌, ◌==◌, ℕ, List, IfErr, IfOk, false, length, refl};
ghost use Rattle.std.proofs.Common.{ap};
ghost use Rattle.std.proofs.lemmas.Cmp.{nat_eq_equiv};
ghost use Rattle.commonware_utils.specs.Codec.{Refuses, Within};
ghost use Rattle.commonware_utils.specs.Codec.{canonical_on, laws_on, prefix_free_on};
ghost use Rattle.commonware_utils.specs.Codec.{IsWord, word_bytes, word_canonical, word_fault, word_laws};
ghost use Rattle.commonware_utils.specs.Codec.{word_length, word_prefix_free, word_text};
ghost use Rattle.commonware_utils.specs.Roots.{equal_from_same};

use commonware_utils::EqClone;
use commonware_utils::codec::{
    Canonical, EncodeSize, Error, MaxEncodeSize, RangeCfg, Read, Source, Write,
};
use commonware_utils::ordered::Set;
use std::alloc::{AllocError, Allocator, Global};

/// A peer. Its number alone is compared, hashed and written.
#[derive(Clone, Copy)]
#[derive_where(Debug, PartialEq, Eq, PartialOrd, Ord, Hash)]
pub struct Peer {
    /// What it is known by.
    pub number: u32,
    /// Whether it was heard of.
    #[derive_where(skip(EqHashOrd))]
    pub heard: bool,
}

impl EqClone for Peer {
    ghost clones_are_equal = { λ x y same. equal_from_same nat_eq_equiv x.number y.number
        (ap (λ p. p.number) same) };
}

impl EncodeSize for Peer {
    ghost enc = { λ p. word_bytes p.number };

    ghost writable = { λ p. IsWord p.number };

    ghost prefix_free = { prefix_free_on (λ p. p.number) word_bytes IsWord word_prefix_free };

    ghost text_of_bytes = { λ p _. word_text p.number };

    fn encode_size(&self) -> usize {
        self.number.encode_size()
    }

    fn is_writable(&self) -> bool {
        self.number.is_writable()
    }
}

impl<A: Allocator> Write<A> for Peer {
    fn write(&self, sink: &mut Vec<u8, A>) -> Result<(), AllocError> {
        self.number.write(sink)
    }
}

impl MaxEncodeSize for Peer {
    ghost MAX_ENCODE_SIZE = { 4 };

    const MAX_ENCODE_SIZE: usize = 4;

    ghost bounded = { λ p _. word_length p.number };
}

impl<A: Allocator> Read<A> for Peer {
    type Cfg = ();

    ghost allowed = { λ _ _. Unit {0} };

    ghost fault = { λ _ text fault. word_fault text fault };

    ghost memory_free = { λ _ _. Unit {0} };

    ghost read_laws = { λ _ _. laws_on (λ p. p.number) word_bytes IsWord (λ _. Unit {0}) word_fault
        (λ n _ _. (record { number = n; heard = false }, refl)) word_laws };

    fn read_cfg(alloc: A, src: &mut Source<'_>, cfg: &()) -> Result<Peer, Error> {
        let number = u32::read_cfg(alloc, src, cfg)?;
        Ok(Peer {
            number,
            heard: false,
        })
    }
}

impl Canonical for Peer {
    ghost canonical = { canonical_on (λ p. p.number) word_bytes IsWord ◌==◌ word_canonical };
}

/// Decodes the peers at the start of the bytes, as many as are allowed, or returns the first fault.
pub fn read_peers(
    alloc: Global,
    bytes: &[u8],
    allowed: RangeCfg<usize>,
) -> Result<Set<Peer, Global>, Error>
    ensures bytes { IfOk result (λ peers. (after : List ℕ)
        × (bytes.now ≡ ⟦<Set<Peer, Global> as EncodeSize>⟧.enc peers ++ after)) }
    ensures count { IfOk result (λ peers. Within allowed (length peers)) }
    ensures refused { IfErr result (Refuses
        (⟦<Set<Peer, Global> as Read<Global>>⟧.fault (allowed, tt) bytes.now)
        (⟦<Set<Peer, Global> as Read<Global>>⟧.memory_free (allowed, tt) bytes.now)) }
{
    Set::read_cfg(alloc, &mut Source::new(bytes), &(allowed, ()))
}
