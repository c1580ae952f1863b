//! Module `codec`: members from the bytes of a message, and back.
ghost use Rattle.std.specs.Prelude.{◌≡◌, ◌++◌, ◌↔◌, ℕ, List, IfErr, IfOk, IfSome, IsSome, length};
ghost use Rattle.commonware_utils.specs.Codec.{Refuses, Within};

use commonware_utils::Participant;
use commonware_utils::codec::{EncodeSize, Error, RangeCfg, Read, Source, Write};
use commonware_utils::ordered::Set;
use std::alloc::{AllocError, Global};

/// Decodes the members at the start of the bytes, as many as are allowed, and returns how many
/// bytes they take; or the first fault.
pub fn read_members(
    alloc: Global,
    bytes: &[u8],
    allowed: RangeCfg<usize>,
) -> Result<(Set<Participant, Global>, usize), Error>
    ensures bytes { IfOk result (λ p. (after : List ℕ)
        × (bytes.now ≡ ⟦<Set<Participant, Global> as EncodeSize>⟧.enc p.0 ++ after)) }
    ensures taken { IfOk result (λ p.
        p.1 ≡ length (⟦<Set<Participant, Global> as EncodeSize>⟧.enc p.0)) }
    ensures count { IfOk result (λ p. Within allowed (length p.0)) }
    ensures refused { IfErr result (Refuses
        (⟦<Set<Participant, Global> as Read<Global>>⟧.fault (allowed, tt) bytes.now)
        (⟦<Set<Participant, Global> as Read<Global>>⟧.memory_free (allowed, tt) bytes.now)) }
{
    let mut source = Source::new(bytes);
    let members = Set::read_cfg(alloc, &mut source, &(allowed, ()))?;
    Ok((members, source.position()))
}

/// Returns the encoding of the members, or `None` where they can't be encoded.
pub fn write_members(
    alloc: Global,
    members: &Set<Participant, Global>,
) -> Result<Option<Vec<u8>>, AllocError>
    ensures writable { IfOk result (λ bytes.
        IsSome bytes ↔ ⟦<Set<Participant, Global> as EncodeSize>⟧.writable members.now) }
    ensures bytes { IfOk result (λ bytes. IfSome bytes (λ v.
        v.items ≡ ⟦<Set<Participant, Global> as EncodeSize>⟧.enc members.now)) }
{
    if !members.is_writable() {
        return Ok(None);
    }
    let mut bytes = Vec::new(alloc);
    members.write(&mut bytes)?;
    Ok(Some(bytes))
}
