//! Modules `ordered` and `faults`: whether the voters of a message are a quorum of a committee.
ghost use Rattle.std.specs.Prelude.{◌≡◌, ◌-◌, ◌≤◌, ◌↔◌, ℕ, List, IfErr, IfOk, IsTrue};
ghost use Rattle.commonware_utils.specs.Codec.{Accepts, Refuses};
ghost use Rattle.commonware_utils.specs.Faults.{size};
ghost use Rattle.commonware_utils.specs.Ordered.{members_among};

use commonware_utils::Participant;
use commonware_utils::codec::{EncodeSize, Error, RangeCfg, Read};
use commonware_utils::faults::Faults;
use commonware_utils::headline::decode;
use commonware_utils::ordered::{Set, count_members};
use std::alloc::Global;

/// Whether at least a quorum of the members of a committee are among the voters that the bytes
/// begin with, in any fault model: n - f of its n members. Voters that are no members don't count.
///
/// An error says that the bytes begin with no set of allowed length, or that an allocation failed.
pub fn has_quorum<M: Faults>(
    alloc: Global,
    members: u32,
    votes: &[u8],
    allowed: RangeCfg<usize>,
) -> Result<bool, Error>
    requires { 1 ≤ members }
    ensures counted { IfOk result (λ yes. (voters rest : List ℕ)
        × Accepts ⟦<Set<Participant, Global> as EncodeSize>⟧.enc
        ⟦<Set<Participant, Global> as EncodeSize>⟧.writable
        (⟦<Set<Participant, Global> as Read<Global>>⟧.allowed (allowed, tt)) votes.now voters rest
        × (IsTrue yes ↔ (members - M.faults members ≤ size (members_among members voters)))) }
    ensures refused { IfErr result (Refuses
        (λ _. (voters rest : List ℕ)
        → ¬ Accepts ⟦<Set<Participant, Global> as EncodeSize>⟧.enc
        ⟦<Set<Participant, Global> as EncodeSize>⟧.writable
        (⟦<Set<Participant, Global> as Read<Global>>⟧.allowed (allowed, tt)) votes.now voters rest)
        (⟦<Set<Participant, Global> as Read<Global>>⟧.memory_free (allowed, tt) votes.now)) }
{
    let limits = (allowed, ());
    let (voters, _) = decode::<Set<Participant, Global>, Global>(alloc, votes, &limits)?;
    Ok(M::quorum(members) as usize <= count_members(members as usize, &voters))
}
