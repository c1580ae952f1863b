//! What the exports write, they read as it was: a caller's functions, proved as any other and run.
ghost use Rattle.std.specs.Prelude.{◌≡◌, ◌+◌, ◌++◌, ◌≤◌, ◌↔◌, ℕ, List, IfSome, IsSome, IsTrue, drop, length, nat_eq, take};
ghost use Rattle.std.specs.Cmp.Lexicographic.{pointwise};
ghost use Rattle.std.specs.Map.{keys_of, values_of};
ghost use Rattle.commonware_faults.specs.Tolerance.{IsFaultTolerance};
ghost use Rattle.commonware_ordered.specs.Dedup.{IsDedup};
ghost use Rattle.commonware_sequence.specs.FixedBytes.{bytes_cmp};
ghost use Rattle.commonware_views.specs.Lists.{AreItemsOf, StandBy};
ghost use Rattle.committee_certificates.specs.Certificates.{IsWritableCertificate, certificate_enc};
ghost use Rattle.committee_certificates.specs.Signers.{AreQuorum};
ghost use Rattle.commonware_c.specs.Certificates.{IsModel};
ghost use Rattle.commonware_c.specs.Pairs.{IsFirstOfEach};

mod accused;
mod keys;
mod numbers;

use crate::certificates::{CertificateView, commonware_certificate_read};
use crate::checks::{CheckView, commonware_check};
use crate::committees::commonware_committee_read;
use crate::encoded::commonware_certificate_encode;
use crate::maps::{PairsView, commonware_map_read};
use crate::numbers::{commonware_max_faults, commonware_quorum};
use crate::pairs::commonware_map_encode_dedup;
use crate::sets::{KeysView, commonware_set_read};
use crate::slots::commonware_slot_value;
use crate::statuses::OK;
use crate::written::{commonware_committee_encode_dedup, commonware_set_encode_dedup};
use committee_certificates::slot_of;
use commonware_base::codec::Source;
use std::alloc::Global;

/// Writes a certificate to the room, and reads it there. `None` where none is written.
fn certificate_there_and_back(
    value: &[u8],
    signers: &[u32],
    room: &mut [u8],
    out: &mut [u32],
) -> Option<CertificateView>
    requires { length signers.now ≤ length out.old }
    ensures written { IsSome result ↔ (IsWritableCertificate (value.now, signers.now)
        × (length (certificate_enc (value.now, signers.now)) ≤ length room.old)) }
    ensures back { IfSome result (λ view. (view.status ≡ 0)
        × (take view.value_length (drop view.value_start room.new) ≡ value.now)
        × (view.signers ≡ length signers.now)
        × (out.new ≡ signers.now ++ drop (length signers.now) out.old)) }
{
    let written = commonware_certificate_encode(value, signers, room);
    if written.status != OK {
        return None;
    }
    let view = commonware_certificate_read(room, value.len(), signers.len(), out);
    Some(view)
}

/// Writes a certificate to the room, and asks of what is written whether a quorum signed it. `None`
/// where none is written.
fn certificate_there_and_checked(
    k: u32,
    members: u32,
    value: &[u8],
    signers: &[u32],
    room: &mut [u8],
) -> Option<CheckView>
    ensures { IfSome result (λ view. (view.status ≡ 0) ↔ (IsModel k members
        × ((f : ℕ) × IsFaultTolerance k members f
        × AreQuorum (λ _. f) members signers.now))) }
{
    let written = commonware_certificate_encode(value, signers, room);
    if written.status != OK {
        return None;
    }
    let view = commonware_check(k, members, &room[..written.size]);
    Some(view)
}

/// Writes the value that a decision for a slot is to the room, and tells whether the slot and the
/// decision are found there: they always are. `None` where none is written.
fn value_there_and_back(slot: &[u8], decision: &[u8], room: &mut [u8]) -> Option<bool>
    ensures { IfSome result (λ same. IsTrue same) }
{
    let written = commonware_slot_value(slot, decision, room);
    if written.status != OK {
        return None;
    }
    match slot_of(&room[..written.size]) {
        Some((found, chosen)) => Some(found == slot && chosen == decision),
        None => Some(false),
    }
}

/// Writes the committee of these members to the room, and reads it there. `None` where none is
/// written.
fn committee_there_and_back(
    alloc: Global,
    members: &[[u8; 32]],
    room: &mut [u8],
) -> Option<KeysView>
    ensures { IfSome result (λ view. (view.status ≡ 0) × ((set : List (List ℕ))
        × IsDedup (pointwise nat_eq) bytes_cmp members.now set
        × (view.count ≡ length set) × StandBy 32 room.new view.start set)) }
{
    let written = commonware_committee_encode_dedup(alloc, members, room);
    if written.status != OK {
        return None;
    }
    // Of a source the prover knows that what it holds are bytes. Nothing else is done with it.
    let _ = Source::new(room).position();
    let view = commonware_committee_read(room, 0, written.count);
    Some(view)
}

/// Whether those that may be faulty and a quorum are all participants: they always are.
fn are_all(k: u32, n: u32) -> bool
    requires { (2 ≤ k) × (1 ≤ n) }
    ensures { IsTrue result }
{
    let quorum = u64::from(commonware_quorum(k, n));
    u64::from(commonware_max_faults(k, n)) + quorum == u64::from(n)
}

/// Writes the set of these keys to the room, and reads it there. `None` where none is written.
fn set_there_and_back(alloc: Global, size: usize, keys: &[u8], room: &mut [u8]) -> Option<KeysView>
    ensures { IfSome result (λ view. (view.status ≡ 0) × ((items set : List (List ℕ))
        × AreItemsOf size keys.now items × IsDedup (pointwise nat_eq) bytes_cmp items set
        × (view.count ≡ length set) × StandBy size room.new view.start set)) }
{
    let written = commonware_set_encode_dedup(alloc, size, keys, room);
    if written.status != OK {
        return None;
    }
    // Of a source the prover knows that what it holds are bytes. Nothing else is done with it.
    let _ = Source::new(room).position();
    let view = commonware_set_read(size, room, 0, written.count);
    Some(view)
}

/// Writes the map of these pairs to the room, and reads it there. `None` where none is written.
fn map_there_and_back(
    alloc: Global,
    key_size: usize,
    value_size: usize,
    pairs: &[u8],
    room: &mut [u8],
) -> Option<PairsView>
    ensures { IfSome result (λ view. (view.status ≡ 0)
        × ((rows : List (List ℕ)) × (written : List (List ℕ × List ℕ))
        × AreItemsOf (key_size + value_size) pairs.now rows
        × IsFirstOfEach key_size rows written × (view.count ≡ length written)
        × StandBy key_size room.new view.keys (keys_of written)
        × StandBy value_size room.new view.values (values_of written))) }
{
    let written = commonware_map_encode_dedup(alloc, key_size, value_size, pairs, room);
    if written.status != OK {
        return None;
    }
    // Of a source the prover knows that what it holds are bytes. Nothing else is done with it.
    let _ = Source::new(room).position();
    let view = commonware_map_read(key_size, value_size, room, 0, written.count);
    Some(view)
}

/// The value `aa` with the signers 0, 1 and 2 is `01 aa 03 00 01 02`; three of four are a quorum.
#[test]
fn certificates_go_there_and_back(rt: HostRuntime) {
    let mut room = [0xffu8; 8];
    let mut out = [9u32; 4];
    let signers = [0, 1, 2];
    let back = certificate_there_and_back(&[0xaa], &signers, &mut room, &mut out).expect(
        &rt, "written",
    );
    assert!(rt; back.status == 0 && back.left == 2 && room[..6] == [1, 0xaa, 3, 0, 1, 2]);
    assert!(rt; back.value_start == 1 && back.value_length == 1 && out == [0, 1, 2, 9]);
    let checked = certificate_there_and_checked(3, 4, &[0xaa], &signers, &mut room).expect(
        &rt, "written",
    );
    assert!(rt; checked.status == 0 && checked.signers == 3);
    let refused = certificate_there_and_checked(5, 4, &[0xaa], &signers, &mut room).expect(
        &rt, "written",
    );
    assert!(rt; refused.status == 10);
    assert!(rt; certificate_there_and_back(&[0xaa], &[1, 0], &mut room, &mut out).is_none());
    assert!(rt; value_there_and_back(&[7], &[0xaa], &mut room) == Some(true));
    assert!(rt; room[..3] == [1, 7, 0xaa] && are_all(3, 4) && are_all(5, 7));
}

/// Of the keys 3, 1 and 3 the set is 1 and 3; of pairs with equal keys the first stays.
#[test]
fn collections_go_there_and_back(rt: HostRuntime) {
    let mut room = [0xffu8; 8];
    let keys = set_there_and_back(rt.alloc(), 1, &[3, 1, 3], &mut room).expect(&rt, "written");
    assert!(rt; keys.status == 0 && keys.count == 2 && keys.left == 5);
    assert!(rt; keys.start == 1 && room[..3] == [2, 1, 3]);
    let pairs = map_there_and_back(rt.alloc(), 1, 1, &[3, 7, 1, 8, 3, 9], &mut room).expect(
        &rt, "written",
    );
    assert!(rt; pairs.status == 0 && pairs.count == 2 && pairs.left == 2);
    assert!(rt; pairs.keys == 1 && pairs.values == 4 && room[..6] == [2, 1, 3, 2, 8, 7]);
    assert!(rt; set_there_and_back(rt.alloc(), 0, &[3], &mut room).is_none());
    let mut wide = [0xffu8; 66];
    let members = [[9; 32], [8; 32], [9; 32]];
    let committee = committee_there_and_back(rt.alloc(), &members, &mut wide);
    assert!(rt; committee.is_some_and(|it| it.status == 0 && it.count == 2 && it.left == 1));
    assert!(rt; wide[0] == 2 && wide[1] == 8 && wide[33] == 9 && wide[65] == 0xff);
}
