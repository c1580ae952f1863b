//! Accountability: the members that signed both of two certificates for different values, from the
//! certificates' encodings. Nothing is allocated.
ghost use Rattle.std.specs.Prelude.{◌≡◌, ◌≢◌, ◌+◌, ◌*◌, ◌<◌, ◌≤◌, ◌⊎◌, ℕ, List, IfErr, IfNone, IfOk, IfSome, OnOk, drop, length, take};
ghost use Rattle.commonware_c.specs.Certificates.{AreAccused, AreNoQuorums, AreUnread, IsNoWhole, IsStopped};
ghost use Rattle.commonware_c.specs.Certificates.{IsWhole, LacksRoom};
ghost use Rattle.commonware_c.specs.Conflicting.{AreBothFound, AreConflicting, IsViewOfBoth};
ghost use Rattle.committee_certificates.specs.InPlace.{AreSignersAt};
ghost use Rattle.committee_certificates.specs.Signers.{AreInBoth, AreQuorum};
ghost use Rattle.committee_certificates.specs.WalkCosts.{IsWalkedToAnEnd};
ghost use Rattle.commonware_c.specs.Status.{IsOfInput};

use crate::certificates::find_whole;
use crate::statuses::{NO_MEMBERS, NO_MODEL, OK, OUTSIDE, ROOM, SAME_VALUE, TOO_FEW};
use committee_certificates::{CertificateAt, SignersAt, write_both_counted};
use commonware_faults::tolerated_faults;
use commonware_ordered::{Counter, Uncounted};

/// The result for two certificates.
///
/// Among 4 members at a resilience of 3, `01 aa 03 00 01 02` and `01 bb 03 01 02 03` have status 0
/// and count 2: members 1 and 2 signed both values.
#[repr(C)]
#[derive(Clone, Copy, Drop)]
pub struct ConflictView {
    /// Each up to OTHER_SLOT but INVALID_LENGTH, MEMORY and ABSENT.
    pub status: u32,
    /// The input that the status is about, 1 or 2; 0 at OK, NO_MODEL, NO_MEMBERS, SAME_VALUE,
    /// OTHER_SLOT and ROOM.
    pub which: u32,
    /// At LEFT_OVER: how many bytes follow the certificate.
    pub number: usize,
    /// At OK and ROOM: how many members signed both.
    pub count: usize,
}

/// Why two inputs name no one.
#[derive(Clone, Copy, Drop)]
pub(crate) struct Reason {
    pub(crate) status: u32,
    pub(crate) which: u32,
    pub(crate) number: usize,
}

/// The members that signed both of two certificates for different values, in a committee of
/// `members` at a resilience k: their indices go to the start of `out`, in order. With f =
/// commonware_max_faults(k, members) they are at least (k - 2)f + 1, and where k is 3 or more, at
/// least one of them is outside every set of f members. Each input is exactly one certificate. To
/// sign two values is a fault only where both are for one slot, which commonware_equivocation asks:
/// honest members sign many values, one a slot.
///
/// Warning: no signature is looked at. Whoever doesn't verify them first may accuse an innocent
/// member.
///
/// The status is the first of these: NO_MODEL, NO_MEMBERS, a fault of the first input
/// (END_OF_INPUT, INVALID_VARINT, NOT_STRICT, LEFT_OVER), one of the second, SAME_VALUE, OUTSIDE of
/// the first, of the second, TOO_FEW of the first, of the second, ROOM. As many indices as there
/// are members always suffice. Never MEMORY.
#[unsafe(no_mangle)]
pub extern "C" fn commonware_conflict(
    k: u32,
    members: u32,
    first: &[u8],
    second: &[u8],
    out: &mut [u32],
) -> ConflictView
    ensures fits { result.status ≡ 0 → result.count ≤ length out.new }
    ensures accused { result.status ≡ 0
        → AreAccused k members first.now second.now (take result.count out.new) }
    ensures after { result.status ≡ 0 → drop result.count out.new ≡ drop result.count out.old }
    ensures untouched { result.status ≢ 0 → out.new ≡ out.old }
    ensures room { result.status ≡ 11
        → LacksRoom k members first.now second.now (length out.old) result.count }
    ensures about_none { (result.status ≡ 0) ⊎ (result.status ≡ 11)
        → (result.which ≡ 0) × (result.number ≡ 0) }
    ensures stopped { result.status ≢ 0 → result.status ≢ 11
        → IsStopped k members first.now second.now
        result.status result.which result.number }
    ensures no_one { result.status ≢ 0 → result.status ≢ 11 → result.count ≡ 0 }
    ensures no_memory { result.status ≢ 5 }
{
    match signers_of(k, members, first, second) {
        Ok((first_signers, second_signers)) => view_of_both(&first_signers, &second_signers, out),
        Err(reason) => view_of_reason(reason),
    }
}

/// Returns the signers of both certificates, or the first reason for which no one is named.
fn signers_of<'a>(
    k: u32,
    members: u32,
    first: &'a [u8],
    second: &'a [u8],
) -> Result<(SignersAt<'a>, SignersAt<'a>), Reason>
    ensures conflicting { IfOk result (λ both.
        AreConflicting k members first.now second.now both.0 both.1) }
    ensures stopped { IfErr result (λ reason. IsStopped k members first.now second.now
        reason.status reason.which reason.number) }
    ensures status { IfErr result (λ reason. IsOfInput reason.status) }
{
    let (one, two) = find_both(k, members, first, second)?;
    if one.value == two.value {
        return Err(reason_of_neither(SAME_VALUE));
    }
    let faults = tolerated_faults(k, members);
    check_signers(members, faults, &one.signers, &two.signers)?;
    Ok((one.signers, two.signers))
}

/// Returns the two certificates that the inputs encode, with nothing after them, or the first
/// reason for which they aren't read.
pub(crate) fn find_both<'a>(
    k: u32,
    members: u32,
    first: &'a [u8],
    second: &'a [u8],
) -> Result<(CertificateAt<'a>, CertificateAt<'a>), Reason>
    ensures found { IfOk result (λ both.
        AreBothFound k members first.now second.now both.0 both.1) }
    ensures unread { IfErr result (λ reason. AreUnread k members first.now second.now
        reason.status reason.which reason.number) }
    ensures status { IfErr result (λ reason. IsOfInput reason.status) }
{
    if k < 2 {
        return Err(reason_of_neither(NO_MODEL));
    }
    if members == 0 {
        return Err(reason_of_neither(NO_MEMBERS));
    }
    let one = find_one_of_two(first, 1)?;
    let two = find_one_of_two(second, 2)?;
    Ok((one, two))
}

/// Returns the certificate that the input encodes, with nothing after it; else the reason, with
/// `which` of the two inputs it is about.
fn find_one_of_two(input: &[u8], which: u32) -> Result<CertificateAt<'_>, Reason>
    ensures whole { IfOk result (λ found. (indices : List ℕ)
        × IsWhole input.now (found.value.now, indices) × AreSignersAt found.signers indices) }
    ensures refused { IfErr result (λ reason. IsNoWhole input.now reason.status reason.number) }
    ensures which { IfErr result (λ reason. reason.which ≡ which) }
    ensures status { IfErr result (λ reason. IsOfInput reason.status) }
{
    match find_whole(input) {
        Ok(certificate) => Ok(certificate),
        Err((status, number)) => Err(Reason {
            status,
            which,
            number,
        }),
    }
}

/// Refuses a signer that is no member, of the first and then of the second, and then fewer signers
/// than a quorum. It requires that `faults` is at most `members`.
pub(crate) fn check_signers(
    members: u32,
    faults: u32,
    first: &SignersAt<'_>,
    second: &SignersAt<'_>,
) -> Result<(), Reason>
    requires { faults ≤ members }
    ensures quorums { OnOk result ((one two : List ℕ) → AreSignersAt first.now one
        → AreSignersAt second.now two
        → AreQuorum (λ _. faults) members one × AreQuorum (λ _. faults) members two) }
    ensures refused { IfErr result (λ reason. (one two : List ℕ) → AreSignersAt first.now one
        → AreSignersAt second.now two
        → AreNoQuorums members faults one two reason.status reason.which) }
    ensures number { IfErr result (λ reason. reason.number ≡ 0) }
    ensures status { IfErr result (λ reason. IsOfInput reason.status) }
{
    let count = members as usize;
    if !first.are_members(count) {
        return Err(reason_of(OUTSIDE, 1));
    }
    if !second.are_members(count) {
        return Err(reason_of(OUTSIDE, 2));
    }
    let quorum = count - faults as usize;
    if first.count() < quorum {
        return Err(reason_of(TOO_FEW, 1));
    }
    if second.count() < quorum {
        return Err(reason_of(TOO_FEW, 2));
    }
    Ok(())
}

/// Returns the view of the members that signed both, whose indices go to `out` if it is large
/// enough.
pub(crate) fn view_of_both(
    first: &SignersAt<'_>,
    second: &SignersAt<'_>,
    out: &mut [u32],
) -> ConflictView
    ensures { (one two : List ℕ) → AreSignersAt first.now one → AreSignersAt second.now two
        → IsViewOfBoth one two result out.old out.new }
{
    view_of_both_counted(first, second, out, &mut Uncounted)
}

/// Returns what `view_of_both` does, and counts how often it compares a signer of one certificate
/// with one of the other: at most as often as both have signers; or at most twice as often, where
/// the room is shorter than either list of signers and long enough for those that signed both,
/// since these are counted before they are written; and, whatever the room, at least as often as
/// one of the certificates has signers.
fn view_of_both_counted<C: Counter>(
    first: &SignersAt<'_>,
    second: &SignersAt<'_>,
    out: &mut [u32],
    counter: &mut C,
) -> ConflictView
    ensures both { (one two : List ℕ) → AreSignersAt first.now one → AreSignersAt second.now two
        → IsViewOfBoth one two result out.old out.new }
    ensures cost { (one two : List ℕ) → AreSignersAt first.now one → AreSignersAt second.now two
        → C.counted counter.new ≤ C.counted counter.old + 2 * (length one + length two) }
    ensures once { (one two : List ℕ) → AreSignersAt first.now one → AreSignersAt second.now two
        → (result.status ≢ 0) ⊎ (length one ≤ length out.old) ⊎ (length two ≤ length out.old)
        → C.counted counter.new ≤ C.counted counter.old + (length one + length two) }
    ensures least { (one two : List ℕ) → AreSignersAt first.now one → AreSignersAt second.now two
        → IsWalkedToAnEnd C.step (length one) (length two)
        (C.counted counter.old) (C.counted counter.new) }
{
    if let Some(count) = lacking(first, second, out.len(), counter) {
        return view(ROOM, count);
    }
    let count = write_both_counted(first, second, out, counter);
    view(OK, count)
}

/// Returns how many are among both signers, where a room of `places` places is too small for them.
/// It compares signers only where the room is shorter than either list of them.
fn lacking<C: Counter>(
    first: &SignersAt<'_>,
    second: &SignersAt<'_>,
    places: usize,
    counter: &mut C,
) -> Option<usize>
    ensures none { IfNone result ((one two both : List ℕ) → AreSignersAt first.now one
        → AreSignersAt second.now two → AreInBoth one two both → length both ≤ places) }
    ensures some { IfSome result (λ count. (one two : List ℕ) → AreSignersAt first.now one
        → AreSignersAt second.now two → (both : List ℕ) × AreInBoth one two both
        × (count ≡ length both) × (places < count)) }
    ensures cost { (one two : List ℕ) → AreSignersAt first.now one → AreSignersAt second.now two
        → C.counted counter.new ≤ C.counted counter.old + (length one + length two) }
    ensures free { (one two : List ℕ) → AreSignersAt first.now one → AreSignersAt second.now two
        → (length one ≤ places) ⊎ (length two ≤ places)
        → C.counted counter.new ≡ C.counted counter.old }
    ensures least { (one two : List ℕ) → AreSignersAt first.now one → AreSignersAt second.now two
        → places < length one → places < length two
        → IsWalkedToAnEnd C.step (length one) (length two)
        (C.counted counter.old) (C.counted counter.new) }
{
    // Those that signed both are no more than those that signed one, so most rooms are large enough
    // whoever signed.
    if first.count() <= places || second.count() <= places {
        return None;
    }
    let count = write_both_counted(first, second, &mut [], counter);
    if count <= places { None } else { Some(count) }
}

/// Returns the view of `count` members, with a status that is about neither input alone.
fn view(status: u32, count: usize) -> ConflictView
    ensures { result ≡ record { status = status; which = 0; number = 0; count = count } }
{
    ConflictView {
        status,
        which: 0,
        number: 0,
        count,
    }
}

/// Returns the reason of a status about neither input alone.
pub(crate) fn reason_of_neither(status: u32) -> Reason
    ensures { result ≡ record { status = status; which = 0; number = 0 } }
{
    reason_of(status, 0)
}

/// Returns the reason of a status about `which` of the inputs.
pub(crate) fn reason_of(status: u32, which: u32) -> Reason
    ensures { result ≡ record { status = status; which = which; number = 0 } }
{
    Reason {
        status,
        which,
        number: 0,
    }
}

/// Returns the view of a reason, for which no one is named.
pub(crate) fn view_of_reason(reason: Reason) -> ConflictView
    ensures { result ≡ record {
      status = reason.status;
      which = reason.which;
      number = reason.number;
      count = 0;
    } }
{
    ConflictView {
        status: reason.status,
        which: reason.which,
        number: reason.number,
        count: 0,
    }
}
