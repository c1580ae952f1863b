//! What follows from two votes, in the words of the field.
ghost use Rattle.std.specs.Prelude.{ℕ, ◌+◌, ◌*◌, ◌≤◌, Bool, Contains, List};
ghost use Rattle.committee_certificates.specs.Accountability.{AtMostFaulty};
ghost use Rattle.committee_certificates.specs.Signers.{AreInBoth};
ghost use Rattle.committee_votes.specs.Accountability.{ByKey, EachHasSignedTwo, EachSigned};
ghost use Rattle.committee_votes.specs.Accountability.{HasSignedTwo, IsCertifiedBy, SignOneVote};
ghost use Rattle.committee_votes.specs.Votes.{Ballot, Contradict};

/// Any relation of who signed which ballots, and any participants that are taken for honest.
pub trait Ballots {
    /// The participant signed the ballot.
    ghost signed: { ℕ → Ballot → Type 0 };

    /// The participant is honest.
    ghost honest: { ℕ → Type 0 };

    /// The key signed the ballot. A key is whatever bytes name a participant in every committee.
    ghost key_signed: { List ℕ → Ballot → Type 0 };

    /// The key is an honest participant's.
    ghost key_honest: { List ℕ → Type 0 };

    /// The key at an index of the committee that a domain names.
    ghost key_of: { List ℕ → ℕ → List ℕ };
}

/// Accountability and safety, for any relations.
///
/// `guilty`: who is in both of two lists of signers, each of which signed its ballot, has signed
/// two ballots that contradict one another, where those do. `innocent`: where honest participants
/// sign at most one decision for each slot of each domain, whoever has signed two is not honest.
/// `safe`: where besides at most f of n members aren't honest, and 3f + 1 is at most n, no two
/// quorum certificates contradict one another.
pub fn double_signer_law<B: Ballots>()
    ensures guilty { (first second named : List ℕ) (one two : Ballot)
        → EachSigned B.signed first one → EachSigned B.signed second two
        → Contradict one two → AreInBoth first second named
        → EachHasSignedTwo B.signed named }
    ensures innocent { SignOneVote B.honest B.signed
        → (index : ℕ) → HasSignedTwo B.signed index → ¬ B.honest index }
    ensures safe { (n f : ℕ) → 3 * f + 1 ≤ n → SignOneVote B.honest B.signed
        → AtMostFaulty n f B.honest
        → (first second : List ℕ) (one two : Ballot)
        → IsCertifiedBy n f B.signed first one → IsCertifiedBy n f B.signed second two
        → ¬ Contradict one two }
{}

/// Accountability by key, where each domain names a committee and members of several committees
/// share indices.
///
/// Each index of a vote is read in the committee of the vote's own domain. `guilty`: a member in
/// both lists has one key, and that key signed two ballots that contradict one another. `innocent`:
/// where honest keys sign at most one decision for each slot of each domain, that key isn't honest.
pub fn double_signer_law_by_key<B: Ballots>()
    ensures guilty { (first second named : List ℕ) (one two : Ballot)
        → EachSigned (ByKey B.key_of B.key_signed) first one
        → EachSigned (ByKey B.key_of B.key_signed) second two
        → Contradict one two → AreInBoth first second named
        → (index : ℕ) → Contains named index
        → HasSignedTwo B.key_signed (B.key_of one.domain index) }
    ensures innocent { SignOneVote B.key_honest B.key_signed
        → (key : List ℕ) → HasSignedTwo B.key_signed key → ¬ B.key_honest key }
{}
