//! The words by which a line asks for something other than a reading.
ghost use Rattle.std.specs.Prelude.{◌≡◌, ◌≢◌, MatchOption};
ghost use Rattle.judge_questions.specs.Tasks.{verb_name};
ghost use Rattle.judge_questions.specs.declared.verb.Verb.{Verb};

use crate::words::are_same;

/// What a line asks for, where it doesn't ask for a reading.
///
/// `build-unique set<u8> 03020102` asks for `Verb::BuildUnique`.
#[derive(Clone, Copy, PartialEq, Eq)]
pub enum Verb {
    /// What a builder makes of items, of which equal ones count once.
    Build,
    /// What a builder makes of items, of which no two may be equal.
    BuildUnique,
    /// The position of an item in a set.
    Position,
    /// The numbers of a fault model.
    Faults,
    /// Why a number of faults isn't tolerated: a counterexample to the quorum intersection.
    Refute,
    /// Whether a quorum signed a certificate.
    Quorum,
    /// Who signed both of two certificates.
    Conflict,
    /// Accountability: who signed two different decisions for one slot.
    Equivocation,
    /// The numbers of a fault model, where participants have weights.
    Weights,
    /// Whether signers that weigh a quorum signed a certificate.
    WeightedQuorum,
    /// Who signed both of two certificates, where quorums are by weight.
    WeightedConflict,
    /// Accountability: who signed two different decisions for one slot, where quorums are by
    /// weight.
    WeightedEquivocation,
}

/// Each of the words, once.
pub const VERBS: [Verb; 12] = [
    Verb::Build,
    Verb::BuildUnique,
    Verb::Position,
    Verb::Faults,
    Verb::Refute,
    Verb::Quorum,
    Verb::Conflict,
    Verb::Equivocation,
    Verb::Weights,
    Verb::WeightedQuorum,
    Verb::WeightedConflict,
    Verb::WeightedEquivocation,
];

impl Verb {
    /// The word by which a line asks for it.
    pub fn name(self) -> &'static str
        ensures { result.now ≡ verb_name self }
    {
        match self {
            Verb::Build => "build",
            Verb::BuildUnique => "build-unique",
            Verb::Position => "position",
            Verb::Faults => "faults",
            Verb::Refute => "refute",
            Verb::Quorum => "quorum",
            Verb::Conflict => "conflict",
            Verb::Equivocation => "equivocation",
            Verb::Weights => "weights",
            Verb::WeightedQuorum => "weighted-quorum",
            Verb::WeightedConflict => "weighted-conflict",
            Verb::WeightedEquivocation => "weighted-equivocation",
        }
    }
}

/// What a word asks for.
pub fn read_verb(word: &[u8]) -> Option<Verb>
    ensures { MatchOption result
        ((verb : Verb) → word.now ≢ verb_name verb)
        (λ verb. word.now ≡ verb_name verb) }
{
    for verb in &VERBS {
        if are_same(word, verb.name().as_bytes()) {
            return Some(*verb);
        }
    }
    None
}
