//! What an error says of the members that signed two votes.

/// Which of three kinds a refusal is. None of them acquits anybody.
#[derive(Clone, Copy, Debug, PartialEq, Eq)]
pub enum Verdict {
    /// To sign both votes is no offence by this rule, which forbids two decisions for one slot of
    /// one domain. The signers may have broken another rule, or this one by other votes.
    NoOffenceByThisRule,
    /// The votes contradict one another, and the question can't be judged for this committee, or
    /// with signers that are so few or weigh so little.
    CannotJudge,
    /// An allocation failed, which says nothing of the votes: ask again.
    Failed,
}
