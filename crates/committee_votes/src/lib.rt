//! Votes, which are what signatures are about, and accountability: the members that signed two
//! votes that contradict one another. A vote is a domain, a slot and a decision; to sign two
//! decisions for one slot of one domain is an offence, and to find none acquits nobody.
#![tactic(auto)]

mod certificates;
mod doubles;
mod equivocations;
mod in_place;
mod laws;
mod overlaps;
mod thresholds;
mod verdicts;
mod votes;

pub use certificates::VoteCertificate;
pub use doubles::{DoubleSignersError, double_signers, double_signers_counted};
pub use equivocations::{
    equivocation, equivocation_among, equivocation_among_counted, equivocation_counted,
};
pub use in_place::{VoteCertificateAt, find_vote, find_vote_certificate};
pub use laws::{Ballots, double_signer_law, double_signer_law_by_key};
pub use overlaps::{OverlapError, overlap, overlap_counted};
pub use thresholds::{at_least_two_thirds, more_than_two_thirds, outlasted};
pub use verdicts::Verdict;
pub use votes::{Vote, VoteAt, VoteRanges, VotesError, check_votes};
