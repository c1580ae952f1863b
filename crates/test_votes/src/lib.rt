//! Tests of votes: the traps that three fields close, all pairs of lists of five members and of
//! three by weight, bytes worked out by hand, and each allocation failing in turn.
#![tactic(auto)]

#[cfg(test)]
mod encodings;
#[cfg(test)]
mod every_pair;
#[cfg(test)]
mod in_place;
#[cfg(test)]
mod made;
#[cfg(test)]
mod quorums;
#[cfg(test)]
mod refused_votes;
#[cfg(test)]
mod shown;
#[cfg(test)]
mod thresholds;
#[cfg(test)]
mod traps;
#[cfg(test)]
mod weights;
