//! Tests of weights and of certificates by weight: with each allocation failing in turn, and with
//! ample memory; with 70,000 participants; and at totals about the powers of two at which numbers
//! wrap or are rounded.
#![tactic(auto)]

#[cfg(test)]
mod certified;
#[cfg(test)]
mod clones;
#[cfg(test)]
mod conflicts;
#[cfg(test)]
mod equivocations;
#[cfg(test)]
mod in_place;
#[cfg(test)]
mod keyed;
#[cfg(test)]
mod lists;
#[cfg(test)]
mod many;
#[cfg(test)]
mod many_keys;
#[cfg(test)]
mod map_values;
#[cfg(test)]
mod refutations;
#[cfg(test)]
mod texts;
#[cfg(test)]
mod totals;
