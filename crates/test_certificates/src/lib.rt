//! Tests of certificates, of voters and of fault models, with each allocation failing in turn and
//! with ample memory, and of large collections with ample memory.
#![tactic(auto)]

#[cfg(test)]
mod accused;
#[cfg(test)]
mod both_signers;
#[cfg(test)]
mod certificates;
#[cfg(test)]
mod certificates_in_place;
#[cfg(test)]
mod certified;
#[cfg(test)]
mod conflicts;
#[cfg(test)]
mod large_calls;
#[cfg(test)]
mod large_inputs;
#[cfg(test)]
mod own_model;
#[cfg(test)]
mod own_model_calls;
#[cfg(test)]
mod signers;
#[cfg(test)]
mod slots;
#[cfg(test)]
mod voters;
