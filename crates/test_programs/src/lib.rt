//! Tests of the programs over scripted devices, and with each allocation failing in turn:
//! of the program `committee`, and in a file each of `judge` and `speed`.
#![tactic(auto)]

#[cfg(test)]
mod bounds;
#[cfg(test)]
mod committee_sizes;
#[cfg(test)]
mod committees;
#[cfg(test)]
mod counting;
#[cfg(test)]
mod devices;
#[cfg(test)]
mod dialogue;
#[cfg(test)]
mod failing_devices;
#[cfg(test)]
mod judge;
#[cfg(test)]
mod judge_memory;
#[cfg(test)]
mod long_conflicts;
#[cfg(test)]
mod long_inputs;
#[cfg(test)]
mod long_slots;
#[cfg(test)]
mod output;
#[cfg(test)]
mod refused_programs;
#[cfg(test)]
mod runs;
#[cfg(test)]
mod session_trial;
#[cfg(test)]
mod sessions;
#[cfg(test)]
mod speed;
#[cfg(test)]
mod standard_error;
#[cfg(test)]
mod starts;
#[cfg(test)]
mod watched;
