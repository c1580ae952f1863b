//! Tests of the library with each allocation failing in turn, with a heap that refuses large ones,
//! and of what allocates nothing: the collections, readers and writers, and the headline. Beside
//! them are those of the equipment that refuses and fails.
#![tactic(auto)]

#[cfg(test)]
mod builders;
#[cfg(test)]
mod costs;
#[cfg(test)]
mod drawn;
#[cfg(test)]
mod fixed_bytes;
#[cfg(test)]
mod held_heaps;
#[cfg(test)]
mod keys_found;
#[cfg(test)]
mod long_displays;
#[cfg(test)]
mod many_at_once;
#[cfg(test)]
mod memory_free_inputs;
#[cfg(test)]
mod readings;
#[cfg(test)]
mod refused_bimaps;
#[cfg(test)]
mod refused_codec;
#[cfg(test)]
mod refused_displays;
#[cfg(test)]
mod refused_insertions;
#[cfg(test)]
mod refused_items;
#[cfg(test)]
mod refused_lists;
#[cfg(test)]
mod refused_maps;
#[cfg(test)]
mod refused_queues;
#[cfg(test)]
mod refused_sets;
#[cfg(test)]
mod refused_unions;
#[cfg(test)]
mod refused_value_maps;
#[cfg(test)]
mod refusing_heaps;
#[cfg(test)]
mod repeat_or_refusal;
#[cfg(test)]
mod repeats;
#[cfg(test)]
mod scripted_devices;
#[cfg(test)]
mod sorted_pairs;
#[cfg(test)]
mod stated_lengths;
#[cfg(test)]
mod u64_items;
#[cfg(test)]
mod view_agreement;
#[cfg(test)]
mod view_faults;
#[cfg(test)]
mod views;
