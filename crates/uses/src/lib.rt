//! The library as a user calls it: one file for each module of `commonware_utils`, which names
//! nothing else; certificates and weights, over crates of their own; and examples.
#![tactic(auto)]

mod accusations;
mod accused_weights;
mod committees;
mod costs;
mod counts;
mod double_signers;
mod heads;
mod messages;
mod models;
mod peers;
mod queues;
mod ranges;
mod registries;
mod roots;
mod safety;
mod stakes;
mod turned;
mod views;
mod voters;
mod votes;
mod weights;

pub use accusations::new_accused;
pub use accused_weights::accused_weight;
pub use committees::{is_member, signatures_needed};
pub use costs::members_among;
pub use counts::{is_in, looked_up};
pub use double_signers::{accused, conflict_under};
pub use heads::{faulty_heads, heads_of, is_fifth_quorum, is_third_quorum, votes_needed};
pub use messages::{read_members, write_members};
pub use models::{N2f1, N4f1, crash_numbers, fourth_numbers, is_safe};
pub use peers::{Peer, read_peers};
pub use queues::{doubled, keep_the_first, latest, remember};
pub use ranges::{only, only_one_above_zero};
pub use registries::{owner, powers, registry, registry_of};
pub use roots::{first, is_before, room, signed_text};
pub use safety::{
    OneTraitor, both_final, both_heavy, both_heavy_by_log, both_heavy_in_turn, both_stand,
    check_both, dishonest, dishonest_by_log,
};
pub use stakes::two_thirds_of;
pub use turned::{Named, named_either_way};
pub use views::{first_in_shard, first_with_weight, weight_in};
pub use voters::has_quorum;
pub use votes::{is_read_back, is_same_vote};
pub use weights::{Weights, read_weights};

#[cfg(test)]
mod examples;
