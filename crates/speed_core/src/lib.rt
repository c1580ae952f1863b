//! The library of the program `speed`, which times the calls of the collections, entry by entry.
#![tactic(auto)]

mod bench;
mod calls;
mod command;
mod error;
mod host;
mod numbers;
mod runs;
mod sessions;
mod timer;

pub use bench::{Bench, Work};
pub use calls::{time_bimaps, time_size};
pub use command::Command;
pub use error::Failure;
pub use host::on_host;
pub use numbers::{random, rising, wide_bytes};
pub use sessions::session;
pub use timer::Timer;
