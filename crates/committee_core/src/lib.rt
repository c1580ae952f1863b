//! The library of the program `committee`, which reads a committee from bytes and reports on it.
//!
//! Everything that the program does is generic over the allocator, the reader and the writers, so
//! that a test can make each allocation and each call of a device fail. The program itself only
//! hands in the real ones.
#![tactic(auto)]

mod bounds_report;
mod command;
mod error;
mod host;
mod input;
mod member;
mod ranges;
pub mod refutation;
mod report;
mod runs;
mod sessions;

pub use command::{Command, parse_args};
pub use error::RunError;
pub use host::{on_host, start};
pub use member::Member;
pub use program_io::Watched;
pub use ranges::Refutation;
pub use runs::run;
pub use sessions::session;
