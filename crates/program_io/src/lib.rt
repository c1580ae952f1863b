//! What a program that reads words and streams is built on: its arguments, readers and writers
//! that remember that a call failed or that the input ended, all the bytes to a writer, and a line
//! on standard error.
//!
//! It is generic over the allocator, the reader and the writers, so that a test can make each
//! allocation and each call of a device fail. No call of a device that fails is made again: an
//! interrupted one is a failure like every other.
#![tactic(auto)]

mod arguments;
mod line;
mod output;
mod watched;

pub use arguments::{NotTaken, after_first, take_arguments};
pub use line::say;
pub use output::{WriteFailed, write_bytes, write_whole};
pub use watched::Watched;
