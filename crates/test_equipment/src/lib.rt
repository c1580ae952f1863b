//! What tests need to make allocations and devices fail: an allocator that refuses one request, a
//! walk over each request that a call makes, and a reader and a writer that do what a script says.
//!
//! Nothing here is meant for a program. A test hands `&Refusing<Global>` to a function that is
//! generic over its allocator, and a [`ScriptedReader`] or a [`ScriptedWriter`] to one that reads
//! or writes.
#![tactic(auto)]

pub mod devices;
pub mod refusing;
pub mod walk;

pub use devices::{ReadFault, ScriptedReader, ScriptedWriter, WriteFault};
pub use refusing::Refusing;
