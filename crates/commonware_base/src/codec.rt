//! Encodings with laws: the bytes that are written, the inputs that are accepted, and the first
//! fault (the decoding error) of every other input.
//!
//! A type says what its encoding is (`EncodeSize`), how it is appended (`Write`) and how it is
//! decoded (`Read`). Each of these traits carries its laws, so generic code over them is proved
//! once for every type that keeps them.

mod config;
mod error;
mod laws;
mod list;
mod primitives;
mod source;
mod traits;
mod varint;

pub use config::RangeCfg;
pub use error::Error;
pub use laws::{list_fault_law, round_trip, varint_law};
pub use list::read_list;
pub use source::Source;
pub use traits::{Canonical, EncodeSize, MaxEncodeSize, Read, Write};
pub use varint::{UInt, read_varint};
