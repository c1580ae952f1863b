//! Two lists of bytes as one, and a message with its namespace.
ghost use Rattle.std.specs.Prelude.{◌≡◌, ◌<◌, ◌^◌, ◌++◌, [], ℕ, List, IfOk, IsOk, length};
ghost use Rattle.commonware_base.specs.Unions.{union_text};

use crate::codec::{EncodeSize, UInt, Write};
use std::alloc::{AllocError, Allocator};

/// Returns the bytes of `a`, followed by those of `b`. Of no bytes at all it allocates nothing.
pub fn union<A: Allocator>(alloc: A, a: &[u8], b: &[u8]) -> Result<Vec<u8, A>, AllocError>
    ensures items { IfOk result (λ v. v.items ≡ a.now ++ b.now) }
    ensures nothing { a.now ++ b.now ≡ [] → IsOk result }
{
    let mut union = Vec::with_capacity(alloc, a.len() + b.len())?;
    union.extend_from_slice(a)?;
    union.extend_from_slice(b)?;
    Ok(union)
}

/// Returns the length of the namespace as a varint, the namespace, and the message. It requires
/// that the namespace has at most 4294967295 bytes.
///
/// No other pair of a namespace and a message has these bytes: the encoding separates domains.
pub fn union_unique<A: Allocator>(
    alloc: A,
    namespace: &[u8],
    msg: &[u8],
) -> Result<Vec<u8, A>, AllocError>
    requires { length namespace.now < 2 ^ 32 }
    ensures text { IfOk result (λ v. v.items ≡ union_text namespace.now msg.now) }
    ensures unique { (n m : List ℕ) → length n < 2 ^ 32
        → union_text n m ≡ union_text namespace.now msg.now
        → (n ≡ namespace.now) × (m ≡ msg.now) }
{
    let length = UInt(namespace.len() as u32);
    let mut union = Vec::with_capacity(alloc, length.encode_size() + namespace.len() + msg.len())?;
    length.write(&mut union)?;
    union.extend_from_slice(namespace)?;
    union.extend_from_slice(msg)?;
    Ok(union)
}
