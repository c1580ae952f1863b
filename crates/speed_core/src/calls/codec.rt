//! The bytes of a value, and the value of bytes.
ghost use Rattle.std.specs.Prelude.{◌≡◌, IfOk, IfSome};

use crate::error::Failure;
use commonware_utils::codec::{Error, Read, Source, Write};
use std::alloc::{AllocError, Global};

/// The bytes of a value, or no bytes where it can't be written.
pub(crate) fn written<T: Write<Global>>(alloc: Global, value: &T) -> Result<Vec<u8>, AllocError>
    ensures { T.writable value.now → IfOk result (λ bytes. bytes.items ≡ T.enc value.now) }
{
    let mut bytes = Vec::new(alloc);
    if value.is_writable() {
        value.write(&mut bytes)?;
    }
    Ok(bytes)
}

/// The value at the start of the bytes, or `None` where they are refused.
pub(crate) fn read<T: Read<Global>>(
    alloc: Global,
    bytes: &[u8],
    limits: &T::Cfg,
) -> Result<Option<T>, Failure>
    ensures { IfOk result (λ read. IfSome read (λ value.
        T.writable value × T.allowed limits.now value)) }
{
    match T::read_cfg(alloc, &mut Source::new(bytes), limits) {
        Ok(value) => Ok(Some(value)),
        Err(Error::Memory) => Err(Failure::Memory),
        Err(_) => Ok(None),
    }
}
