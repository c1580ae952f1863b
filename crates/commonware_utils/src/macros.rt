//! Numbers that aren't 0, and non-empty lists, written out where they are used.

/// The `NonZeroUsize` of a number, which isn't 0.
#[macro_export]
macro_rules! NZUsize {
    ($number:expr) => {
        std::num::NonZeroUsize::new($number).unwrap()
    };
}

/// The `NonZeroU8` of a number, which isn't 0.
#[macro_export]
macro_rules! NZU8 {
    ($number:expr) => {
        std::num::NonZeroU8::new($number).unwrap()
    };
}

/// The `NonZeroU16` of a number, which isn't 0.
#[macro_export]
macro_rules! NZU16 {
    ($number:expr) => {
        std::num::NonZeroU16::new($number).unwrap()
    };
}

/// The `NonZeroU32` of a number, which isn't 0.
#[macro_export]
macro_rules! NZU32 {
    ($number:expr) => {
        std::num::NonZeroU32::new($number).unwrap()
    };
}

/// The `NonZeroU64` of a number, which isn't 0.
#[macro_export]
macro_rules! NZU64 {
    ($number:expr) => {
        std::num::NonZeroU64::new($number).unwrap()
    };
}

/// A `NonEmptyVec` of the items that are written, or `vec::Error::Memory`.
///
/// | Form | Items |
/// |---|---|
/// | `alloc => a, b` | these |
/// | `alloc => e; n` | `e`, `n` times, a `usize` that isn't 0 |
/// | `alloc => e; NZUsize!(n)` | the same |
/// | `alloc => e; @n` | `e`, `n` times, a `NonZeroUsize` |
/// | `@items` | those of a `Vec`, which isn't empty; this form returns the list itself |
#[macro_export]
macro_rules! non_empty_vec {
    (@$items:expr) => {
        $crate::vec::NonEmptyVec::from_unchecked($items)
    };
    ($alloc:expr => $item:expr; NZUsize!($count:expr)) => {
        $crate::non_empty_vec!($alloc => $item; @$crate::NZUsize!($count))
    };
    ($alloc:expr => $item:expr; @$count:expr) => {
        match vec![in $alloc; $item; $count.get()] {
            Ok(items) => Ok($crate::vec::NonEmptyVec::from_unchecked(items)),
            Err(_) => Err($crate::vec::Error::Memory),
        }
    };
    ($alloc:expr => $item:expr; $count:expr) => {
        match vec![in $alloc; $item; $count] {
            Ok(items) => Ok($crate::vec::NonEmptyVec::from_unchecked(items)),
            Err(_) => Err($crate::vec::Error::Memory),
        }
    };
    ($alloc:expr => $($item:expr),+ $(,)?) => {
        match vec![in $alloc; $($item),+] {
            Ok(items) => Ok($crate::vec::NonEmptyVec::from_unchecked(items)),
            Err(_) => Err($crate::vec::Error::Memory),
        }
    };
}
