//! Types that have an encoding: how values are encoded and decoded, and the laws.
ghost use Rattle.std.specs.Prelude.{◌≡◌, ℕ, ◌<◌, ◌≤◌, ◌^◌, ◌↔◌, ◌++◌, [], List, length, IsTrue, IsOk, OnOk, OnErr, IfOk, IfErr, IfSome, IfNone};
ghost use Rattle.std.specs.List.{AllByRecursion, flat_map};
ghost use Rattle.commonware_base.specs.Fault.{Fault};
ghost use Rattle.commonware_base.specs.Lists.{ItemsFault, IsItemsMemoryFree};
ghost use Rattle.commonware_base.specs.Refusal.{Refuses};
ghost use Rattle.commonware_base.specs.Source.{rest_of, Consumes};
ghost use Rattle.commonware_base.specs.Text.{AreBytes, Accepts, IsPrefixFree, ReadLaws, CanonicalLaws};

use crate::codec::error::Error;
use crate::codec::source::Source;
use std::alloc::{AllocError, Allocator};

/// A type whose values have an encoding. That of `UInt(128)` is `80 01`, so its size is 2.
pub trait EncodeSize {
    /// The bytes of a value.
    ghost enc: { Self → List ℕ };

    /// The values that can be encoded. For a number this names the range of the type, for a
    /// collection its invariant too, since a law ranges over every number and list.
    ghost writable: { Self → Type 0 };

    /// Returns the length of the value's encoding in bytes. It requires that the value is writable,
    /// and that the length fits a `usize`.
    fn encode_size(&self) -> usize
        requires writable { writable self.now }
        requires fits { length (enc self.now) < 2 ^ 64 }
        ensures { result ≡ length (enc self.now) };

    /// Whether the value is writable.
    fn is_writable(&self) -> bool
        ensures { IsTrue result ↔ writable self.now };

    /// The encodings are prefix-free: no encoding is a proper prefix of another.
    ghost prefix_free: { IsPrefixFree enc writable };

    /// An encoding is a list of bytes: numbers below 256.
    ghost text_of_bytes: { (v : Self) → writable v → AreBytes (enc v) };
}

/// A type whose values can be encoded: appended to a list of bytes. The `u32` 1 is appended as
/// `00 00 00 01`.
pub trait Write<A: Allocator>: EncodeSize {
    /// Appends the encoding of the value, which has to be writable. After an allocation failure the
    /// sink is as it was.
    fn write(&self, sink: &mut Vec<u8, A>) -> Result<(), AllocError>
        requires { Self.writable self.now }
        ensures ok { OnOk result (sink.new.items ≡ sink.old.items ++ Self.enc self.now) }
        ensures err { OnErr result (sink.new.items ≡ sink.old.items) };

    /// Appends the encodings of the items, one after another, and returns `Some`; each has to be
    /// writable. After an allocation failure the sink is as it was. A type without a body of its
    /// own does nothing and returns `None`: then a caller writes the items one by one by `write`,
    /// as the writer of lists does. Where there are no bytes to append, no allocation fails.
    ///
    /// The bodies that there are, as of `u8` and `u32`, reserve room once and write all items.
    #[inline(always)]
    fn write_at_once(items: &[Self], sink: &mut Vec<u8, A>) -> Option<Result<(), AllocError>>
    where
        Self: Sized,
        requires { AllByRecursion Self.writable items.now }
        ensures ok { IfSome result (λ written. OnOk written
            (sink.new.items ≡ sink.old.items ++ flat_map Self.enc items.now)) }
        ensures err { IfSome result (λ written. OnErr written
            (sink.new.items ≡ sink.old.items)) }
        ensures none { IfNone result (sink.new.items ≡ sink.old.items) }
        ensures nothing { flat_map Self.enc items.now ≡ []
            → IfSome result (λ written. IsOk written) }
    {
        // They are named so that no parameter is unused: only the contract speaks of them.
        let _ = (items.len(), sink.len());
        None
    }
}

/// A bound on the length of a value's encoding, in bytes. It is 1 for `u8`, 4 for `u32` and 5 for
/// `UInt`.
pub trait MaxEncodeSize: EncodeSize {
    /// The bound as a number of the logic.
    ghost MAX_ENCODE_SIZE: { ℕ };

    /// At least the length in bytes of every writable value's encoding.
    const MAX_ENCODE_SIZE: usize;

    /// No writable value's encoding is longer.
    ghost bounded: { (v : Self) → Self.writable v → length (Self.enc v) ≤ MAX_ENCODE_SIZE };
}

/// A type whose values can be decoded. From `80 01`, with any bytes after it, `UInt(128)` is read.
pub trait Read<A: Allocator>: EncodeSize + Sized {
    /// The configuration that limits the values that are decoded.
    type Cfg;

    /// The values that a configuration allows.
    ghost allowed: { Self.Cfg → Self → Type 0 };

    /// The faults (decoding errors) of an input under a configuration.
    ghost fault: { Self.Cfg → List ℕ → Fault → Type 0 };

    /// The inputs that are accepted or refused without an allocation.
    ghost memory_free: { Self.Cfg → List ℕ → Type 0 };

    /// Decodes the value whose encoding comes next. It returns the value, or the first fault of the
    /// input, or `Memory`, which comes only where the decoding isn't memory-free. What follows the
    /// value is left. After an error the source is where it was.
    fn read_cfg(alloc: A, src: &mut Source<'_>, cfg: &Self::Cfg) -> Result<Self, Error>
        ensures accepted { IfOk result (λ v. Accepts Self.enc Self.writable (allowed cfg.now)
            (rest_of src.old) v (rest_of src.new)) }
        ensures consumed { IfOk result (λ v. Consumes src.old src.new (Self.enc v)) }
        ensures refused { IfErr result
            (Refuses (fault cfg.now (rest_of src.old)) (memory_free cfg.now (rest_of src.old))) }
        ensures stays { OnErr result (src.new ≡ src.old) };

    /// Decodes the next `count` values. It returns them, or the first fault of one of them, or
    /// `Memory`, which comes only where the decoding isn't memory-free. What follows them is left.
    /// After an error the source is where it was. A type without a body of its own does nothing and
    /// returns `None`: then a caller reads the values one by one by `read_cfg`, as the reader of
    /// lists does.
    ///
    /// The bodies that there are, as of `u8` and `u32`, reserve room for exactly `count`, once its
    /// bytes are known to be there.
    #[inline(always)]
    fn read_at_once(
        alloc: A,
        src: &mut Source<'_>,
        count: usize,
        cfg: &Self::Cfg,
    ) -> Option<Result<Vec<Self, A>, Error>>
        ensures consumed { IfSome result (λ read. IfOk read (λ v.
            Consumes src.old src.new (flat_map Self.enc v.items))) }
        ensures counted { IfSome result (λ read. IfOk read (λ v. length v.items ≡ count)) }
        ensures writable { IfSome result (λ read. IfOk read (λ v.
            AllByRecursion Self.writable v.items)) }
        ensures allowed { IfSome result (λ read. IfOk read (λ v.
            AllByRecursion (allowed cfg.now) v.items)) }
        ensures refused { let text = rest_of src.old in IfSome result (λ read. IfErr read (Refuses
            (ItemsFault Self.enc Self.writable (allowed cfg.now) (fault cfg.now) count text)
            (IsItemsMemoryFree Self.enc Self.writable (allowed cfg.now) (memory_free cfg.now)
            count text))) }
        ensures stays { IfSome result (λ read. OnErr read (src.new ≡ src.old)) }
        ensures none { IfNone result (src.new ≡ src.old) }
    {
        // They are named so that no parameter is unused: only the contract speaks of them.
        let _ = (alloc, src.position(), count, cfg);
        None
    }

    /// An input that is accepted has no fault, each other input has one, and whether a value is
    /// allowed depends on its encoding alone.
    ghost read_laws: { (alloc : A) (c : Self.Cfg)
        → ReadLaws Self.enc Self.writable (allowed c) (fault c) };
}

/// A type whose encoding is canonical: writable values are equal exactly where their encodings are,
/// and of two equal values both are writable or neither. The sets of `[1, 2]` and of `[2, 1]` are
/// equal, and both have the encoding `02 01 02`.
pub trait Canonical: EncodeSize + Eq {
    /// The law.
    ghost canonical: { CanonicalLaws Self.enc Self.writable Self.eq };
}
