//! Clones that equal their source.
ghost use Rattle.std.specs.Prelude.{◌≡◌, ◌≤◌, IfOk, OnErr, length, true};
ghost use Rattle.std.specs.List.{AllZip};
ghost use Rattle.std.specs.String.{string_bytes};
ghost use Rattle.std.proofs.Common.{ap};
ghost use Rattle.std.proofs.lemmas.Cmp.{int_eq_equiv, nat_eq_equiv, nat_list_eq_equiv};
ghost use Rattle.commonware_base.specs.laws.CloneLaws.{equal_from_all_zip, equal_from_same};

use crate::codec::UInt;
use std::alloc::{AllocError, Allocator};

/// Returns clones of the items. Of no items it allocates nothing.
///
/// The clones of `[3, 1]` are 3 and 1, in that order.
pub fn clones_of<T: Clone, A: Allocator>(alloc: A, items: &[T]) -> Result<Vec<T, A>, AllocError>
    ensures clones { IfOk result (λ v. AllZip T.is_clone items.now v.items) }
    ensures nothing { OnErr result (1 ≤ length items.now) }
{
    if items.is_empty() {
        return Ok(Vec::new(alloc));
    }
    Vec::from_clones(alloc, items)
}

/// A type whose clones equal their source. A list of strings equals its clone.
pub trait EqClone: Clone + Eq {
    ghost clones_are_equal: { (x y : Self) → Self.is_clone x y → Self.eq x y ≡ true };
}

impl EqClone for u8 {
    ghost clones_are_equal = { equal_from_same nat_eq_equiv };
}

impl EqClone for u16 {
    ghost clones_are_equal = { equal_from_same nat_eq_equiv };
}

impl EqClone for u32 {
    ghost clones_are_equal = { equal_from_same nat_eq_equiv };
}

impl EqClone for u64 {
    ghost clones_are_equal = { equal_from_same nat_eq_equiv };
}

impl EqClone for u128 {
    ghost clones_are_equal = { equal_from_same nat_eq_equiv };
}

impl EqClone for usize {
    ghost clones_are_equal = { equal_from_same nat_eq_equiv };
}

impl EqClone for i8 {
    ghost clones_are_equal = { equal_from_same int_eq_equiv };
}

impl EqClone for i16 {
    ghost clones_are_equal = { equal_from_same int_eq_equiv };
}

impl EqClone for i32 {
    ghost clones_are_equal = { equal_from_same int_eq_equiv };
}

impl EqClone for i64 {
    ghost clones_are_equal = { equal_from_same int_eq_equiv };
}

impl EqClone for i128 {
    ghost clones_are_equal = { equal_from_same int_eq_equiv };
}

impl EqClone for isize {
    ghost clones_are_equal = { equal_from_same int_eq_equiv };
}

impl EqClone for char {
    ghost clones_are_equal = { equal_from_same nat_eq_equiv };
}

impl EqClone for &str {
    ghost clones_are_equal = { λ x y same.
        equal_from_same nat_list_eq_equiv x.now y.now (ap (λ s. s.now) same) };
}

impl<A: Allocator + Clone> EqClone for String<A> {
    ghost clones_are_equal = { λ x y.
        equal_from_same nat_list_eq_equiv (string_bytes x) (string_bytes y) };
}

impl<T: EqClone, A: Allocator + Clone> EqClone for Vec<T, A> {
    ghost clones_are_equal = { λ x y copied.
        equal_from_all_zip T.is_clone T.clones_are_equal x.items y.items copied.0 };
}

impl EqClone for UInt {
    ghost clones_are_equal = { λ x y same.
        equal_from_same nat_eq_equiv x.0 y.0 (ap (λ v. v.0) same) };
}
