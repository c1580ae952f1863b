//! What is built and looked up, by the type's name.
ghost use Rattle.std.specs.Prelude.{IfErr, IfOk};
ghost use Rattle.judge_questions.specs.declared.collection.Collection.TheVariants as collections;
ghost use Rattle.judge_verdicts.specs.Builds.{MayFailToAllocateToBuild};
ghost use Rattle.judge_verdicts.specs.Collections.{IsBuilt, IsFoundIn, MayFailToAllocateToFindIn, lists_of};
ghost use Rattle.judge_verdicts.specs.Whole.{items_of};

use crate::member::Member;
use crate::pairs::{build_bimap, build_map};
use crate::places::{Found, position_as};
use crate::sets::{NotBuilt, build_set};
use commonware_utils::Participant;
use commonware_utils::ordered::Set;
use commonware_utils::sequence::{FixedBytes, U64};
use commonware_utils::vec::NonEmptyVec;
use judge_questions::{Collection, Limit, SetForm};
use std::alloc::{AllocError, Allocator};

/// What the builder of the type makes of the items that the input lists. `unique`: no two may be
/// equal, as in a bimap none may in either case. The error is an allocation failure.
pub fn build<A: Allocator + Copy>(
    alloc: A,
    collection: Collection,
    unique: bool,
    text: &[u8],
) -> Result<Result<Vec<u8, A>, NotBuilt>, AllocError>
    ensures built { IfOk result (λ built. IsBuilt collection unique text.now (items_of built)) }
    ensures memory { IfErr result (λ _. MayFailToAllocateToBuild (lists_of collection) text.now) }
{
    let all = Limit::full().range();
    match collection {
        Collection::Set(form) => build_form(alloc, form, unique, text),
        Collection::MapU8U8 => build_map::<u8, u8, A>(alloc, unique, text, &(all, (), ())),
        Collection::MapU8SetU8 => {
            build_map::<u8, Set<u8, A>, A>(alloc, unique, text, &(all, (), (all, ())))
        }
        Collection::MapMemberU8 => build_map::<Member, u8, A>(alloc, unique, text, &(all, (), ())),
        Collection::MapMemberU64 => build_map::<Member, U64, A>(
            alloc,
            unique,
            text,
            &(all, (), ()),
        ),
        Collection::BiMapU8U8 => build_bimap::<u8, u8, A>(alloc, text, &(all, (), ())),
        Collection::BiMapMemberMember => build_bimap::<Member, Member, A>(
            alloc,
            text,
            &(all, (), ()),
        ),
    }
}

/// What the builder of sets makes of the items that the input lists.
fn build_form<A: Allocator + Copy>(
    alloc: A,
    form: SetForm,
    unique: bool,
    text: &[u8],
) -> Result<Result<Vec<u8, A>, NotBuilt>, AllocError>
    ensures built { IfOk result (λ built.
        IsBuilt (collections.Set form) unique text.now (items_of built)) }
    ensures memory { IfErr result (λ _.
        MayFailToAllocateToBuild (lists_of (collections.Set form)) text.now) }
{
    let all = Limit::full().range();
    match form {
        SetForm::U8 => build_set::<u8, A>(alloc, unique, text, &(all, ())),
        SetForm::U32 => build_set::<u32, A>(alloc, unique, text, &(all, ())),
        SetForm::Participant => build_set::<Participant, A>(alloc, unique, text, &(all, ())),
        SetForm::Member => build_set::<Member, A>(alloc, unique, text, &(all, ())),
        SetForm::Bytes20 => build_set::<FixedBytes<20>, A>(alloc, unique, text, &(all, ())),
        SetForm::Bytes33 => build_set::<FixedBytes<33>, A>(alloc, unique, text, &(all, ())),
        SetForm::Bytes48 => build_set::<FixedBytes<48>, A>(alloc, unique, text, &(all, ())),
        SetForm::Bytes96 => build_set::<FixedBytes<96>, A>(alloc, unique, text, &(all, ())),
        SetForm::SetU8 => build_set::<Set<u8, A>, A>(alloc, unique, text, &(all, (all, ()))),
        SetForm::NonEmptyU8 => {
            let some = Limit::full().non_zero();
            build_set::<NonEmptyVec<u8, A>, A>(alloc, unique, text, &(all, (some, ())))
        }
    }
}

/// The position of the item in the set, each the whole of an input. What is wrong with the set
/// comes first. The error is an allocation failure, and comes only where the reading of the set
/// isn't memory-free, or where it is a set and the reading of the item isn't.
pub fn position<A: Allocator + Copy>(
    alloc: A,
    form: SetForm,
    set: &[u8],
    item: &[u8],
) -> Result<Found, AllocError>
    ensures found { IfOk result (IsFoundIn form set.now item.now) }
    ensures memory { IfErr result (λ _. MayFailToAllocateToFindIn form set.now item.now) }
{
    let all = Limit::full().range();
    match form {
        SetForm::U8 => position_as::<u8, A>(alloc, set, item, &(all, ())),
        SetForm::U32 => position_as::<u32, A>(alloc, set, item, &(all, ())),
        SetForm::Participant => position_as::<Participant, A>(alloc, set, item, &(all, ())),
        SetForm::Member => position_as::<Member, A>(alloc, set, item, &(all, ())),
        SetForm::Bytes20 => position_as::<FixedBytes<20>, A>(alloc, set, item, &(all, ())),
        SetForm::Bytes33 => position_as::<FixedBytes<33>, A>(alloc, set, item, &(all, ())),
        SetForm::Bytes48 => position_as::<FixedBytes<48>, A>(alloc, set, item, &(all, ())),
        SetForm::Bytes96 => position_as::<FixedBytes<96>, A>(alloc, set, item, &(all, ())),
        SetForm::SetU8 => position_as::<Set<u8, A>, A>(alloc, set, item, &(all, (all, ()))),
        SetForm::NonEmptyU8 => {
            let some = Limit::full().non_zero();
            position_as::<NonEmptyVec<u8, A>, A>(alloc, set, item, &(all, (some, ())))
        }
    }
}
