//! Which value of a type an input begins with.
ghost use Rattle.std.specs.Prelude.{◌≡◌};
ghost use Rattle.judge_questions.specs.Questions.{IsFit};
ghost use Rattle.judge_verdicts.specs.Readings.{IsJudged, Reading, reading_of};

use crate::count_items::CountItems;
use crate::member::Member;
use crate::verdict::Verdict;
use committee_certificates::Certificate;
use commonware_utils::Participant;
use commonware_utils::codec::{Error, Read, Source, UInt};
use commonware_utils::ordered::{BiMap, Map, Set};
use commonware_utils::sequence::{FixedBytes, U64};
use commonware_utils::vec::NonEmptyVec;
use judge_questions::{Form, Limits};
use std::alloc::{AllocError, Allocator};

/// What a reader of the type makes of the input under a configuration: the number of items of the
/// value that its bytes begin with and how many bytes follow, or its first fault. The error is an
/// allocation failure, and comes only where the reading isn't memory-free.
pub fn judge_as<T: Read<A> + CountItems + Drop, A: Allocator>(
    alloc: A,
    text: &[u8],
    cfg: &T::Cfg,
) -> Result<Verdict, AllocError>
    ensures { let reading : Reading = record {
      Value = T;
      enc = T.enc;
      Writable = T.writable;
      Allowed = T.allowed cfg.now;
      HasFault = T.fault cfg.now;
      MemoryFree = T.memory_free cfg.now;
      items = T.items;
    } in IsJudged reading text.now result }
{
    let mut source = Source::new(text);
    match T::read_cfg(alloc, &mut source, cfg) {
        Ok(value) => Ok(Verdict::Accepted {
            items: value.count(),
            left: source.remaining(),
        }),
        Err(Error::Memory) => Err(AllocError),
        Err(fault) => Ok(Verdict::Refused(fault)),
    }
}

/// What a reader of the type that the form names makes of the input, under the ranges of its
/// lengths.
/// No bound of a non-empty list is 0.
pub fn judge<A: Allocator + Copy>(
    alloc: A,
    form: Form,
    limits: &Limits,
    text: &[u8],
) -> Result<Verdict, AllocError>
    requires { IsFit form limits.now }
    ensures { IsJudged (reading_of form limits.now) text.now result }
{
    let first = limits.first.range();
    let second = limits.second.range();
    let third = limits.third.range();
    match form {
        Form::U8 => judge_as::<u8, A>(alloc, text, &()),
        Form::U32 => judge_as::<u32, A>(alloc, text, &()),
        Form::U64 => judge_as::<U64, A>(alloc, text, &()),
        Form::Varint => judge_as::<UInt, A>(alloc, text, &()),
        Form::Usize => judge_as::<usize, A>(alloc, text, &first),
        Form::Participant => judge_as::<Participant, A>(alloc, text, &()),
        Form::Member => judge_as::<Member, A>(alloc, text, &()),
        Form::VecU8 => judge_as::<Vec<u8, A>, A>(alloc, text, &(first, ())),
        Form::VecU32 => judge_as::<Vec<u32, A>, A>(alloc, text, &(first, ())),
        Form::VecU64 => judge_as::<Vec<U64, A>, A>(alloc, text, &(first, ())),
        Form::VecVecU8 => { judge_as::<Vec<Vec<u8, A>, A>, A>(alloc, text, &(first, (second, ()))) }
        Form::VecVecVecU8 => judge_as::<Vec<Vec<Vec<u8, A>, A>, A>, A>(
            alloc,
            text,
            &(first, (second, (third, ()))),
        ),
        Form::SetU8 => judge_as::<Set<u8, A>, A>(alloc, text, &(first, ())),
        Form::SetU32 => judge_as::<Set<u32, A>, A>(alloc, text, &(first, ())),
        Form::SetParticipant => judge_as::<Set<Participant, A>, A>(alloc, text, &(first, ())),
        Form::SetMember => judge_as::<Set<Member, A>, A>(alloc, text, &(first, ())),
        Form::SetBytes20 => judge_as::<Set<FixedBytes<20>, A>, A>(alloc, text, &(first, ())),
        Form::SetBytes33 => judge_as::<Set<FixedBytes<33>, A>, A>(alloc, text, &(first, ())),
        Form::SetBytes48 => judge_as::<Set<FixedBytes<48>, A>, A>(alloc, text, &(first, ())),
        Form::SetBytes96 => judge_as::<Set<FixedBytes<96>, A>, A>(alloc, text, &(first, ())),
        Form::SetSetU8 => { judge_as::<Set<Set<u8, A>, A>, A>(alloc, text, &(first, (second, ()))) }
        Form::SetNonEmptyU8 => {
            let second = limits.second.non_zero();
            judge_as::<Set<NonEmptyVec<u8, A>, A>, A>(alloc, text, &(first, (second, ())))
        }
        Form::MapU8U8 => judge_as::<Map<u8, u8, A>, A>(alloc, text, &(first, (), ())),
        Form::MapU8SetU8 => {
            judge_as::<Map<u8, Set<u8, A>, A>, A>(alloc, text, &(first, (), (second, ())))
        }
        Form::MapMemberU8 => judge_as::<Map<Member, u8, A>, A>(alloc, text, &(first, (), ())),
        Form::MapMemberU64 => judge_as::<Map<Member, U64, A>, A>(alloc, text, &(first, (), ())),
        Form::VecMapU8U8 => {
            judge_as::<Vec<Map<u8, u8, A>, A>, A>(alloc, text, &(first, (second, (), ())))
        }
        Form::BiMapU8U8 => judge_as::<BiMap<u8, u8, A>, A>(alloc, text, &(first, (), ())),
        Form::BiMapMemberMember => judge_as::<BiMap<Member, Member, A>, A>(
            alloc,
            text,
            &(first, (), ()),
        ),
        Form::NonEmptyU8 => {
            let first = limits.first.non_zero();
            judge_as::<NonEmptyVec<u8, A>, A>(alloc, text, &(first, ()))
        }
        Form::NonEmptyNonEmptyU8 => {
            let first = limits.first.non_zero();
            let second = limits.second.non_zero();
            judge_as::<NonEmptyVec<NonEmptyVec<u8, A>, A>, A>(alloc, text, &(first, (second, ())))
        }
        Form::Certificate => judge_as::<Certificate<A>, A>(alloc, text, &(first, second)),
    }
}
