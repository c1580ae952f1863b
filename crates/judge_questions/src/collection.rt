//! The types that builders make of items in any order.
ghost use Rattle.std.specs.Prelude.{◌≡◌};
ghost use Rattle.judge_questions.specs.Collections.{collection_of, set_form_of};

use crate::form::Form;

/// A set, by its items.
///
/// `position set<u8> 0205c8 c8` seeks 200 in a `SetForm::U8`.
#[derive(Clone, Copy, PartialEq, Eq)]
pub enum SetForm {
    U8,
    U32,
    Participant,
    Member,
    Bytes20,
    Bytes33,
    Bytes48,
    Bytes96,
    SetU8,
    NonEmptyU8,
}

/// What a builder makes of items in any order.
///
/// `build set<u8> 03020102` asks for `Collection::Set(SetForm::U8)`, and gets that of 1 and 2.
#[derive(Clone, Copy, PartialEq, Eq)]
pub enum Collection {
    Set(SetForm),
    MapU8U8,
    MapU8SetU8,
    MapMemberU8,
    MapMemberU64,
    BiMapU8U8,
    BiMapMemberMember,
}

impl Form {
    /// The type as that of a set, if it is one.
    pub fn set_form(self) -> Option<SetForm>
        ensures { result ≡ set_form_of self }
    {
        match self {
            Form::SetU8 => Some(SetForm::U8),
            Form::SetU32 => Some(SetForm::U32),
            Form::SetParticipant => Some(SetForm::Participant),
            Form::SetMember => Some(SetForm::Member),
            Form::SetBytes20 => Some(SetForm::Bytes20),
            Form::SetBytes33 => Some(SetForm::Bytes33),
            Form::SetBytes48 => Some(SetForm::Bytes48),
            Form::SetBytes96 => Some(SetForm::Bytes96),
            Form::SetSetU8 => Some(SetForm::SetU8),
            Form::SetNonEmptyU8 => Some(SetForm::NonEmptyU8),
            _ => None,
        }
    }

    /// The type as one that a builder makes, if it is one.
    pub fn collection(self) -> Option<Collection>
        ensures { result ≡ collection_of self }
    {
        match self {
            Form::SetU8 => Some(Collection::Set(SetForm::U8)),
            Form::SetU32 => Some(Collection::Set(SetForm::U32)),
            Form::SetParticipant => Some(Collection::Set(SetForm::Participant)),
            Form::SetMember => Some(Collection::Set(SetForm::Member)),
            Form::SetBytes20 => Some(Collection::Set(SetForm::Bytes20)),
            Form::SetBytes33 => Some(Collection::Set(SetForm::Bytes33)),
            Form::SetBytes48 => Some(Collection::Set(SetForm::Bytes48)),
            Form::SetBytes96 => Some(Collection::Set(SetForm::Bytes96)),
            Form::SetSetU8 => Some(Collection::Set(SetForm::SetU8)),
            Form::SetNonEmptyU8 => Some(Collection::Set(SetForm::NonEmptyU8)),
            Form::MapU8U8 => Some(Collection::MapU8U8),
            Form::MapU8SetU8 => Some(Collection::MapU8SetU8),
            Form::MapMemberU8 => Some(Collection::MapMemberU8),
            Form::MapMemberU64 => Some(Collection::MapMemberU64),
            Form::BiMapU8U8 => Some(Collection::BiMapU8U8),
            Form::BiMapMemberMember => Some(Collection::BiMapMemberMember),
            _ => None,
        }
    }
}
