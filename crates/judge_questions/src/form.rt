//! The types that a question can name.
ghost use Rattle.std.specs.Prelude.{◌≡◌, ◌≢◌, IfNone, IfSome};
ghost use Rattle.judge_questions.specs.Forms.{lengths_of, name_of, ranges_of};

/// A type that has a canonical encoding, as whose encoding an input is judged.
///
/// `Form::MapU8SetU8` has the name `map<u8,set<u8>>`, and the ranges `LENGTH VALUE-LENGTH`. A
/// member is 32 bytes, and the items of `Form::SetBytes20` are 20 bytes each.
#[derive(Clone, Copy, PartialEq, Eq)]
pub enum Form {
    U8,
    U32,
    U64,
    Varint,
    Usize,
    Participant,
    Member,
    VecU8,
    VecU32,
    VecU64,
    VecVecU8,
    VecVecVecU8,
    SetU8,
    SetU32,
    SetParticipant,
    SetMember,
    SetBytes20,
    SetBytes33,
    SetBytes48,
    SetBytes96,
    SetSetU8,
    SetNonEmptyU8,
    MapU8U8,
    MapU8SetU8,
    MapMemberU8,
    MapMemberU64,
    VecMapU8U8,
    BiMapU8U8,
    BiMapMemberMember,
    NonEmptyU8,
    NonEmptyNonEmptyU8,
    Certificate,
}

/// Each of the types, once.
pub const FORMS: [Form; 32] = [
    Form::U8,
    Form::U32,
    Form::U64,
    Form::Varint,
    Form::Usize,
    Form::Participant,
    Form::Member,
    Form::VecU8,
    Form::VecU32,
    Form::VecU64,
    Form::VecVecU8,
    Form::VecVecVecU8,
    Form::SetU8,
    Form::SetU32,
    Form::SetParticipant,
    Form::SetMember,
    Form::SetBytes20,
    Form::SetBytes33,
    Form::SetBytes48,
    Form::SetBytes96,
    Form::SetSetU8,
    Form::SetNonEmptyU8,
    Form::MapU8U8,
    Form::MapU8SetU8,
    Form::MapMemberU8,
    Form::MapMemberU64,
    Form::VecMapU8U8,
    Form::BiMapU8U8,
    Form::BiMapMemberMember,
    Form::NonEmptyU8,
    Form::NonEmptyNonEmptyU8,
    Form::Certificate,
];

impl Form {
    /// The name by which a question names the type.
    pub fn name(self) -> &'static str
        ensures { result.now ≡ name_of self }
    {
        match self {
            Form::U8 => "u8",
            Form::U32 => "u32",
            Form::U64 => "u64",
            Form::Varint => "varint",
            Form::Usize => "usize",
            Form::Participant => "participant",
            Form::Member => "member",
            Form::VecU8 => "vec<u8>",
            Form::VecU32 => "vec<u32>",
            Form::VecU64 => "vec<u64>",
            Form::VecVecU8 => "vec<vec<u8>>",
            Form::VecVecVecU8 => "vec<vec<vec<u8>>>",
            Form::SetU8 => "set<u8>",
            Form::SetU32 => "set<u32>",
            Form::SetParticipant => "set<participant>",
            Form::SetMember => "set<member>",
            Form::SetBytes20 => "set<bytes20>",
            Form::SetBytes33 => "set<bytes33>",
            Form::SetBytes48 => "set<bytes48>",
            Form::SetBytes96 => "set<bytes96>",
            Form::SetSetU8 => "set<set<u8>>",
            Form::SetNonEmptyU8 => "set<non-empty<u8>>",
            Form::MapU8U8 => "map<u8,u8>",
            Form::MapU8SetU8 => "map<u8,set<u8>>",
            Form::MapMemberU8 => "map<member,u8>",
            Form::MapMemberU64 => "map<member,u64>",
            Form::VecMapU8U8 => "vec<map<u8,u8>>",
            Form::BiMapU8U8 => "bimap<u8,u8>",
            Form::BiMapMemberMember => "bimap<member,member>",
            Form::NonEmptyU8 => "non-empty<u8>",
            Form::NonEmptyNonEmptyU8 => "non-empty<non-empty<u8>>",
            Form::Certificate => "certificate",
        }
    }

    /// What the ranges are that a question gives for the type, a word each after a space.
    pub fn ranges(self) -> &'static str
        ensures { result.now ≡ ranges_of self }
    {
        match self {
            Form::U8 | Form::U32 | Form::U64 | Form::Varint | Form::Participant | Form::Member =>
                "",
            Form::Usize => " NUMBER",
            Form::VecU8
            | Form::VecU32
            | Form::VecU64
            | Form::SetU8
            | Form::SetU32
            | Form::SetParticipant
            | Form::SetMember
            | Form::SetBytes20
            | Form::SetBytes33
            | Form::SetBytes48
            | Form::SetBytes96
            | Form::MapU8U8
            | Form::MapMemberU8
            | Form::MapMemberU64
            | Form::BiMapU8U8
            | Form::BiMapMemberMember
            | Form::NonEmptyU8 => " LENGTH",
            Form::VecVecU8
            | Form::SetSetU8
            | Form::SetNonEmptyU8
            | Form::VecMapU8U8
            | Form::NonEmptyNonEmptyU8 => " LENGTH ITEM-LENGTH",
            Form::VecVecVecU8 => " LENGTH ITEM-LENGTH INNER-LENGTH",
            Form::MapU8SetU8 => " LENGTH VALUE-LENGTH",
            Form::Certificate => " VALUE-LENGTH SIGNERS",
        }
    }

    /// How many ranges a question gives for the type: one for each of its lengths, the outermost
    /// first; one for the number of a `usize`; none for the other numbers and for a member.
    pub fn lengths(self) -> usize
        ensures { result ≡ lengths_of self }
    {
        match self {
            Form::U8 | Form::U32 | Form::U64 | Form::Varint | Form::Participant | Form::Member => 0,
            Form::Usize
            | Form::VecU8
            | Form::VecU32
            | Form::VecU64
            | Form::SetU8
            | Form::SetU32
            | Form::SetParticipant
            | Form::SetMember
            | Form::SetBytes20
            | Form::SetBytes33
            | Form::SetBytes48
            | Form::SetBytes96
            | Form::MapU8U8
            | Form::MapMemberU8
            | Form::MapMemberU64
            | Form::BiMapU8U8
            | Form::BiMapMemberMember
            | Form::NonEmptyU8 => 1,
            Form::VecVecU8
            | Form::SetSetU8
            | Form::SetNonEmptyU8
            | Form::MapU8SetU8
            | Form::VecMapU8U8
            | Form::NonEmptyNonEmptyU8
            | Form::Certificate => 2,
            Form::VecVecVecU8 => 3,
        }
    }
}
