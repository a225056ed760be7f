// What the keys of a group's object say.
use crate::def::MemberKind;
use pvd_type::Name;

/// A member as the text of its record states it.
#[derive(Drop)]
pub(crate) struct MemberText {
    pub kind: MemberKind,
    pub rec: Option<u32>,
    pub id: Name,
    pub order: Option<i32>,
    pub trigger: Option<Name>,
}

/// What a key of a group's object says.
#[derive(Drop)]
pub(crate) enum Said {
    Id(Name),
    Atomic(bool),
    Member(MemberText),
}
