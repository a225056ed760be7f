// Groups as their definitions state them.
use pvd_type::Name;
use rec_kinds::Items;

/// What a member of a group shows of its record, or does with it (QSRV manual, "Field mapping types").
#[derive(Clone, Copy, Debug, PartialEq, Eq)]
pub enum MemberKind {
    /// The record's whole structure: `scalar`, and a member without a type.
    Whole,
    /// The record's value alone: `plain`.
    Plain,
    /// A variant that holds the record's value: `any`.
    Any,
    /// The record's alarm and time: `meta`.
    Meta,
    /// Nothing; a put to the group processes the record: `proc`.
    Proc,
    /// Nothing; it gives an id to the structure of its name: `structure`.
    Structure,
}

/// A member of a group.
#[derive(Debug, Drop)]
pub struct MemberDef {
    /// Its name; dots divide the names of nested structures.
    pub name: Name,
    /// What it shows or does.
    pub kind: MemberKind,
    /// The number of its record; none for a `structure` alone.
    pub rec: Option<u32>,
    /// The id of its structure, or the empty text.
    pub id: Name,
    /// Its place among the members that a put writes or processes; none where a put passes over it.
    pub order: Option<i32>,
    /// The numbers of the members that are posted when its record changes, in the order of the definition.
    pub trigger: Items<u32>,
}

/// A group.
#[derive(Debug, Drop)]
pub struct GroupDef {
    /// Its name.
    pub name: Name,
    /// The id of its structure, or the empty text.
    pub id: Name,
    /// Whether gets and puts are atomic unless a request says otherwise.
    pub atomic: bool,
    /// Its members, sorted by the bytes of their names. Each name stands once.
    pub members: Items<MemberDef>,
}
