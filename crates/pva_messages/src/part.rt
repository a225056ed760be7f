use pvd_type::{BitSet, PvType};
use pvd_value::PvValue;

/// A part of a value: some of its leaves (pvAccess Protocol Specification, "Partial structures").
#[derive(Drop)]
pub struct Part {
    /// The type of the value.
    pub ty: PvType,
    /// The numbers of the leaves that are there, and no other.
    pub mask: BitSet,
    /// A value of the type. Where it was read, its other leaves are blank.
    pub value: PvValue,
}

/// The part of a put to the server. What type it has is known by the request that it names.
#[derive(Drop)]
pub enum PutPart {
    /// The message has none.
    Absent,
    /// It was left unread, and begins at this place of the payload.
    Unread(usize),
    /// It is there.
    Given(Part),
}
