// Records as a text states them.
use crate::items::Items;
use crate::kind::Kind;
use pvd_type::Name;

/// A field as a text gives it.
#[derive(Debug, Drop)]
pub struct FieldText {
    /// Its name.
    pub name: Name,
    /// Its text.
    pub text: Name,
    /// The line of the text, counted from 1.
    pub line: u32,
}

/// An info as a text gives it.
#[derive(Debug, Drop)]
pub struct Info {
    /// Its name.
    pub name: Name,
    /// Its value.
    pub text: Name,
    /// Whether the value stands in braces, and not as a text.
    pub json: bool,
    /// The line of the value, counted from 1.
    pub line: u32,
}

/// A record as a text states it.
#[derive(Debug, Drop)]
pub struct RecText {
    /// Its kind.
    pub kind: Kind,
    /// Its name.
    pub name: Name,
    /// Its fields, in the order of the text.
    pub fields: Items<FieldText>,
    /// Its infos, in the order of the text.
    pub infos: Items<Info>,
    /// The line on which it begins, counted from 1.
    pub line: u32,
}
