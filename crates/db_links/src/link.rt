// Live links.
ghost use Rattle.std.specs.Prelude.{◌≡◌};

use std::marker::Model;

/// A live link.
#[derive(Clone, Copy, Debug, PartialEq, Eq)]
pub(crate) struct Link {
    /// The record that it names.
    pub(crate) target: u32,
    /// Whether it is a PP link, which processes that record.
    pub(crate) processes: bool,
}

/// The live links of a record.
#[derive(Clone, Copy, Debug, PartialEq, Eq)]
pub(crate) struct RecordLinks {
    /// Where it reads from before it is processed.
    pub(crate) inp: Option<Link>,
    /// Where it writes to after it was processed.
    pub(crate) out: Option<Link>,
    /// What is processed after it.
    pub(crate) flnk: Option<Link>,
}

/// The live links of all records of a text, by the records' numbers (EPICS record reference, "Database Links"). Each names
/// one of these records.
#[derive(Debug, Drop)]
pub struct Links {
    pub(crate) by_record: Vec<RecordLinks>,
}

impl Model for Links {
    ghost use Rattle.std.specs.Prelude.{◌≡◌, List, true};
    ghost use Rattle.db_links.specs.Live.{are_inside};
    ghost use Rattle.db_links.specs.declared.link.RecordLinks.{RecordLinks};

    ghost Value = { List RecordLinks };

    ghost view = { λ l. l.by_record.items };

    ghost invariant = { λ l. are_inside l.by_record.items ≡ true };
}
