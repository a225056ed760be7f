// What is wrong with the fields of a text.
ghost use Rattle.std.specs.Prelude.{◌≡◌, ◌⊎◌};
ghost use Rattle.rec_kinds.specs.Building.{fault};
ghost use Rattle.rec_kinds.specs.declared.fault.BuildFault.TheVariants.{NoMemory as TheNoMemory};

use crate::record_text::FieldText;
use pvd_type::{Name, NoMemory};
use std::alloc::Global;

/// What is wrong with the text of a field.
#[derive(Clone, Copy, Debug, PartialEq, Eq)]
pub enum Cause {
    /// It is no number, or none of the range.
    Number,
    /// It is none of the words.
    Choice,
    /// It is too long, or a count that is too small or too great.
    Length,
    /// It leads to no port.
    Port,
}

/// Where a fault stands.
#[derive(Debug, Drop)]
pub struct FieldPlace {
    /// The name of the field.
    pub name: Name,
    /// The line of its text, counted from 1.
    pub line: u32,
}

/// Why a record can't be built: the first fault in the order of the text (EPICS record reference).
#[derive(Debug, Drop)]
pub enum BuildFault {
    /// A text that should be a number is none, or one outside its range.
    BadNumber(FieldPlace),
    /// A text is no severity or no type of elements.
    BadChoice(FieldPlace),
    /// A text is longer than its field allows, or NELM is outside 1 to 16,384.
    BadLength(FieldPlace),
    /// A port doesn't lead to `@file` and a path.
    BadPort(FieldPlace),
    /// The memory that the call needed couldn't be had.
    NoMemory,
}

impl From<NoMemory> for BuildFault {
    ghost from_gives = { λ _ e. e ≡ TheNoMemory };

    fn from(_: NoMemory) -> BuildFault {
        BuildFault::NoMemory
    }
}

/// The fault of a field for this cause.
pub(crate) fn fault_for(alloc: Global, field: &FieldText, cause: Cause) -> BuildFault
    ensures { (result ≡ fault field.now cause) ⊎ (result ≡ BuildFault.NoMemory) }
{
    let name = match field.name.clone_in(alloc) {
        Ok(name) => name,
        Err(NoMemory) => return BuildFault::NoMemory,
    };
    let place = FieldPlace {
        name,
        line: field.line,
    };
    match cause {
        Cause::Number => BuildFault::BadNumber(place),
        Cause::Choice => BuildFault::BadChoice(place),
        Cause::Length => BuildFault::BadLength(place),
        Cause::Port => BuildFault::BadPort(place),
    }
}
