use db_text::TextFault;
use pvd_type::{Name, NoMemory};
use std::alloc::{AllocError, AllocFailed};

/// Why a database text was refused. A line is that of the text as given, counted from 1.
#[derive(Debug, Drop)]
pub enum LoadFault {
    /// A macro or a token is at fault.
    Text(TextFault),
    /// A record before it has this name; the line of the name.
    SameRecord(Name, u32),
    /// No kind has this name; the line of the kind.
    UnknownKind(Name, u32),
    /// The record's kind knows no field of this name; the line of the field's text, or of the name where no
    /// comma and text follow it.
    UnknownField(Name, u32),
    /// Another token should stand here; the line of the token, or of the text's last byte where it ends too early.
    BadForm(u32),
    /// There are so many records, none or more than 4,000.
    Count(usize),
    /// Memory ran out, or the text has 2^32 bytes or more, as given or with its macros replaced.
    NoMemory,
}

/// Why forms can't be read on: their tokens end, or one is at fault.
#[derive(Debug, Drop)]
pub enum FormStop {
    Short,
    Fault(LoadFault),
}

impl From<NoMemory> for FormStop {
    ghost use Rattle.std.specs.Prelude.{◌≡◌};
    ghost use Rattle.db_load.specs.declared.fault.FormStop.TheVariants.{Fault};
    ghost use Rattle.db_load.specs.declared.fault.LoadFault.TheVariants as faults;

    ghost from_gives = { λ _ e. e ≡ Fault faults.NoMemory };

    fn from(_e: NoMemory) -> FormStop {
        FormStop::Fault(LoadFault::NoMemory)
    }
}

impl From<AllocError> for FormStop {
    ghost use Rattle.std.specs.Prelude.{◌≡◌};
    ghost use Rattle.db_load.specs.declared.fault.FormStop.TheVariants.{Fault};
    ghost use Rattle.db_load.specs.declared.fault.LoadFault.TheVariants as faults;

    ghost from_gives = { λ _ e. e ≡ Fault faults.NoMemory };

    fn from(_e: AllocError) -> FormStop {
        FormStop::Fault(LoadFault::NoMemory)
    }
}

impl<T: Drop> From<AllocFailed<T>> for FormStop {
    ghost use Rattle.std.specs.Prelude.{◌≡◌};
    ghost use Rattle.db_load.specs.declared.fault.FormStop.TheVariants.{Fault};
    ghost use Rattle.db_load.specs.declared.fault.LoadFault.TheVariants as faults;

    ghost from_gives = { λ _ e. e ≡ Fault faults.NoMemory };

    fn from(_e: AllocFailed<T>) -> FormStop {
        FormStop::Fault(LoadFault::NoMemory)
    }
}

impl From<NoMemory> for LoadFault {
    ghost use Rattle.std.specs.Prelude.{◌≡◌};
    ghost use Rattle.db_load.specs.declared.fault.LoadFault.TheVariants as faults;

    ghost from_gives = { λ _ e. e ≡ faults.NoMemory };

    fn from(_e: NoMemory) -> LoadFault {
        LoadFault::NoMemory
    }
}
