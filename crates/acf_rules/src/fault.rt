use db_text::TextFault;
use pvd_type::{Name, NoMemory};
use std::alloc::{AllocError, AllocFailed};

/// Why an access security file was refused. A line is that of the text as given, counted from 1.
#[derive(Debug, Drop)]
pub enum AcfFault {
    /// A macro or a token is at fault.
    Text(TextFault),
    /// Another token should stand here; the line of the token, or of the text's last byte where it ends too early.
    BadForm(u32),
    /// A group of the same sort before it has this name; the line of the name.
    SameName(Name, u32),
    /// No group of users, or of hosts, before the rule has this name; the line of the name.
    UnknownName(Name, u32),
    /// Rules that go by the values of records, `INPA` to `INPL` and `CALC`, aren't supported; the word and its line.
    Unsupported(Name, u32),
    /// Memory ran out, or the text has 2^32 bytes or more, as given or with its macros replaced.
    NoMemory,
}

impl From<TextFault> for AcfFault {
    ghost use Rattle.std.specs.Prelude.{◌≡◌};
    ghost use Rattle.acf_rules.specs.Reading.{text_fault};

    ghost from_gives = { λ fault e. e ≡ text_fault fault };

    fn from(fault: TextFault) -> AcfFault {
        match fault {
            TextFault::NoMemory => AcfFault::NoMemory,
            TextFault::BadToken(line) => AcfFault::Text(TextFault::BadToken(line)),
            TextFault::OpenString(line) => AcfFault::Text(TextFault::OpenString(line)),
            TextFault::UnknownMacro(name, line) => {
                AcfFault::Text(TextFault::UnknownMacro(name, line))
            }
            TextFault::MacroDepth(line) => AcfFault::Text(TextFault::MacroDepth(line)),
        }
    }
}

/// Why forms can't be read on: their tokens end, or one is at fault.
#[derive(Drop)]
pub(crate) enum FormStop {
    Short,
    Fault(AcfFault),
}

impl From<NoMemory> for FormStop {
    ghost use Rattle.std.specs.Prelude.{◌≡◌};
    ghost use Rattle.acf_rules.specs.declared.fault.FormStop.TheVariants.{Fault};
    ghost use Rattle.acf_rules.specs.declared.fault.AcfFault.TheVariants as faults;

    ghost from_gives = { λ _ e. e ≡ Fault faults.NoMemory };

    fn from(_e: NoMemory) -> FormStop {
        FormStop::Fault(AcfFault::NoMemory)
    }
}

impl<T: Drop> From<AllocFailed<T>> for FormStop {
    ghost use Rattle.std.specs.Prelude.{◌≡◌};
    ghost use Rattle.acf_rules.specs.declared.fault.FormStop.TheVariants.{Fault};
    ghost use Rattle.acf_rules.specs.declared.fault.AcfFault.TheVariants as faults;

    ghost from_gives = { λ _ e. e ≡ Fault faults.NoMemory };

    fn from(_e: AllocFailed<T>) -> FormStop {
        FormStop::Fault(AcfFault::NoMemory)
    }
}
