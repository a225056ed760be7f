use pvd_type::{Name, NoMemory};
use std::alloc::AllocFailed;

/// Why a text was refused. A line is that of the text as given, counted from 1.
#[derive(Debug, Drop)]
pub enum TextFault {
    /// A byte begins no token, a macro isn't closed on its line, or a brace is never closed.
    BadToken(u32),
    /// A quoted text isn't closed on its line.
    OpenString(u32),
    /// A macro has neither a value nor a default.
    UnknownMacro(Name, u32),
    /// A macro stands inside sixteen others.
    MacroDepth(u32),
    /// Memory ran out, or a text has 2^32 bytes or more.
    NoMemory,
}

impl From<NoMemory> for TextFault {
    ghost use Rattle.std.specs.Prelude.{◌≡◌};
    ghost use Rattle.db_text.specs.declared.fault.TextFault.TheVariants as faults;

    ghost from_gives = { λ _ e. e ≡ faults.NoMemory };

    fn from(_e: NoMemory) -> TextFault {
        TextFault::NoMemory
    }
}

/// What is wrong with a macro. Its name is a part of the text or of a macro's value.
#[derive(Clone, Copy, Debug)]
pub enum MacroStop<'a> {
    Unclosed,
    Unknown(&'a [u8]),
    TooDeep,
    Memory,
}

impl<'a, T: Drop> From<AllocFailed<T>> for MacroStop<'a> {
    ghost use Rattle.std.specs.Prelude.{◌≡◌};
    ghost use Rattle.db_text.specs.declared.fault.MacroStop.TheVariants.{Memory};

    ghost from_gives = { λ _ e. e ≡ Memory };

    fn from(_e: AllocFailed<T>) -> MacroStop<'a> {
        MacroStop::Memory
    }
}

impl<T: Drop> From<AllocFailed<T>> for TextFault {
    ghost use Rattle.std.specs.Prelude.{◌≡◌};
    ghost use Rattle.db_text.specs.declared.fault.TextFault.TheVariants as faults;

    ghost from_gives = { λ _ e. e ≡ faults.NoMemory };

    fn from(_e: AllocFailed<T>) -> TextFault {
        TextFault::NoMemory
    }
}

impl<'a> From<NoMemory> for MacroStop<'a> {
    ghost use Rattle.std.specs.Prelude.{◌≡◌};
    ghost use Rattle.db_text.specs.declared.fault.MacroStop.TheVariants.{Memory};

    ghost from_gives = { λ _ e. e ≡ Memory };

    fn from(_e: NoMemory) -> MacroStop<'a> {
        MacroStop::Memory
    }
}

/// Where the expansion of a text stopped, and why.
#[derive(Clone, Copy, Debug)]
pub struct Stopped<'a> {
    pub stop: MacroStop<'a>,
    pub line: u32,
}
