ghost use Rattle.std.specs.Prelude.{◌≡◌};
ghost use Rattle.cli_text.specs.Faults.{fault_at};
ghost use Rattle.cli_text.specs.declared.fault.Cause.TheVariants as causes;
ghost use Rattle.cli_text.specs.declared.fault.PutText.TheVariants as puts;

use pvd_type::NoMemory;
use std::alloc::{AllocError, AllocFailed};

/// Why words give no value of a type. Each fault but want of memory has the position of its word, counted from 0.
#[derive(Clone, Copy, Debug, PartialEq, Eq)]
pub enum PutText {
    /// A word that is no number, where a number is wanted.
    BadNumber(usize),
    /// A number outside the range of its type, a text or a list past its bound, or a list of a fixed length that the words don't
    /// fill: that is found at the last word.
    OutOfRange(usize),
    /// A word that is neither `true` nor `false`, or neither one of the choices nor a number.
    BadChoice(usize),
    /// A word that names no leaf, a leaf that no word can give, or a second word for a scalar.
    NoField(usize),
    /// The memory that the call needed couldn't be had.
    NoMemory,
}

/// Why one word is refused.
#[derive(Clone, Copy)]
pub enum Cause {
    BadNumber,
    OutOfRange,
    BadChoice,
    NoField,
    NoMemory,
}

impl From<NoMemory> for Cause {
    ghost from_gives = { λ _ e. e ≡ causes.NoMemory };

    fn from(_: NoMemory) -> Cause {
        Cause::NoMemory
    }
}

impl From<NoMemory> for PutText {
    ghost from_gives = { λ _ e. e ≡ puts.NoMemory };

    fn from(_: NoMemory) -> PutText {
        PutText::NoMemory
    }
}

impl From<AllocError> for Cause {
    ghost from_gives = { λ _ e. e ≡ causes.NoMemory };

    fn from(_: AllocError) -> Cause {
        Cause::NoMemory
    }
}

impl<T: Drop> From<AllocFailed<T>> for Cause {
    ghost from_gives = { λ _ e. e ≡ causes.NoMemory };

    fn from(_: AllocFailed<T>) -> Cause {
        Cause::NoMemory
    }
}

impl Cause {
    /// The fault of the word in this position.
    pub fn at(self, position: usize) -> PutText
        ensures { result ≡ fault_at self position }
    {
        match self {
            Cause::BadNumber => PutText::BadNumber(position),
            Cause::OutOfRange => PutText::OutOfRange(position),
            Cause::BadChoice => PutText::BadChoice(position),
            Cause::NoField => PutText::NoField(position),
            Cause::NoMemory => PutText::NoMemory,
        }
    }
}
