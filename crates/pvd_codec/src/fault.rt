ghost use Rattle.std.specs.Prelude.{◌≡◌};
ghost use Rattle.pvd_codec.specs.declared.fault.ValueStop.TheVariants.{Memory};

use pva_wire::{Cause, Stop, WireFault};
use pvd_desc::{DescCause, DescFault, DescStop};
use pvd_type::NoMemory;
use std::alloc::{AllocError, AllocFailed};

/// What is wrong with an item of a value.
#[derive(Clone, Copy, Debug, PartialEq, Eq)]
pub enum ValueCause {
    /// A size, a text, a number or a set of bits is faulty by itself.
    Wire(Cause),
    /// An item of the description in a variant is faulty.
    Desc(DescCause),
    /// The selector of a union is at or above the count of its members.
    BadSelector(u32),
    /// The bit, the least such one, is at or above the count of the type's nodes.
    BitOutside(u64),
    /// A boolean, or the flag of an element that may be null, is this byte above 1.
    BadBool(u8),
    /// The size of a bounded text or list is above its bound.
    OverBound(u32),
    /// A variant stands inside sixteen others.
    TooNested,
}

impl ValueCause {
    ghost use Rattle.std.specs.Prelude.{◌≡◌};
    ghost use Rattle.pvd_codec.specs.Faults.{fault_at};

    /// The fault of an item at this place.
    pub fn at(self, place: usize) -> ValueFault
        ensures { result ≡ fault_at self place }
    {
        match self {
            ValueCause::Wire(cause) => ValueFault::Wire(cause.at(place)),
            ValueCause::Desc(cause) => ValueFault::Desc(cause.at(place)),
            ValueCause::BadSelector(number) => ValueFault::BadSelector(number, place),
            ValueCause::BitOutside(number) => ValueFault::BitOutside(number, place),
            ValueCause::BadBool(byte) => ValueFault::BadBool(byte, place),
            ValueCause::OverBound(length) => ValueFault::OverBound(length, place),
            ValueCause::TooNested => ValueFault::TooNested(place),
        }
    }
}

/// Why a reader over a slice stopped: at a fault, with the number of bytes that are left from the
/// faulty item on, or for want of memory.
#[derive(Debug, Drop)]
pub enum ValueStop {
    /// Memory ran out.
    Memory,
    /// What is wrong, and how many bytes are left from the faulty item on.
    Fault(ValueCause, usize),
}

impl ValueStop {
    ghost use Rattle.std.specs.Prelude.{◌≡◌};
    ghost use Rattle.pvd_codec.specs.Faults.{fault_of};

    /// The fault of a reader over the last bytes of a payload, at its place in the payload, which has
    /// `length` bytes.
    pub fn placed(self, length: usize) -> ValueFault
        ensures { result ≡ fault_of length self }
    {
        match self {
            ValueStop::Memory => ValueFault::NoMemory,
            ValueStop::Fault(cause, left) => cause.at(length.saturating_sub(left)),
        }
    }
}

impl From<NoMemory> for ValueStop {
    ghost from_gives = { λ _ e. e ≡ Memory };

    fn from(_e: NoMemory) -> ValueStop {
        ValueStop::Memory
    }
}

impl From<AllocError> for ValueStop {
    ghost from_gives = { λ _ e. e ≡ Memory };

    fn from(_e: AllocError) -> ValueStop {
        ValueStop::Memory
    }
}

impl<T: Drop> From<AllocFailed<T>> for ValueStop {
    ghost from_gives = { λ _ e. e ≡ Memory };

    fn from(_e: AllocFailed<T>) -> ValueStop {
        ValueStop::Memory
    }
}

impl From<Stop> for ValueStop {
    ghost use Rattle.std.specs.Prelude.{◌≡◌};
    ghost use Rattle.pvd_codec.specs.Reading.{lifted_stop};

    ghost from_gives = { λ s e. e ≡ lifted_stop s };

    fn from(stop: Stop) -> ValueStop {
        match stop {
            Stop::Memory => ValueStop::Memory,
            Stop::Fault(cause, left) => ValueStop::Fault(ValueCause::Wire(cause), left),
        }
    }
}

impl From<DescStop> for ValueStop {
    ghost use Rattle.std.specs.Prelude.{◌≡◌};
    ghost use Rattle.pvd_codec.specs.Reading.{described_stop};

    ghost from_gives = { λ s e. e ≡ described_stop s };

    fn from(stop: DescStop) -> ValueStop {
        match stop {
            DescStop::Memory => ValueStop::Memory,
            DescStop::Fault(cause, left) => ValueStop::Fault(ValueCause::Desc(cause), left),
        }
    }
}

/// Why a value was refused. A place is the number of bytes before the first one of the faulty item,
/// from the start of the cursor's bytes.
#[derive(Clone, Copy, Debug, PartialEq, Eq)]
pub enum ValueFault {
    /// A size, a text, a number or a set of bits is faulty by itself.
    Wire(WireFault),
    /// An item of the description in a variant is faulty.
    Desc(DescFault),
    /// The selector at this place is at or above the count of the union's members.
    BadSelector(u32, usize),
    /// The set of bits at this place has this bit, the least one at or above the count of the type's
    /// nodes.
    BitOutside(u64, usize),
    /// The boolean, or the flag of an element that may be null, at this place is this byte above 1.
    BadBool(u8, usize),
    /// The size at this place is above the bound of its text or list.
    OverBound(u32, usize),
    /// The description at this place would be that of a variant inside sixteen others.
    TooNested(usize),
    /// Memory ran out.
    NoMemory,
}

impl From<NoMemory> for ValueFault {
    ghost use Rattle.std.specs.Prelude.{◌≡◌};
    ghost use Rattle.pvd_codec.specs.declared.fault.ValueFault.TheVariants as faults;

    ghost from_gives = { λ _ e. e ≡ faults.NoMemory };

    fn from(_e: NoMemory) -> ValueFault {
        ValueFault::NoMemory
    }
}
