ghost use Rattle.std.specs.Prelude.{◌≡◌};
ghost use Rattle.pvd_desc.specs.declared.fault.DescStop.TheVariants.{Memory};

use pva_wire::{Cause, Stop, WireFault};
use pvd_type::{NoMemory, TypeFault};
use std::alloc::AllocFailed;

/// What is wrong with an item of a description.
#[derive(Clone, Copy, Debug, PartialEq, Eq)]
pub enum DescCause {
    /// A size, a text or an id is faulty by itself.
    Wire(Cause),
    /// A node is more than a type allows.
    Shape(TypeFault),
    /// The byte stands for no type, or for none that may stand there.
    UnknownCode(u8),
    /// No type was defined under this id.
    UnknownId(u16),
}

impl DescCause {
    ghost use Rattle.std.specs.Prelude.{◌≡◌};
    ghost use Rattle.pvd_desc.specs.Faults.{fault_at};

    /// The fault of an item at this place.
    pub fn at(self, place: usize) -> DescFault
        ensures { result ≡ fault_at self place }
    {
        match self {
            DescCause::Wire(cause) => DescFault::Wire(cause.at(place)),
            DescCause::Shape(fault) => DescFault::Shape(fault, place),
            DescCause::UnknownCode(byte) => DescFault::UnknownCode(byte, place),
            DescCause::UnknownId(id) => DescFault::UnknownId(id, place),
        }
    }
}

/// Why a reader over a slice stopped: at a fault, with the number of bytes that are left from the
/// faulty item on, or for want of memory.
#[derive(Debug, Drop)]
pub enum DescStop {
    /// Memory ran out.
    Memory,
    /// What is wrong, and how many bytes are left from the faulty item on.
    Fault(DescCause, usize),
}

impl DescStop {
    ghost use Rattle.std.specs.Prelude.{◌≡◌};
    ghost use Rattle.pvd_desc.specs.Faults.{fault_of};

    /// The fault of a reader over the last bytes of a payload, at its place in the payload, which has
    /// `length` bytes.
    pub fn placed(self, length: usize) -> DescFault
        ensures { result ≡ fault_of length self }
    {
        match self {
            DescStop::Memory => DescFault::NoMemory,
            DescStop::Fault(cause, left) => cause.at(length.saturating_sub(left)),
        }
    }
}

impl From<NoMemory> for DescStop {
    ghost from_gives = { λ _ e. e ≡ Memory };

    fn from(_e: NoMemory) -> DescStop {
        DescStop::Memory
    }
}

impl<T: Drop> From<AllocFailed<T>> for DescStop {
    ghost from_gives = { λ _ e. e ≡ Memory };

    fn from(_e: AllocFailed<T>) -> DescStop {
        DescStop::Memory
    }
}

impl From<Stop> for DescStop {
    ghost use Rattle.std.specs.Prelude.{◌≡◌};
    ghost use Rattle.pvd_desc.specs.Reading.{lifted_stop};

    ghost from_gives = { λ s e. e ≡ lifted_stop s };

    fn from(stop: Stop) -> DescStop {
        match stop {
            Stop::Memory => DescStop::Memory,
            Stop::Fault(cause, left) => DescStop::Fault(DescCause::Wire(cause), left),
        }
    }
}

/// Why a description was refused. A place is the number of bytes before the first one of the faulty
/// item, from the start of the cursor's bytes.
#[derive(Clone, Copy, Debug, PartialEq, Eq)]
pub enum DescFault {
    /// A size, a text or an id is faulty by itself.
    Wire(WireFault),
    /// The node whose code stands at this place is more than a type allows.
    Shape(TypeFault, usize),
    /// The byte at this place stands for no type, or for none that may stand there.
    UnknownCode(u8, usize),
    /// The id at this place is none under which a type was defined.
    UnknownId(u16, usize),
    /// Memory ran out.
    NoMemory,
}

impl From<NoMemory> for DescFault {
    ghost use Rattle.std.specs.Prelude.{◌≡◌};
    ghost use Rattle.pvd_desc.specs.declared.fault.DescFault.TheVariants as faults;

    ghost from_gives = { λ _ e. e ≡ faults.NoMemory };

    fn from(_e: NoMemory) -> DescFault {
        DescFault::NoMemory
    }
}
