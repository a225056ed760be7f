ghost use Rattle.std.specs.Prelude.{◌≡◌};
ghost use Rattle.pva_wire.specs.declared.fault.Stop.TheVariants.{Memory};

use pvd_type::NoMemory;

/// What is wrong with an item.
#[derive(Clone, Copy, Debug, PartialEq, Eq)]
pub enum Cause {
    /// The bytes end inside the item.
    Short,
    /// A number is outside the range that its item allows.
    Range,
    /// The bytes of a text are no UTF-8.
    NotUtf8,
    /// A size is null where a number has to stand.
    NullSize,
}

impl Cause {
    ghost use Rattle.std.specs.Prelude.{◌≡◌};
    ghost use Rattle.pva_wire.specs.Faults.{fault_at};

    /// The fault of an item at this place.
    pub fn at(self, place: usize) -> WireFault
        ensures { result ≡ fault_at self place }
    {
        match self {
            Cause::Short => WireFault::Short(place),
            Cause::Range => WireFault::Range(place),
            Cause::NotUtf8 => WireFault::NotUtf8(place),
            Cause::NullSize => WireFault::NullSize(place),
        }
    }
}

/// Why a reader over a slice stopped: at a fault, with the number of bytes that are left from the
/// faulty item on, or for want of memory.
#[derive(Debug, Drop)]
pub enum Stop {
    /// Memory ran out.
    Memory,
    /// What is wrong, and how many bytes are left from the faulty item on.
    Fault(Cause, usize),
}

impl Stop {
    ghost use Rattle.std.specs.Prelude.{◌≡◌};
    ghost use Rattle.pva_wire.specs.Faults.{fault_of};

    /// The fault of a reader over the last bytes of a payload, at its place in the payload, which has
    /// `length` bytes.
    pub fn placed(self, length: usize) -> WireFault
        ensures { result ≡ fault_of length self }
    {
        match self {
            Stop::Memory => WireFault::NoMemory,
            Stop::Fault(cause, left) => cause.at(length.saturating_sub(left)),
        }
    }
}

impl From<NoMemory> for Stop {
    ghost from_gives = { λ _ e. e ≡ Memory };

    fn from(_e: NoMemory) -> Stop {
        Stop::Memory
    }
}

/// A fault with the place of its item's first byte, counted in bytes from the start of the cursor's
/// bytes; or want of memory.
#[derive(Clone, Copy, Debug, PartialEq, Eq)]
pub enum WireFault {
    /// The bytes end inside the item at this place.
    Short(usize),
    /// The number at this place is outside the range that its item allows.
    Range(usize),
    /// The bytes of the text at this place are no UTF-8.
    NotUtf8(usize),
    /// The size at this place is null where a number has to stand.
    NullSize(usize),
    /// Memory ran out.
    NoMemory,
}
