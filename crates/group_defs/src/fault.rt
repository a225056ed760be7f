use pvd_type::{Name, NoMemory, TypeFault};
use std::alloc::{AllocError, AllocFailed};

/// Why groups can't be defined. BadJson, UnknownKey, SameMember and BadMember name the record whose text is at fault,
/// or the group where they are found while its type is built; the others name the group.
#[derive(Debug, Drop)]
pub enum GroupFault {
    /// A text, once its bare keys are in quotes, is no JSON, nests deeper than 128 levels, or is no object of objects.
    BadJson(Name),
    /// A key that begins with `+` is none that stands there.
    UnknownKey(Name),
    /// A member is named twice in its group.
    SameMember(Name),
    /// A trigger names no member of the group.
    UnknownTrigger(Name),
    /// A record, or its `.VAL` or `.DESC`, has the group's name.
    NameTaken(Name),
    /// A value is of another type than its key asks, a channel is missing or not allowed, or a member's name is not
    /// allowed.
    BadMember(Name),
    /// The group's members make no type.
    Shape(TypeFault),
    /// There are so many groups, more than 1,024, or so many members in one, more than 256.
    TooMany(usize),
    /// Memory ran out, or there are 2^32 records or more.
    NoMemory,
}

/// Why the text of one record can't be read on.
#[derive(Clone, Copy)]
pub(crate) enum Stop {
    BadJson,
    UnknownKey,
    SameMember,
    BadMember,
    NoMemory,
}

impl From<NoMemory> for Stop {
    ghost use Rattle.std.specs.Prelude.{◌≡◌};
    ghost use Rattle.group_defs.specs.declared.fault.Stop.TheVariants as stops;

    ghost from_gives = { λ _ e. e ≡ stops.NoMemory };

    fn from(_e: NoMemory) -> Stop {
        Stop::NoMemory
    }
}

impl From<AllocError> for Stop {
    ghost use Rattle.std.specs.Prelude.{◌≡◌};
    ghost use Rattle.group_defs.specs.declared.fault.Stop.TheVariants as stops;

    ghost from_gives = { λ _ e. e ≡ stops.NoMemory };

    fn from(_e: AllocError) -> Stop {
        Stop::NoMemory
    }
}

impl<T: Drop> From<AllocFailed<T>> for Stop {
    ghost use Rattle.std.specs.Prelude.{◌≡◌};
    ghost use Rattle.group_defs.specs.declared.fault.Stop.TheVariants as stops;

    ghost from_gives = { λ _ e. e ≡ stops.NoMemory };

    fn from(_e: AllocFailed<T>) -> Stop {
        Stop::NoMemory
    }
}

impl From<NoMemory> for GroupFault {
    ghost use Rattle.std.specs.Prelude.{◌≡◌};
    ghost use Rattle.group_defs.specs.declared.fault.GroupFault.TheVariants as faults;

    ghost from_gives = { λ _ e. e ≡ faults.NoMemory };

    fn from(_e: NoMemory) -> GroupFault {
        GroupFault::NoMemory
    }
}

impl From<AllocError> for GroupFault {
    ghost use Rattle.std.specs.Prelude.{◌≡◌};
    ghost use Rattle.group_defs.specs.declared.fault.GroupFault.TheVariants as faults;

    ghost from_gives = { λ _ e. e ≡ faults.NoMemory };

    fn from(_e: AllocError) -> GroupFault {
        GroupFault::NoMemory
    }
}

impl<T: Drop> From<AllocFailed<T>> for GroupFault {
    ghost use Rattle.std.specs.Prelude.{◌≡◌};
    ghost use Rattle.group_defs.specs.declared.fault.GroupFault.TheVariants as faults;

    ghost from_gives = { λ _ e. e ≡ faults.NoMemory };

    fn from(_e: AllocFailed<T>) -> GroupFault {
        GroupFault::NoMemory
    }
}
