use pvd_type::{BitSet, Name, NoMemory};

/// The member of a request structure under which its fields stand.
#[derive(Clone, Copy, Debug, PartialEq, Eq)]
pub enum Root {
    /// `field`.
    Field,
    /// `getField`, for what a put-get gives back; `field` where the request has no such member.
    GetField,
}

/// What a request asks of a channel.
#[derive(Drop)]
pub struct Request {
    /// The numbers of the leaves that are selected, at least one (pvAccess Protocol Specification, "Field numbering").
    pub mask: BitSet,
    /// Whether all members of a group are read or written at once, where the request says so (QSRV manual, "atomic").
    pub atomic: Option<bool>,
    /// How many updates a monitor's queue holds: 1 to 64.
    pub queue: u32,
    /// Whether a monitor waits for acknowledgements.
    pub pipeline: bool,
}

/// Why a request asks nothing of a channel.
#[derive(Debug, Drop)]
pub enum RequestFault {
    /// No leaf of the channel is selected.
    NothingSelected,
    /// The option of this name, `queueSize`, `atomic` or `pipeline`, has a text or a type that it can't have.
    BadOption(Name),
    /// The memory that the call needed couldn't be had.
    NoMemory,
}

impl From<NoMemory> for RequestFault {
    ghost use Rattle.std.specs.Prelude.{◌≡◌};
    ghost use Rattle.pvd_request.specs.declared.request.RequestFault.TheVariants as faults;

    ghost from_gives = { λ _ e. e ≡ faults.NoMemory };

    fn from(_: NoMemory) -> RequestFault {
        RequestFault::NoMemory
    }
}
