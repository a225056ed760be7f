ghost use Rattle.std.specs.Prelude.{◌≡◌};
ghost use Rattle.cli_session.specs.Messages.{put_id, window_of};
ghost use Rattle.cli_session.specs.State.{updates_of};
ghost use Rattle.cli_session.specs.Steps.{words_of};

use pvd_type::Name;

/// What a client does with a channel (pvAccess Protocol Specification, "Application Messages"). Its requests
/// have the id 1, but for the put that brings the present value for a put-get, which has 2.
#[derive(Drop)]
pub enum Operation {
    /// Gets the value once.
    Get,
    /// Puts what the words give over the present value. Without a word it fails as where the first word names
    /// no field.
    Put(Vec<Name>),
    /// As a put, and gets the value that came of it.
    PutGet(Vec<Name>),
    /// Gets values as they change.
    Monitor {
        /// How many updates the server is to keep at most; it takes what it can.
        queue: u32,
        /// How many updates the server may send before the first is acknowledged, where it is to wait for
        /// that.
        window: Option<u32>,
        /// After how many updates the operation ends; 0 counts as 1.
        count: u32,
    },
    /// Gets the type.
    Info,
    /// Calls the operation of this name of a service, without arguments.
    Call(Name),
}

/// An operation on a channel.
#[derive(Drop)]
pub struct Ask {
    /// The channel.
    pub name: Name,
    /// What is done with it.
    pub operation: Operation,
    /// The paths of the fields that a get, a put-get or a monitor is for, names with dots between them; all
    /// fields where there are none. Of a path 30 names count. An empty name, or more names than a type has
    /// nodes (4,096), is told as want of memory.
    pub fields: Vec<Name>,
    /// Whether a get, a put or a put-get of a group is to be atomic; none leaves it to the server.
    pub atomic: Option<bool>,
    /// The user and the host that the server is told.
    pub user: Option<(Name, Name)>,
}

impl Operation {
    /// The id of the request that puts, or that brings the present value for a put-get.
    pub(crate) fn put_id(&self) -> u32
        ensures { result ≡ put_id self.now }
    {
        match self {
            Operation::PutGet(_) => 2,
            _ => 1,
        }
    }

    /// The words of a put.
    pub(crate) fn words(&self) -> &[Name]
        ensures { result.now ≡ words_of self.now }
    {
        match self {
            Operation::Put(words) => words,
            Operation::PutGet(words) => words,
            _ => &[],
        }
    }

    /// The window of a monitor.
    pub(crate) fn window(&self) -> Option<u32>
        ensures { result ≡ window_of self.now }
    {
        match self {
            Operation::Monitor { window, .. } => *window,
            _ => None,
        }
    }

    /// How many updates a monitor awaits.
    pub(crate) fn updates(&self) -> u32
        ensures { result ≡ updates_of self.now }
    {
        match self {
            Operation::Monitor { count, .. } => *count,
            _ => 0,
        }
    }
}
