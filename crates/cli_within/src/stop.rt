// How an exchange ends.
ghost use Rattle.std.specs.Prelude.{◌≡◌};
ghost use Rattle.cli_within.specs.Running as running;

use cli_session::ClientFault;
use pva_frames::FrameFault;

/// How an operation ended.
#[derive(Clone, Copy, Debug, PartialEq, Eq)]
pub enum Ending {
    /// All was done.
    Finished,
    /// The server refused it.
    Refused,
}

/// Why an end of an exchange can't go on.
#[derive(Clone, Copy, Debug, PartialEq, Eq)]
pub enum Stop {
    /// The server's bytes have a message that the client doesn't take, or its words give no value.
    Client(ClientFault),
    /// The server's bytes have a header that is refused.
    Frame(FrameFault),
    /// A print failed.
    Sink,
    /// Memory ran out.
    NoMemory,
}

/// How an exchange ended.
#[derive(Clone, Copy, Debug, PartialEq, Eq)]
pub enum End {
    /// The operation ended.
    Told(Ending),
    /// An end couldn't go on.
    Stopped(Stop),
    /// The server's end closed before the operation ended.
    Closed,
    /// Neither end had a byte for as many rounds as end a run.
    Idle,
    /// All rounds were made, and a further one was due.
    Spent,
}

/// What the exit status tells.
#[derive(Clone, Copy, Debug, PartialEq, Eq)]
pub enum Status {
    /// The operation is done.
    Done,
    /// The server refused it.
    Refused,
    /// The words aren't taken, or give no value of the channel.
    Words,
    /// No server answered that it has the channel.
    Unfound,
    /// A file can't be read, a port can't be made, a print or the network failed, or the server's end closed before the operation
    /// ended.
    Outside,
    /// The server's bytes are at fault. A server within says none that are, but where a payload has more than 67,108,864 bytes.
    Stream,
    /// Neither end had a byte any more.
    Idle,
    /// Memory ran out, at either end.
    NoMemory,
    /// The database text is at fault.
    Site,
    /// The rounds were spent.
    Spent,
}

impl Status {
    /// Its number.
    pub fn number(self) -> u8
        ensures { result ≡ running.number_of self }
    {
        match self {
            Status::Done => 0,
            Status::Refused => 1,
            Status::Words => 2,
            Status::Unfound => 3,
            Status::Outside => 4,
            Status::Stream => 5,
            Status::Idle => 6,
            Status::NoMemory => 7,
            Status::Site => 8,
            Status::Spent => 9,
        }
    }
}

/// The status of a client's fault.
fn status_of_fault(fault: ClientFault) -> Status
    ensures { result ≡ running.status_of_fault fault }
{
    match fault {
        ClientFault::Words(_) => Status::Words,
        ClientFault::NoMemory => Status::NoMemory,
        _ => Status::Stream,
    }
}

/// The status of an end that couldn't go on.
pub fn status_of_stop(stop: Stop) -> Status
    ensures { result ≡ running.status_of_stop stop }
{
    match stop {
        Stop::Client(fault) => status_of_fault(fault),
        Stop::Frame(_) => Status::Stream,
        Stop::Sink => Status::Outside,
        Stop::NoMemory => Status::NoMemory,
    }
}

/// The status that tells how an exchange ended.
pub fn status_of(end: End) -> Status
    ensures { result ≡ running.status_of end }
{
    match end {
        End::Told(Ending::Finished) => Status::Done,
        End::Told(Ending::Refused) => Status::Refused,
        End::Stopped(stop) => status_of_stop(stop),
        End::Closed => Status::Outside,
        End::Idle => Status::Idle,
        End::Spent => Status::Spent,
    }
}
