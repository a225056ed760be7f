// How an operation over the network ends.
ghost use Rattle.std.specs.Prelude.{◌≡◌};
ghost use Rattle.prog_client.specs.Networking as networking;

use cli_within::{Ending, Status, Stop, status_of_stop};

/// How long an operation over a link goes on.
#[derive(Clone, Copy, Debug, PartialEq, Eq)]
pub struct Patience {
    /// How often nothing moves, one time after another, until it ends.
    pub idle: u64,
    /// How many calls of the link it may make.
    pub turns: u64,
}

/// How an operation over the network ended.
#[derive(Clone, Copy, Debug, PartialEq, Eq)]
pub enum Outcome {
    /// The operation ended, and all that the client says was taken.
    Told(Ending),
    /// The client couldn't go on.
    Stopped(Stop),
    /// The server ended the stream before the operation ended.
    Closed,
    /// The datagrams, the dialer or the link failed.
    Failed,
    /// No server answered that it has the channel.
    Unfound,
    /// Nothing moved any more.
    Idle,
    /// All turns were made, and a further one was due.
    Spent,
}

/// The status that tells how an operation over the network ended.
pub fn status_of_outcome(outcome: Outcome) -> Status
    ensures { result ≡ networking.status_of outcome }
{
    match outcome {
        Outcome::Told(Ending::Finished) => Status::Done,
        Outcome::Told(Ending::Refused) => Status::Refused,
        Outcome::Stopped(stop) => status_of_stop(stop),
        Outcome::Closed | Outcome::Failed => Status::Outside,
        Outcome::Unfound => Status::Unfound,
        Outcome::Idle => Status::Idle,
        Outcome::Spent => Status::Spent,
    }
}
