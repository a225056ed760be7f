// How exchanges end.
ghost use Rattle.std.specs.Prelude.{◌≡◌, true, map};
ghost use Rattle.cli_session.specs.Fitting.{all_fit};
ghost use Rattle.cli_session.specs.Seen.{report_view};

use cli_session::{ClientFault, Report};
use pva_frames::FrameFault;

/// How an exchange ended.
#[derive(Clone, Copy, Debug, PartialEq, Eq)]
pub enum ExchangeEnd {
    /// The operation ended, and all that the client says was written, its request to let the channel go
    /// too.
    Done,
    /// The server ended its stream before that.
    EarlyEnd,
    /// The link failed.
    LinkFault,
    /// So often, which is the limit that was given, no byte moved in a call of the link.
    IdleLimit(u32),
    /// So many calls of the link were made, which is the limit that was given, and a further one was due.
    Spent(u64),
    /// This header of the server's stream was refused, before the operation had ended. The fault has its
    /// place.
    Frame(FrameFault),
    /// The client didn't take a message of the server.
    Client(ClientFault),
    /// Memory ran out.
    NoMemory,
}

/// What an exchange gives.
#[derive(Drop)]
pub struct Outcome<L> {
    /// What the client told, in order. The values fit their types.
    pub reports: Vec<Report>,
    /// Why the exchange ended.
    pub end: ExchangeEnd,
    /// The link, handed back. It isn't closed.
    pub link: L,
    ghost fit: { all_fit (map report_view reports.items) ≡ true },
}

/// How long an exchange goes on.
#[derive(Clone, Copy)]
pub(crate) struct Patience {
    /// So often in a row no byte may move in a call of the link.
    pub(crate) idle: u32,
    /// So many calls of the link may be made.
    pub(crate) turns: u64,
}

/// What a step of an exchange came to.
#[derive(Drop)]
pub(crate) enum Step {
    /// The client told this.
    Told(Report),
    /// Nothing more can be done now.
    Waits,
    /// The exchange has ended.
    Ended(ExchangeEnd),
}
