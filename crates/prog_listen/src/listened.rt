// How a server of many clients ended.
ghost use Rattle.std.specs.Prelude.{◌≡◌};
ghost use Rattle.prog_listen.specs.Listening as specs;

use prog_source::SourceStop;
use srv_host::Hosted;

/// How a server of many clients ended.
#[derive(Clone, Copy, Debug, PartialEq, Eq)]
pub enum Listened {
    /// No client will come any more, or as many accepts were made as may be.
    Finished,
    /// The file of its source can't be read.
    Unread,
    /// The text of its source is at fault.
    Faulty,
    /// A port of its records can't be made.
    Unmade,
    /// Its listener can't be bound.
    Unbound,
    /// Its datagrams can't be bound, so that it can't be found by searches.
    Unsearchable,
    /// The line that tells that clients may come can't be printed.
    Unprinted,
    /// Its listener failed.
    AcceptFault,
    /// Memory ran out.
    NoMemory,
}

/// How a server ended whose source gives no site.
pub(crate) fn end_of_source(stop: SourceStop) -> Listened
    ensures { result ≡ specs.end_of_source stop }
{
    match stop {
        SourceStop::Unread => Listened::Unread,
        SourceStop::Fault(_) => Listened::Faulty,
        SourceStop::NoMemory => Listened::NoMemory,
    }
}

/// How a server ended whose host answered so.
pub(crate) fn end_of_host(hosted: Hosted) -> Listened
    ensures { result ≡ specs.end_of_host hosted }
{
    match hosted {
        Hosted::Finished(_) => Listened::Finished,
        Hosted::AcceptFault(_) => Listened::AcceptFault,
        Hosted::NoMemory(_) => Listened::NoMemory,
    }
}
