// Where clients come from.
ghost use Rattle.pva_outside.specs.Doors.{Door, BindsDoor, Accepts, Retires};

use crate::binding::BindStep;
use crate::no_memory::NoMemory;
use crate::{Link, Peer};

/// What one call of `Listener::accept` came to.
#[derive(Debug, Drop)]
pub enum AcceptStep<L> {
    /// The link to a client. The count of links rose.
    Link(L),
    /// No client will come any more.
    End,
    /// Nobody came in this call, and somebody may in a later one. The count of idles rose.
    Idle,
    /// The listener failed. The count of faults rose.
    Failed,
    /// Memory ran out. Nobody was accepted and no count rose.
    NoMemory,
}

/// Where clients come from, as a TCP port at which a server listens (pvAccess Protocol Specification, "Connection Management").
///
/// A listener counts its faults, its idles, the accepts that it answered and the links that it gave. A count never falls, and
/// stands still at 2^64 - 1. A listener in memory tells where it was bound, who will come, and the links taken back; one of the
/// system tells none of it. Where those who will come are told, `End` comes only where nobody is left.
pub trait Listener {
    /// The link to a client. It may be moved to another thread.
    type Link: Link + Send + Drop;

    /// What contracts see of it.
    ghost door: { Self → Door };

    /// Listens at this address. At port 0 it may choose the port.
    fn bind(&mut self, at: Peer) -> BindStep
        ensures { BindsDoor (door self.old) (door self.new) result at };

    /// Gives the link to the next client: nothing was written to it, and its counts are 0.
    fn accept(&mut self) -> AcceptStep<Self::Link>
        ensures { Accepts Self.Link.wire (door self.old) (door self.new) result };

    /// Takes back a link whose session has ended.
    fn retire(&mut self, link: Self::Link) -> Result<(), NoMemory>
        ensures { Retires (door self.old) (door self.new) (Self.Link.wire link) result };
}
