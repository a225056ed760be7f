// What connects to servers.
ghost use Rattle.pva_outside.specs.Dials.{DialerView, Dials, TakesBack};

use crate::no_memory::NoMemory;
use crate::{Link, Peer};

/// What one call of `Dialer::dial` came to.
#[derive(Debug, Drop)]
pub enum DialStep<L> {
    /// The link to the server.
    Link(L),
    /// No server answered there. The count of faults rose.
    Failed,
    /// Memory ran out. Nothing was dialed and no count rose.
    NoMemory,
}

/// What connects to servers, as a client does over TCP (pvAccess Protocol Specification, "Connection Management").
///
/// A dialer counts its faults, and sums up the faults, the idles and the ends of the links taken back. A count never falls, and
/// stands still at 2^64 - 1. A dialer in memory tells its dials, what the links that it gave bring, and the links taken back; one
/// of the system tells none of it.
pub trait Dialer {
    /// The link to a server.
    type Link: Link + Drop;

    /// What contracts see of it.
    ghost dialer: { Self → DialerView };

    /// Connects to the server at this address, and gives the link to it: nothing was written to it, and its counts are 0.
    fn dial(&mut self, to: Peer) -> DialStep<Self::Link>
        ensures { Dials Self.Link.wire (dialer self.old) (dialer self.new) result to };

    /// Takes back a link that is no longer used, and adds its counts to those of the links taken back.
    fn retire(&mut self, link: Self::Link) -> Result<(), NoMemory>
        ensures { TakesBack (dialer self.old) (dialer self.new) (Self.Link.wire link) result };
}
