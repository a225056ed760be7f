// What a server of many clients is asked for.
ghost use Rattle.std.specs.Prelude.{◌≡◌};
ghost use Rattle.prog_listen.specs.Setups as specs;

use pva_outside::Peer;
use pva_wire::Order;

/// What a server of many clients is asked for.
#[derive(Clone, Copy, Debug, PartialEq, Eq)]
pub struct Listening {
    /// Where clients connect to. At port 0 the listener picks the port.
    pub at: Peer,
    /// The port, at the same address, that searches come to. At 0 it is picked.
    pub udp: u16,
    /// Where beacons go, if any are to be sent.
    pub beacon: Option<Peer>,
    /// What tells this server from all others, and from itself before it was started anew. Without it, it is made of the moment at
    /// which the server begins.
    pub guid: Option<[u8; 12]>,
    /// The byte order of its messages.
    pub order: Order,
    /// What the entries of the history may weigh together.
    pub journal: u64,
    /// How many accepts are made at the most.
    pub turns: u32,
}

impl Listening {
    /// Where searches come to.
    pub(crate) fn searches_at(&self) -> Peer
        ensures { result ≡ specs.searches_at self.now }
    {
        Peer {
            address: self.at.address,
            port: self.udp,
        }
    }
}
