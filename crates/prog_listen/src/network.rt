// What reaches the network.
use pva_outside::{Datagrams, Listener};

/// What reaches the network.
#[derive(Drop)]
pub struct Network<A: Listener + Drop, G: Datagrams + Drop> {
    /// Where clients connect to.
    pub listener: A,
    /// What carries searches, their responses and beacons.
    pub datagrams: G,
}
