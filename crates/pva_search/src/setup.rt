use pva_wire::Order;

/// What a server tells of itself.
#[derive(Clone, Copy, Debug, PartialEq, Eq)]
pub struct Setup {
    /// The 12 bytes that tell this server from all others, and from itself before it was started anew.
    pub guid: [u8; 12],
    /// The port that it serves TCP at.
    pub port: u16,
    /// The byte order of its beacons. A response has the order of its search.
    pub order: Order,
}
