// Where the other end of a connection or a datagram is.

/// An address and a port. An IPv4 address is ten zero bytes, FF, FF and its four bytes, as IPv6 maps it
/// (RFC 4291, section 2.5.5.2).
#[derive(Clone, Copy, Debug, PartialEq, Eq)]
pub struct Peer {
    /// The 16 bytes of the IPv6 address.
    pub address: [u8; 16],
    /// The port, 0 to 65,535.
    pub port: u16,
}
