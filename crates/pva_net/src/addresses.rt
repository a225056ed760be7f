// Peers as addresses of the system.
ghost use Rattle.std.specs.Prelude.{◌≡◌};
ghost use Rattle.std.specs.Net.Socket.{socket_ip, socket_port};
ghost use Rattle.pva_net.specs.Addresses.{bytes_of_ip};

use pva_outside::Peer;
use std::net::{IpAddr, Ipv6Addr, SocketAddr};

/// The address that has these 16 bytes: IPv4 where that is mapped into IPv6 (RFC 4291, section 2.5.5.2).
fn ip_of(bytes: [u8; 16]) -> IpAddr
    ensures { bytes_of_ip result ≡ bytes }
{
    Ipv6Addr::from_octets(bytes).to_canonical()
}

/// The address of a peer.
pub(crate) fn address_of(peer: Peer) -> SocketAddr
    ensures address { bytes_of_ip (socket_ip result) ≡ peer.address }
    ensures port { socket_port result ≡ peer.port }
{
    SocketAddr::new(ip_of(peer.address), peer.port)
}

/// The 16 bytes of an address, of IPv4 as IPv6 maps it.
fn bytes_of(ip: IpAddr) -> [u8; 16]
    ensures { result ≡ bytes_of_ip ip }
{
    match ip {
        IpAddr::V4(ip) => {
            let [a, b, c, d] = ip.octets();
            [0, 0, 0, 0, 0, 0, 0, 0, 0, 0, 0xFF, 0xFF, a, b, c, d]
        }
        IpAddr::V6(ip) => ip.octets(),
    }
}

/// The peer at an address.
pub(crate) fn peer_at(address: SocketAddr) -> Peer
    ensures address { result.address ≡ bytes_of_ip (socket_ip address) }
    ensures port { result.port ≡ socket_port address }
{
    Peer {
        address: bytes_of(address.ip()),
        port: address.port(),
    }
}
