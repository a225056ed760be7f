// Addresses in cases.
use case_files::{CaseFault, Entry};
use pva_search::Peer;
use std::alloc::{AllocError, Global};
use std::net::{IpAddr, Ipv6Addr, SocketAddr};

/// The 16 bytes of an address, of IPv4 as IPv6 maps it.
fn bytes_of(ip: IpAddr) -> [u8; 16] {
    match ip {
        IpAddr::V4(ip) => ip.to_ipv6_mapped().octets(),
        IpAddr::V6(ip) => ip.octets(),
    }
}

/// The peer at the address that is an entry's key: A.B.C.D:PORT, or [ADDRESS]:PORT of IPv6.
pub fn peer_of(entry: Entry<'_>) -> Result<Peer, CaseFault> {
    match entry.key.parse::<SocketAddr>() {
        Ok(at) => Ok(Peer {
            address: bytes_of(at.ip()),
            port: at.port(),
        }),
        Err(_) => Err(CaseFault::At(
            entry.line,
            "this is no address A.B.C.D:PORT or [ADDRESS]:PORT",
        )),
    }
}

/// The text of an address, as `peer_of` reads it.
pub fn peer_text(alloc: Global, peer: Peer) -> Result<String, AllocError> {
    let ip = Ipv6Addr::from_octets(peer.address).to_canonical();
    SocketAddr::new(ip, peer.port).to_string(alloc)
}
