// Addresses in cases.
use case_files::{CaseFault, Entry};
use pva_outside::Peer;
use std::alloc::{AllocError, Global};

/// The address of an entry, which is its key: A.B.C.D:PORT.
pub fn peer_of(alloc: Global, entry: Entry<'_>) -> Result<Peer, CaseFault> {
    match prog_client::read_address(alloc, entry.key) {
        Ok(Some(peer)) => Ok(peer),
        Ok(None) => Err(CaseFault::At(entry.line, "this is no address A.B.C.D:PORT")),
        Err(_) => Err(CaseFault::NoMemory),
    }
}

/// The text of an address: A.B.C.D:PORT, or the sixteen bytes of one that maps no IPv4 address.
pub fn peer_text(alloc: Global, peer: Peer) -> Result<String, AllocError> {
    let port = peer.port;
    match peer.address {
        [0, 0, 0, 0, 0, 0, 0, 0, 0, 0, 0xFF, 0xFF, a, b, c, d] => {
            format!(in alloc; "{a}.{b}.{c}.{d}:{port}")
        }
        address => format!(in alloc; "{address:?}:{port}"),
    }
}
