// Datagrams each way.
ghost use Rattle.pva_outside.specs.Traffic.{DatagramsView, BindsDatagrams, Receives, Sends};

use crate::Peer;
use crate::binding::BindStep;

/// What one call of `Datagrams::receive` came to.
#[derive(Clone, Copy, Debug, PartialEq, Eq)]
pub enum DatagramStep {
    /// A datagram of so many bytes, which now stand at the front of the buffer, and who sent it. What of a datagram doesn't fit
    /// the buffer is lost.
    Got(usize, Peer),
    /// Nothing came in this call. The count of idles rose.
    Idle,
    /// The socket failed. The count of faults rose.
    Failed,
    /// Memory ran out. Nothing was received and no count rose.
    NoMemory,
}

/// What one call of `Datagrams::send` came to.
#[derive(Clone, Copy, Debug, PartialEq, Eq)]
pub enum SendStep {
    /// The datagram was handed on. Nothing is said of its arrival.
    Sent,
    /// It couldn't be sent. The count of faults rose.
    Failed,
    /// Memory ran out. Nothing was tried and no count rose.
    NoMemory,
}

/// Datagrams each way, as a UDP socket has them for searches and beacons (pvAccess Protocol Specification, "Channel Discovery").
///
/// They count their faults and their idles. A count never falls, and stands still at 2^64 - 1. Those in memory tell where they
/// were bound, and what was received and sent; those of the system tell none of it.
pub trait Datagrams {
    /// What contracts see of them.
    ghost datagrams: { Self → DatagramsView };

    /// Receives and sends at this address from now on. At port 0 it may choose the port.
    fn bind(&mut self, at: Peer) -> BindStep
        ensures { BindsDatagrams (datagrams self.old) (datagrams self.new) result at };

    /// Puts the next datagram at the front of the buffer.
    fn receive(&mut self, buffer: &mut [u8]) -> DatagramStep
        ensures { Receives (datagrams self.old) (datagrams self.new) result buffer.new };

    /// Sends these bytes as one datagram.
    fn send(&mut self, bytes: &[u8], to: Peer) -> SendStep
        ensures { Sends (datagrams self.old) (datagrams self.new) result bytes.now to };
}
