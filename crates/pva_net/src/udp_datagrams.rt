// Datagrams over UDP.
ghost use Rattle.std.specs.Prelude.{◌≡◌, ◌≢◌, IfOk};
ghost use Rattle.pva_outside.specs.Traffic.{BindsDatagrams, Receives, Sends};
ghost use Rattle.std.specs.Counts.{IsPrefixLen};

use crate::addresses::{address_of, peer_at};
use crate::bell::Bell;
use crate::patience::patience;
use pva_outside::{BindStep, DatagramStep, Datagrams, Peer, Refusal, SendStep, raise, refusal_of};
use std::io;
use std::io::ErrorKind;
use std::net::{Net, SocketAddr, UdpSocket};

/// Datagrams over UDP, which may be broadcast.
///
/// A receive waits 50 ms at most, or not at all, and is then idle. Of the errors, `WouldBlock` and `Interrupted` are `Idle` where
/// something was to be received, `OutOfMemory` is `NoMemory`, and every other is a fault; before they are bound each call is a
/// fault. A datagram that the system takes in part is a fault, too. They tell neither addresses nor datagrams.
#[derive(Drop)]
pub struct UdpDatagrams<R: Net + Drop> {
    rt: R,
    bell: Option<Bell>,
    socket: Option<mio::net::UdpSocket>,
    faults: u64,
    idles: u64,
}

impl<R: Net + Drop> UdpDatagrams<R> {
    ghost use Rattle.pva_net.specs.UdpDatagrams.{udp_view, new_view};

    /// Datagrams over the network of the runtime `rt`, not bound, with counts of 0. A receive waits 50 ms at most.
    pub fn new(rt: R) -> UdpDatagrams<R>
        ensures { udp_view result ≡ new_view }
    {
        UdpDatagrams {
            rt,
            bell: None,
            socket: None,
            faults: 0,
            idles: 0,
        }
    }

    /// The same, where no receive waits: for a caller who waits in an accept, which ends when a datagram comes and rings the bell.
    pub fn ringing(rt: R, bell: Bell) -> UdpDatagrams<R>
        ensures { udp_view result ≡ new_view }
    {
        UdpDatagrams {
            rt,
            bell: Some(bell),
            socket: None,
            faults: 0,
            idles: 0,
        }
    }

    /// A socket at this address, and its port.
    fn open(&self, at: Peer) -> io::Result<(mio::net::UdpSocket, u16)>
        ensures { at.port ≢ 0 → IfOk result (λ opened. opened.1 ≡ at.port) }
    {
        let socket = UdpSocket::bind(&self.rt, address_of(at))?;
        socket.set_broadcast(true)?;
        let number = socket.local_addr()?.port();
        let socket = self.patient(socket)?;
        Ok((socket, if at.port == 0 { number } else { at.port }))
    }

    /// The socket, of which a receive waits, or which rings the bell.
    fn patient(&self, socket: UdpSocket) -> io::Result<mio::net::UdpSocket> {
        let Some(bell) = &self.bell else {
            socket.set_read_timeout(Some(patience()))?;
            return Ok(mio::net::UdpSocket::from_std(socket));
        };
        socket.set_nonblocking(true)?;
        let mut socket = mio::net::UdpSocket::from_std(socket);
        bell.hang(&mut socket)?;
        Ok(socket)
    }

    /// The socket, where one is bound.
    fn bound(&self) -> io::Result<&mio::net::UdpSocket> {
        match &self.socket {
            Some(socket) => Ok(socket),
            None => Err(io::Error::from(ErrorKind::NotConnected)),
        }
    }

    /// Receives one datagram.
    fn take(&self, buffer: &mut [u8]) -> io::Result<(usize, SocketAddr)>
        ensures { IfOk result (λ taken. IsPrefixLen taken.0 buffer.new) }
    {
        self.bound()?.recv_from(buffer)
    }

    /// Sends one datagram, and tells how much of it was sent.
    fn give(&self, bytes: &[u8], to: Peer) -> io::Result<usize> {
        self.bound()?.send_to(bytes, address_of(to))
    }
}

impl<R: Net + Drop> Datagrams for UdpDatagrams<R> {
    ghost use Rattle.pva_net.specs.UdpDatagrams.{udp_view};

    ghost datagrams = { udp_view };

    fn bind(&mut self, at: Peer) -> BindStep
        ensures { BindsDatagrams (udp_view self.old) (udp_view self.new) result at }
    {
        match self.open(at) {
            Ok((socket, number)) => {
                self.socket = Some(socket);
                BindStep::Bound(number)
            }
            Err(error) => match refusal_of(&error) {
                Refusal::NoMemory => BindStep::NoMemory,
                Refusal::Idle | Refusal::Fault => {
                    raise(&mut self.faults);
                    BindStep::Failed
                }
            },
        }
    }

    fn receive(&mut self, buffer: &mut [u8]) -> DatagramStep
        ensures { Receives (udp_view self.old) (udp_view self.new) result buffer.new }
    {
        match self.take(buffer) {
            Ok((count, from)) => DatagramStep::Got(count, peer_at(from)),
            Err(error) => match refusal_of(&error) {
                Refusal::Idle => {
                    raise(&mut self.idles);
                    DatagramStep::Idle
                }
                Refusal::NoMemory => DatagramStep::NoMemory,
                Refusal::Fault => {
                    raise(&mut self.faults);
                    DatagramStep::Failed
                }
            },
        }
    }

    fn send(&mut self, bytes: &[u8], to: Peer) -> SendStep
        ensures { Sends (udp_view self.old) (udp_view self.new) result bytes.now to }
    {
        match self.give(bytes, to) {
            Ok(count) if count == bytes.len() => SendStep::Sent,
            Ok(_) => {
                raise(&mut self.faults);
                SendStep::Failed
            }
            Err(error) => match refusal_of(&error) {
                Refusal::NoMemory => SendStep::NoMemory,
                Refusal::Idle | Refusal::Fault => {
                    raise(&mut self.faults);
                    SendStep::Failed
                }
            },
        }
    }
}
