// TCP connections to servers.
ghost use Rattle.std.specs.Prelude.{◌≡◌, IfOk};
ghost use Rattle.pva_outside.specs.Dials.{Dials, TakesBack};
ghost use Rattle.pva_net.specs.TcpLink.{tcp_wire, new_wire};

use crate::addresses::address_of;
use crate::pace::Pace;
use crate::patience::dial_patience;
use crate::tcp_link::TcpLink;
use pva_outside::{DialStep, Dialer, NoMemory, Peer, Refusal, raise, raise_by, refusal_of};
use std::io;
use std::net::{Net, TcpStream};

/// What connects to servers over TCP.
///
/// A dial waits 5 seconds at most. An error of kind `OutOfMemory` is `NoMemory`, and every other is a fault. It tells neither dials
/// nor links. A link that is taken back is let go, which closes its socket.
#[derive(Drop)]
pub struct TcpDialer<R: Net<Stream = TcpStream> + Drop> {
    rt: R,
    faults: u64,
    link_faults: u64,
    link_idles: u64,
    link_ends: u64,
}

impl<R: Net<Stream = TcpStream> + Drop> TcpDialer<R> {
    ghost use Rattle.pva_net.specs.TcpDialer.{tcp_dialer, new_dialer};

    /// A dialer over the network of the runtime `rt`, with counts of 0.
    pub fn new(rt: R) -> TcpDialer<R>
        ensures { tcp_dialer result ≡ new_dialer }
    {
        TcpDialer {
            rt,
            faults: 0,
            link_faults: 0,
            link_idles: 0,
            link_ends: 0,
        }
    }

    /// The link to the server at this address.
    fn connect(&self, to: Peer) -> io::Result<TcpLink>
        ensures { IfOk result (λ link. tcp_wire link ≡ new_wire) }
    {
        let stream = TcpStream::connect_timeout(&self.rt, &address_of(to), dial_patience())?;
        TcpLink::over(stream, Pace::of_client())
    }
}

impl<R: Net<Stream = TcpStream> + Drop> Dialer for TcpDialer<R> {
    ghost use Rattle.pva_net.specs.TcpDialer.{tcp_dialer};

    type Link = TcpLink;

    ghost dialer = { tcp_dialer };

    fn dial(&mut self, to: Peer) -> DialStep<TcpLink>
        ensures { Dials tcp_wire (tcp_dialer self.old) (tcp_dialer self.new) result to }
    {
        match self.connect(to) {
            Ok(link) => DialStep::Link(link),
            Err(error) => match refusal_of(&error) {
                Refusal::NoMemory => DialStep::NoMemory,
                Refusal::Idle | Refusal::Fault => {
                    raise(&mut self.faults);
                    DialStep::Failed
                }
            },
        }
    }

    fn retire(&mut self, link: TcpLink) -> Result<(), NoMemory>
        ensures { TakesBack (tcp_dialer self.old) (tcp_dialer self.new) (tcp_wire link) result }
    {
        raise_by(&mut self.link_faults, link.faults());
        raise_by(&mut self.link_idles, link.idles());
        raise_by(&mut self.link_ends, link.ends());
        Ok(())
    }
}
