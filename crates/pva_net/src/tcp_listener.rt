// A TCP port that clients connect to.
ghost use Rattle.std.specs.Prelude.{◌≡◌, ◌≢◌, IfOk};
ghost use Rattle.pva_outside.specs.Doors.{BindsDoor, Accepts, Retires};
ghost use Rattle.pva_net.specs.TcpLink.{tcp_wire, new_wire};

use crate::addresses::address_of;
use crate::bell::Bell;
use crate::pace::Pace;
use crate::patience::{patience, pause};
use crate::refusal_at_accept::refusal_at_accept;
use crate::tcp_link::TcpLink;
use mio::{Events, Interest, Poll, Token};
use pva_outside::{AcceptStep, BindStep, Listener, NoMemory, Peer, Refusal, raise, refusal_of};
use std::alloc::Global;
use std::io::ErrorKind;
use std::net::{Net, TcpStream};
use std::rt::Clock;
use std::{io, thread};

/// A TCP port that clients connect to.
///
/// An accept waits 50 ms at most for a client, or until its bell rings, and is then idle; where bells ring on, it is idle at most 1,000
/// times a second. It never ends. Where an error comes, `WouldBlock` and `Interrupted` are `Idle`, and so are errors of a connection
/// that came and went, and a want of descriptors or buffers, behind that wait; `OutOfMemory` is `NoMemory`, and every other is a
/// fault; before it is bound each accept is a fault. It tells neither addresses nor links. A link that is taken back is let go, which
/// closes its socket.
#[derive(Drop)]
pub struct TcpListener<R: Net + Clock + Drop> {
    rt: R,
    poll: Poll,
    events: Events<Global>,
    socket: Option<mio::net::TcpListener>,
    // The last accept that found nobody was woken before its wait was over.
    was_woken: bool,
    // After how many seconds a silent client is given up. 0: never.
    silence: u32,
    faults: u64,
    idles: u64,
    accepts: u64,
    links: u64,
}

/// The link over a connection that came. One that has gone already is no fault of the listener.
fn link_over(stream: TcpStream, silence: u32) -> io::Result<TcpLink>
    ensures { IfOk result (λ link. tcp_wire link ≡ new_wire) }
{
    match TcpLink::over(stream, Pace::of_server(silence)) {
        Ok(link) => Ok(link),
        Err(error) if error.kind() == ErrorKind::OutOfMemory => Err(error),
        Err(_) => Err(io::Error::from(ErrorKind::ConnectionAborted)),
    }
}

/// The link to a client who is there. `WouldBlock`: nobody is.
fn take(socket: &mio::net::TcpListener, silence: u32) -> io::Result<TcpLink>
    ensures { IfOk result (λ link. tcp_wire link ≡ new_wire) }
{
    let (stream, _) = socket.accept()?;
    link_over(TcpStream::from(stream), silence)
}

/// Waits until something comes, 50 ms at most. Where the wait before was ended in vain, its first millisecond passes whatever comes.
fn wait<R: Clock>(
    rt: &R,
    poll: &mut Poll,
    events: &mut Events<Global>,
    was_woken: bool,
) -> io::Result<()> {
    if was_woken {
        thread::sleep(rt, pause());
    }
    poll.poll(events, Some(patience()))
}

impl<R: Net + Clock + Drop> TcpListener<R> {
    ghost use Rattle.pva_net.specs.TcpListener.{tcp_door, new_door};

    /// A listener over the network of the runtime `rt`, not bound, with counts of 0. Its links fail behind so many seconds in which
    /// their reads got nothing, or their writes gave nothing; never at 0. An error is the system's, which gives nothing to wait with,
    /// or that of memory.
    pub fn new(rt: R, alloc: Global, silence: u32) -> io::Result<TcpListener<R>>
        ensures { IfOk result (λ listener. tcp_door listener ≡ new_door) }
    {
        let poll = Poll::new(&rt)?;
        let events = Events::with_capacity(alloc, 2)?;
        Ok(TcpListener {
            rt,
            poll,
            events,
            socket: None,
            was_woken: false,
            silence,
            faults: 0,
            idles: 0,
            accepts: 0,
            links: 0,
        })
    }

    /// What ends the wait of an accept.
    pub fn bell(&self) -> io::Result<Bell> {
        Bell::of(&self.poll)
    }

    /// A socket that listens at this address, and its port.
    fn open(&self, at: Peer) -> io::Result<(mio::net::TcpListener, u16)>
        ensures { at.port ≢ 0 → IfOk result (λ opened. opened.1 ≡ at.port) }
    {
        let mut socket = mio::net::TcpListener::bind(&self.rt, address_of(at))?;
        self.poll
            .registry()
            .register(&mut socket, Token(0), Interest::READABLE)?;
        if at.port != 0 {
            return Ok((socket, at.port));
        }
        let number = socket.local_addr()?.port();
        Ok((socket, number))
    }

    /// The link to the next client, who may come while it waits.
    fn next(&mut self) -> io::Result<TcpLink>
        ensures fresh { IfOk result (λ link. tcp_wire link ≡ new_wire) }
        ensures door { tcp_door self.new ≡ tcp_door self.old }
    {
        let Some(socket) = &self.socket else {
            return Err(io::Error::from(ErrorKind::NotConnected));
        };
        match take(socket, self.silence) {
            Err(error) if refusal_at_accept(&error) == Refusal::Idle => {
                wait(&self.rt, &mut self.poll, &mut self.events, self.was_woken)?;
                take(socket, self.silence)
            }
            taken => taken,
        }
    }
}

impl<R: Net + Clock + Drop> Listener for TcpListener<R> {
    ghost use Rattle.pva_net.specs.TcpListener.{tcp_door};

    type Link = TcpLink;

    ghost door = { tcp_door };

    fn bind(&mut self, at: Peer) -> BindStep
        ensures { BindsDoor (tcp_door self.old) (tcp_door self.new) result at }
    {
        match self.open(at) {
            Ok((socket, number)) => {
                self.socket = Some(socket);
                BindStep::Bound(number)
            }
            Err(error) => match refusal_of(&error) {
                Refusal::NoMemory => BindStep::NoMemory,
                Refusal::Idle | Refusal::Fault => {
                    raise(&mut self.faults);
                    BindStep::Failed
                }
            },
        }
    }

    fn accept(&mut self) -> AcceptStep<TcpLink>
        ensures { Accepts tcp_wire (tcp_door self.old) (tcp_door self.new) result }
    {
        match self.next() {
            Ok(link) => {
                raise(&mut self.accepts);
                raise(&mut self.links);
                AcceptStep::Link(link)
            }
            Err(error) => match refusal_at_accept(&error) {
                Refusal::Idle => {
                    self.was_woken = !self.events.is_empty();
                    raise(&mut self.accepts);
                    raise(&mut self.idles);
                    AcceptStep::Idle
                }
                Refusal::NoMemory => AcceptStep::NoMemory,
                Refusal::Fault => {
                    raise(&mut self.accepts);
                    raise(&mut self.faults);
                    AcceptStep::Failed
                }
            },
        }
    }

    fn retire(&mut self, _link: TcpLink) -> Result<(), NoMemory>
        ensures { Retires (tcp_door self.old) (tcp_door self.new) (tcp_wire _link) result }
    {
        Ok(())
    }
}
