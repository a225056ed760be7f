use pva_net::{TcpDialer, TcpLink, TcpListener, UdpDatagrams};
use pva_outside::{
    AcceptStep, BindStep, DatagramStep, Datagrams, DialStep, Dialer, Link, Listener, Peer,
    ReadStep, SendStep, WriteStep,
};
use std::test::Fail;
use std::time::{Duration, Instant};

/// A port of this machine.
pub fn here(port: u16) -> Peer {
    Peer {
        address: [0, 0, 0, 0, 0, 0, 0, 0, 0, 0, 0xFF, 0xFF, 127, 0, 0, 1],
        port,
    }
}

/// The port that was bound, where one was.
fn port_of(step: BindStep) -> Option<u16> {
    match step {
        BindStep::Bound(port) => Some(port),
        BindStep::Failed | BindStep::NoMemory => None,
    }
}

/// The link to a server, where one answered.
fn dialed(step: DialStep<TcpLink>) -> Option<TcpLink> {
    match step {
        DialStep::Link(link) => Some(link),
        DialStep::Failed | DialStep::NoMemory => None,
    }
}

/// The link to a client, where one came.
fn accepted(step: AcceptStep<TcpLink>) -> Option<TcpLink> {
    match step {
        AcceptStep::Link(link) => Some(link),
        AcceptStep::End | AcceptStep::Idle | AcceptStep::Failed | AcceptStep::NoMemory => None,
    }
}

#[test]
fn a_listener_accepts_who_connects_to_its_port(rt: HostRuntime) -> Result<(), Fail> {
    let mut listener = TcpListener::new(rt, rt.alloc(), 0)?;
    assert!(rt; matches!(listener.accept(), AcceptStep::Failed));
    let port = port_of(listener.bind(here(0))).expect(&rt, "a port");
    assert_eq!(rt; listener.bind(here(port)), BindStep::Failed);
    assert!(rt; matches!(listener.accept(), AcceptStep::Idle));
    let client = dialed(TcpDialer::new(rt).dial(here(port)));
    assert!(rt; client.is_some());
    let server = accepted(listener.accept()).expect(&rt, "a client");
    assert!(rt; listener.retire(server).is_ok());
    Ok(())
}

#[test]
fn a_link_moves_bytes_both_ways_until_it_is_closed(rt: HostRuntime) -> Result<(), Fail> {
    let mut listener = TcpListener::new(rt, rt.alloc(), 0)?;
    let port = port_of(listener.bind(here(0))).expect(&rt, "a port");
    let mut client = dialed(TcpDialer::new(rt).dial(here(port))).expect(&rt, "a server");
    let mut server = accepted(listener.accept()).expect(&rt, "a client");
    let mut buffer = [0u8; 8];
    assert_eq!(rt; server.read(&mut buffer), ReadStep::Idle);
    assert_eq!(rt; client.write(b"ask"), WriteStep::Took(3));
    assert_eq!(rt; server.read(&mut buffer), ReadStep::Got(3));
    assert_eq!(rt; &buffer[..3], b"ask".as_slice());
    assert_eq!(rt; server.write(b"reply"), WriteStep::Took(5));
    server.close();
    assert_eq!(rt; server.read(&mut buffer), ReadStep::Failed);
    assert_eq!(rt; server.write(b"more"), WriteStep::Failed);
    assert_eq!(rt; client.read(&mut buffer), ReadStep::Got(5));
    assert_eq!(rt; &buffer[..5], b"reply".as_slice());
    assert_eq!(rt; client.read(&mut buffer), ReadStep::End);
    Ok(())
}

#[test]
fn a_dial_fails_where_nobody_listens(rt: HostRuntime) -> Result<(), Fail> {
    let mut listener = TcpListener::new(rt, rt.alloc(), 0)?;
    let port = port_of(listener.bind(here(0))).expect(&rt, "a port");
    let mut dialer = TcpDialer::new(rt);
    let link = dialed(dialer.dial(here(port))).expect(&rt, "a server");
    assert!(rt; dialer.retire(link).is_ok());
    drop(listener);
    assert!(rt; dialed(dialer.dial(here(port))).is_none());
    Ok(())
}

#[test]
fn datagrams_come_with_the_address_of_their_sender(rt: HostRuntime) -> Result<(), Fail> {
    let listener = TcpListener::new(rt, rt.alloc(), 0)?;
    let mut one = UdpDatagrams::new(rt);
    let mut other = UdpDatagrams::ringing(rt, listener.bell()?);
    let mut buffer = [0u8; 8];
    assert_eq!(rt; other.receive(&mut buffer), DatagramStep::Failed);
    let here_one = here(port_of(one.bind(here(0))).expect(&rt, "a port"));
    let here_other = here(port_of(other.bind(here(0))).expect(&rt, "a port"));
    assert_eq!(rt; other.receive(&mut buffer), DatagramStep::Idle);
    assert_eq!(rt; other.send(b"search", here_one), SendStep::Sent);
    assert_eq!(rt; one.receive(&mut buffer), DatagramStep::Got(6, here_other));
    assert_eq!(rt; &buffer[..6], b"search".as_slice());
    assert_eq!(rt; one.receive(&mut buffer), DatagramStep::Idle);
    Ok(())
}

#[test]
fn a_datagram_ends_the_wait_of_an_accept(rt: HostRuntime) -> Result<(), Fail> {
    let mut listener = TcpListener::new(rt, rt.alloc(), 0)?;
    let mut datagrams = UdpDatagrams::ringing(rt, listener.bell()?);
    let mut sender = UdpDatagrams::new(rt);
    let mut buffer = [0u8; 8];
    assert!(rt; port_of(listener.bind(here(0))).is_some());
    assert!(rt; port_of(sender.bind(here(0))).is_some());
    let at = here(port_of(datagrams.bind(here(0))).expect(&rt, "a port"));
    let begun = Instant::now(&rt)?;
    for _ in 0..40u32 {
        assert_eq!(rt; sender.send(b"search", at), SendStep::Sent);
        assert!(rt; matches!(listener.accept(), AcceptStep::Idle));
        assert!(rt; matches!(datagrams.receive(&mut buffer), DatagramStep::Got(6, _)));
    }
    // forty accepts that wait for clients in vain take two seconds
    assert!(rt; begun.elapsed(&rt)? < Duration::from_secs(1));
    Ok(())
}
