// Hosts over listeners and datagrams in memory.
ghost use Rattle.std.specs.Prelude.{◌≡◌};
ghost use Rattle.desk_core.specs.Ports.{ports_there, ports_wanted};

use desk_api::{NoMemory, Site};
use desk_shared::open_hall;
use pva_outside::{
    Datagram, FixedClock, Listener, MemoryClient, MemoryDatagrams, MemoryListener, MemoryPort,
    MemoryTraffic, Peer, Port, Turn,
};
use pva_search::Setup;
use pva_wire::Order;
use srv_host::{Hosted, host};
use std::alloc::Global;
use std::collections::VecDeque;
use std::sync::Wait;
use std::test::Fail;
use std::thread::Threads;

/// The client is validated, and the channel X is open under the ids 1 and 0.
pub(crate) const OPEN: &[u8] =
    b"\xCA\x02\x00\x01\x13\x00\x00\x00\x00\x00\x01\x00\x00\x00\x00\x00\x09anonymous\xFF\
      \xCA\x02\x00\x07\x08\x00\x00\x00\x01\x00\x01\x00\x00\x00\x01X";

pub(crate) const OPENED: &[u8] =
    b"\xCA\x02\x41\x02\x00\x00\x00\x00\xCA\x02\x40\x01\x14\x00\x00\x00\x00\x00\x01\x00\xFF\x7F\x02\x09anonymous\x02ca\
      \xCA\x02\x40\x09\x01\x00\x00\x00\xFF\
      \xCA\x02\x40\x07\x09\x00\x00\x00\x01\x00\x00\x00\x00\x00\x00\x00\xFF";

/// The type of the channel of a longout.
pub(crate) const DESCRIPTION: &[u8] =
    b"\x80\x15epics:nt/NTScalar:1.0\x03\x05value\x22\x05alarm\x80\x07alarm_t\x03\x08severity\x22\x06status\x22\x07message\x60\x09timeStamp\x80\x06time_t\x03\x10secondsPastEpoch\x23\x0Bnanoseconds\x22\x07userTag\x22";

/// A get of X, which is 42 at no moment.
pub(crate) const GET: &[u8] =
    b"\xCA\x02\x00\x0A\x0C\x00\x00\x00\x00\x00\x00\x00\x01\x00\x00\x00\x08\x80\x00\x00\
      \xCA\x02\x00\x0A\x09\x00\x00\x00\x00\x00\x00\x00\x01\x00\x00\x00\x00";

pub(crate) const GET_BEGUN: &[u8] = b"\xCA\x02\x40\x0A\x8B\x00\x00\x00\x01\x00\x00\x00\x08\xFF";

pub(crate) const GOT: &[u8] =
    b"\xCA\x02\x40\x0A\x26\x00\x00\x00\x01\x00\x00\x00\x00\xFF\x02\xBA\x03\x2A\x00\x00\x00\x00\x00\x00\x00\x00\x00\x00\x00\x00\x00\x00\x00\x00\x00\x00\x00\x00\x00\x00\x00\x00\x00\x00\x00\x00";

/// A put of 7 to X.
pub(crate) const PUT: &[u8] =
    b"\xCA\x02\x00\x0B\x0C\x00\x00\x00\x00\x00\x00\x00\x02\x00\x00\x00\x08\x80\x00\x00\
      \xCA\x02\x00\x0B\x0F\x00\x00\x00\x00\x00\x00\x00\x02\x00\x00\x00\x00\x01\x02\x07\x00\x00\x00";

pub(crate) const PUT_BEGUN: &[u8] = b"\xCA\x02\x40\x0B\x8B\x00\x00\x00\x02\x00\x00\x00\x08\xFF";

pub(crate) const PUT_DONE: &[u8] = b"\xCA\x02\x40\x0B\x06\x00\x00\x00\x02\x00\x00\x00\x00\xFF";

/// A monitor of X begins and starts: it shows 42 at no moment, and then 7 at 100 seconds and 5 nanoseconds.
pub(crate) const WATCH: &[u8] =
    b"\xCA\x02\x00\x0D\x0C\x00\x00\x00\x00\x00\x00\x00\x05\x00\x00\x00\x08\x80\x00\x00\
      \xCA\x02\x00\x0D\x09\x00\x00\x00\x00\x00\x00\x00\x05\x00\x00\x00\x44";

pub(crate) const WATCH_BEGUN: &[u8] = b"\xCA\x02\x40\x0D\x8B\x00\x00\x00\x05\x00\x00\x00\x08\xFF";

pub(crate) const FIRST: &[u8] =
    b"\xCA\x02\x40\x0D\x26\x00\x00\x00\x05\x00\x00\x00\x00\x02\xBA\x03\x2A\x00\x00\x00\x00\x00\x00\x00\x00\x00\x00\x00\x00\x00\x00\x00\x00\x00\x00\x00\x00\x00\x00\x00\x00\x00\x00\x00\x00\x00";

pub(crate) const SECOND: &[u8] =
    b"\xCA\x02\x40\x0D\x19\x00\x00\x00\x05\x00\x00\x00\x00\x02\x82\x01\x07\x00\x00\x00\x64\x00\x00\x00\x00\x00\x00\x00\x05\x00\x00\x00\x00";

/// A search for X with number 9 and sequence 1, for TCP, to be answered at port 5,076.
const SEARCH: [u8; 47] = [
    0xCA, 2, 0, 3, 0x27, 0, 0, 0, 1, 0, 0, 0, 0x80, 0, 0, 0, 0, 0, 0, 0, 0, 0, 0, 0, 0, 0, 0, 0, 0,
    0, 0, 0, 0xD4, 0x13, 1, 3, b't', b'c', b'p', 1, 0, 9, 0, 0, 0, 1, b'X',
];

/// The response to it of a server that knows X.
const FOUND: [u8; 53] = [
    0xCA, 2, 0x40, 4, 0x2D, 0, 0, 0, 0, 0, 0, 0, 0, 0, 0, 0, 0, 0, 0, 0, 1, 0, 0, 0, 0, 0, 0, 0, 0,
    0, 0, 0, 0, 0, 0, 0, 0, 0, 0, 0, 0xD3, 0x13, 3, b't', b'c', b'p', 1, 1, 0, 9, 0, 0, 0,
];

/// The response to it where X isn't known, and a response is wanted all the same.
const NOT_FOUND: [u8; 49] = [
    0xCA, 2, 0x40, 4, 0x29, 0, 0, 0, 0, 0, 0, 0, 0, 0, 0, 0, 0, 0, 0, 0, 1, 0, 0, 0, 0, 0, 0, 0, 0,
    0, 0, 0, 0, 0, 0, 0, 0, 0, 0, 0, 0xD3, 0x13, 3, b't', b'c', b'p', 0, 0, 0,
];

/// 10.0.0.7 at port 40,000, from which searches come, and at port 5,076.
const FROM: Peer = Peer {
    address: [0, 0, 0, 0, 0, 0, 0, 0, 0, 0, 255, 255, 10, 0, 0, 7],
    port: 40_000,
};

const BACK: Peer = Peer {
    address: [0, 0, 0, 0, 0, 0, 0, 0, 0, 0, 255, 255, 10, 0, 0, 7],
    port: 5_076,
};

const SETUP: Setup = Setup {
    guid: [0; 12],
    port: 5_075,
    order: Order::Little,
};

/// What the entries of the history may weigh together.
const LIMIT: u64 = 268_435_456;

pub(crate) fn joined(alloc: Global, parts: &[&[u8]]) -> Result<Vec<u8>, NoMemory> {
    let mut bytes = Vec::new(alloc);
    for part in parts {
        bytes.extend_from_slice(part)?;
    }
    Ok(bytes)
}

/// Hosts the records of this site, with these ports, in at most so many turns.
fn host_site<R: Threads + Wait + Sync, P: Port + Send + Drop, A: Listener>(
    rt: &R,
    alloc: Global,
    site: &Site,
    ports: Vec<Option<P>>,
    listener: &mut A,
    datagrams: &mut MemoryDatagrams,
    beacon_to: Option<Peer>,
    turns: u32,
) -> Result<Hosted, NoMemory>
    requires { ports_there ports.items ≡ ports_wanted site.now.configs }
{
    let (hall, pass) = open_hall(alloc, site, ports, LIMIT)?;
    let clock = FixedClock::new(100, 5);
    let (hosted, _pass) = host(
        rt, alloc, &hall, site, pass, listener, datagrams, &clock, &SETUP, beacon_to, turns,
    );
    Ok(hosted)
}

/// Hosts the record X, which is 42, in at most so many turns.
pub(crate) fn host_x<R: Threads + Wait + Sync, A: Listener>(
    rt: &R,
    alloc: Global,
    listener: &mut A,
    datagrams: &mut MemoryDatagrams,
    beacon_to: Option<Peer>,
    turns: u32,
) -> Result<Hosted, NoMemory> {
    let site = Site::single(alloc, "X", 42)?;
    let ports: Vec<Option<MemoryPort>> = vec![in alloc; None]?;
    host_site(
        rt, alloc, &site, ports, listener, datagrams, beacon_to, turns,
    )
}

/// Datagrams of which none comes.
pub(crate) fn silence(alloc: Global) -> MemoryDatagrams {
    MemoryDatagrams::new(alloc, VecDeque::new(alloc), Vec::new(alloc))
}

// ---- clients of a listener in memory

/// What a client sends and gets that asks for X.
fn asks(alloc: Global) -> Result<Vec<u8>, NoMemory> {
    joined(alloc, &[OPEN, GET])
}

fn is_told(alloc: Global) -> Result<Vec<u8>, NoMemory> {
    joined(alloc, &[OPENED, GET_BEGUN, DESCRIPTION, GOT])
}

/// What was written to the link that was taken back at this place; `none` where there is none.
fn written_to(listener: &MemoryListener, at: usize) -> &[u8] {
    match listener.back().get(at) {
        Some(link) => link.written(),
        None => b"none",
    }
}

#[test]
fn links_are_served_in_the_order_of_their_accepts(rt: HostRuntime) -> Result<(), Fail> {
    let alloc: Global = rt.alloc();
    let mut coming = VecDeque::new(alloc);
    coming.push_back(Some(MemoryClient::Steady(asks(alloc)?)))?;
    coming.push_back(None)?;
    coming.push_back(Some(MemoryClient::Steady(joined(alloc, &[OPEN])?)))?;
    let mut listener = MemoryListener::new(alloc, coming, Vec::new(alloc));
    let hosted = host_x(&rt, alloc, &mut listener, &mut silence(alloc), None, 10)?;
    assert_eq!(rt; hosted, Hosted::Finished(2));
    assert_eq!(rt; listener.back().len(), 2);
    assert_eq!(rt; written_to(&listener, 0), is_told(alloc)?.as_slice());
    assert_eq!(rt; written_to(&listener, 1), OPENED);
    Ok(())
}

#[test]
fn each_link_ends_alone(rt: HostRuntime) -> Result<(), Fail> {
    let alloc: Global = rt.alloc();
    let mut coming = VecDeque::new(alloc);
    // its fourth call fails
    let fails = vec![in alloc; Turn::Give(4_096), Turn::Give(10), Turn::Idle, Turn::Fail]?;
    coming.push_back(Some(MemoryClient::Scripted(asks(alloc)?, fails)))?;
    // it never sends anything
    let idles = vec![in alloc; Turn::Give(4_096), Turn::Idle, Turn::Idle]?;
    coming.push_back(Some(MemoryClient::Scripted(Vec::new(alloc), idles)))?;
    // no header begins so
    coming.push_back(Some(MemoryClient::Steady(joined(alloc, &[b"GET / HTTP/1.1\r\n\r\n"])?)))?;
    coming.push_back(Some(MemoryClient::Steady(asks(alloc)?)))?;
    let mut listener = MemoryListener::new(alloc, coming, Vec::new(alloc));
    let hosted = host_x(&rt, alloc, &mut listener, &mut silence(alloc), None, 10)?;
    assert_eq!(rt; hosted, Hosted::Finished(4));
    let greeting = &OPENED[..36];
    assert_eq!(rt; written_to(&listener, 0), greeting);
    assert_eq!(rt; written_to(&listener, 1), greeting);
    assert_eq!(rt; written_to(&listener, 2), greeting);
    assert_eq!(rt; written_to(&listener, 3), is_told(alloc)?.as_slice());
    Ok(())
}

#[test]
fn an_accept_that_fails_ends_the_host(rt: HostRuntime) -> Result<(), Fail> {
    let alloc: Global = rt.alloc();
    let mut coming = VecDeque::new(alloc);
    coming.push_back(Some(MemoryClient::Steady(asks(alloc)?)))?;
    coming.push_back(Some(MemoryClient::Steady(asks(alloc)?)))?;
    let failing = vec![in alloc; 2]?;
    let mut listener = MemoryListener::new(alloc, coming, failing);
    let hosted = host_x(&rt, alloc, &mut listener, &mut silence(alloc), None, 10)?;
    assert_eq!(rt; hosted, Hosted::AcceptFault(1));
    assert_eq!(rt; listener.back().len(), 1);
    assert_eq!(rt; written_to(&listener, 0), is_told(alloc)?.as_slice());
    Ok(())
}

#[test]
fn a_host_makes_no_more_turns_than_it_may(rt: HostRuntime) -> Result<(), Fail> {
    let alloc: Global = rt.alloc();
    let mut coming = VecDeque::new(alloc);
    coming.push_back(None)?;
    coming.push_back(None)?;
    coming.push_back(Some(MemoryClient::Steady(asks(alloc)?)))?;
    let mut listener = MemoryListener::new(alloc, coming, Vec::new(alloc));
    let mut datagrams = silence(alloc);
    let hosted = host_x(&rt, alloc, &mut listener, &mut datagrams, None, 2)?;
    assert_eq!(rt; hosted, Hosted::Finished(0));
    assert_eq!(rt; datagrams.traffic().len(), 2);
    Ok(())
}

// ---- datagrams

fn search(alloc: Global, bytes: &[u8]) -> Result<Option<Datagram>, NoMemory> {
    let bytes = Vec::from_slice(alloc, bytes)?;
    Ok(Some(Datagram { bytes, from: FROM }))
}

fn is_got(traffic: &MemoryTraffic, bytes: &[u8]) -> bool {
    match traffic {
        MemoryTraffic::Got(got, from) => got.as_slice() == bytes && *from == FROM,
        _ => false,
    }
}

fn is_tried(traffic: &MemoryTraffic, bytes: &[u8], at: Peer) -> bool {
    match traffic {
        MemoryTraffic::Tried(tried, to) => tried.as_slice() == bytes && *to == at,
        _ => false,
    }
}

fn is_nothing(traffic: &MemoryTraffic) -> bool {
    matches!(traffic, MemoryTraffic::Nothing)
}

#[test]
fn searches_are_answered_between_accepts(rt: HostRuntime) -> Result<(), Fail> {
    let alloc: Global = rt.alloc();
    let mut unknown = SEARCH;
    unknown[46] = b'Y';
    let mut wanted = unknown;
    wanted[12] = 0x81;
    let mut datagrams = VecDeque::new(alloc);
    datagrams.push_back(search(alloc, &SEARCH)?)?;
    datagrams.push_back(search(alloc, &unknown)?)?;
    datagrams.push_back(None)?;
    datagrams.push_back(search(alloc, &wanted)?)?;
    let mut datagrams = MemoryDatagrams::new(alloc, datagrams, Vec::new(alloc));
    let mut coming = VecDeque::new(alloc);
    coming.push_back(None)?;
    coming.push_back(Some(MemoryClient::Steady(asks(alloc)?)))?;
    let mut listener = MemoryListener::new(alloc, coming, Vec::new(alloc));
    let hosted = host_x(&rt, alloc, &mut listener, &mut datagrams, None, 10)?;
    assert_eq!(rt; hosted, Hosted::Finished(1));
    let traffic = datagrams.traffic();
    assert_eq!(rt; traffic.len(), 7);
    assert!(rt; is_got(&traffic[0], &SEARCH));
    assert!(rt; is_tried(&traffic[1], &FOUND, BACK));
    assert!(rt; is_got(&traffic[2], &unknown));
    assert!(rt; is_nothing(&traffic[3]));
    assert!(rt; is_got(&traffic[4], &wanted));
    assert!(rt; is_tried(&traffic[5], &NOT_FOUND, BACK));
    assert!(rt; is_nothing(&traffic[6]));
    Ok(())
}

#[test]
fn a_turn_has_sixteen_receives_at_most(rt: HostRuntime) -> Result<(), Fail> {
    let alloc: Global = rt.alloc();
    let mut datagrams = VecDeque::new(alloc);
    for _ in 0..20u32 {
        datagrams.push_back(search(alloc, b"X")?)?;
    }
    let mut datagrams = MemoryDatagrams::new(alloc, datagrams, Vec::new(alloc));
    let mut coming = VecDeque::new(alloc);
    coming.push_back(None)?;
    let mut listener = MemoryListener::new(alloc, coming, Vec::new(alloc));
    let hosted = host_x(&rt, alloc, &mut listener, &mut datagrams, None, 10)?;
    assert_eq!(rt; hosted, Hosted::Finished(0));
    assert_eq!(rt; datagrams.traffic().len(), 16);
    Ok(())
}

#[test]
fn beacons_are_sent_in_the_first_turn_and_each_hundredth(rt: HostRuntime) -> Result<(), Fail> {
    let alloc: Global = rt.alloc();
    let mut coming: VecDeque<Option<MemoryClient>> = VecDeque::new(alloc);
    for _ in 0..200u32 {
        coming.push_back(None)?;
    }
    let mut listener = MemoryListener::new(alloc, coming, Vec::new(alloc));
    let mut datagrams = silence(alloc);
    let hosted = host_x(&rt, alloc, &mut listener, &mut datagrams, Some(BACK), 1_000)?;
    assert_eq!(rt; hosted, Hosted::Finished(0));
    let traffic = datagrams.traffic();
    assert_eq!(rt; traffic.len(), 203);
    // a beacon of the GUID of zeros with this number, at port 5,075
    let mut beacon = [
        0xCA, 2, 0x40, 0, 0x27, 0, 0, 0, 0, 0, 0, 0, 0, 0, 0, 0, 0, 0, 0, 0, 0, 0, 0, 0, 0, 0, 0,
        0, 0, 0, 0, 0, 0, 0, 0, 0, 0, 0, 0, 0, 0xD3, 0x13, 3, b't', b'c', b'p', 0xFF,
    ];
    assert!(rt; is_tried(&traffic[0], &beacon, BACK));
    beacon[21] = 1;
    assert!(rt; is_tried(&traffic[100], &beacon, BACK));
    beacon[21] = 2;
    assert!(rt; is_tried(&traffic[201], &beacon, BACK));
    Ok(())
}
