// Servers of many clients.
use crate::outside::{Failing, NOTHING_FAILS, OPENED, Outside, client_at, discard};
use prog_listen::{Listened, Listening, listen};
use prog_source::Source;
use pva_outside::{MemoryTraffic, Peer};
use pva_wire::Order;
use std::alloc::Global;
use std::sync::Wait;
use std::test::Fail;
use std::thread::Threads;

/// The response of a server of this GUID, at port 5,075, to the search that comes.
fn found_by(guid: [u8; 12]) -> [u8; 53] {
    let mut found = [
        0xCA, 2, 0x40, 4, 0x2D, 0, 0, 0, 0, 0, 0, 0, 0, 0, 0, 0, 0, 0, 0, 0, 1, 0, 0, 0, 0, 0, 0,
        0, 0, 0, 0, 0, 0, 0, 0, 0, 0, 0, 0, 0, 0xD3, 0x13, 3, b't', b'c', b'p', 1, 1, 0, 9, 0, 0,
        0,
    ];
    found[8..20].copy_from_slice(&guid);
    found
}

/// This machine at this port.
fn here_at(port: u16) -> Peer {
    Peer {
        address: [0, 0, 0, 0, 0, 0, 0, 0, 0, 0, 255, 255, 127, 0, 0, 1],
        port,
    }
}

/// Serves the record X, which is 42, at a port that is picked, as a server of this GUID if one is asked for.
fn listen_for_x<R: Threads + Wait + Sync>(
    rt: &R,
    alloc: Global,
    guid: Option<[u8; 12]>,
    outside: &mut Outside,
) -> Listened {
    let asked = Listening {
        at: here_at(0),
        udp: 5_076,
        beacon: None,
        guid,
        order: Order::Little,
        journal: 268_435_456,
        turns: 10,
    };
    listen(
        rt,
        alloc,
        Source::Record("X", 42),
        &[],
        &asked,
        &mut outside.world,
        &mut outside.network,
    )
}

/// Whether the search was answered by these bytes.
fn is_answered(traffic: &[MemoryTraffic], found: &[u8]) -> bool {
    match traffic.get(1) {
        Some(MemoryTraffic::Tried(sent, to)) => sent.as_slice() == found && *to == client_at(5_076),
        _ => false,
    }
}

#[test]
fn two_clients_are_served_and_a_search_is_answered(rt: HostRuntime) -> Result<(), Fail> {
    let alloc: Global = rt.alloc();
    // the GUID is that of the words, or else that of the moment, which is 100 seconds and 5 nanoseconds
    for (guid, told) in &[
        (None, [0, 0, 0, 0, 0, 0, 0, 100, 0, 0, 0, 5]),
        (Some([7; 12]), [7; 12]),
    ] {
        let mut outside = Outside::new(alloc, NOTHING_FAILS)?;
        let ended = listen_for_x(&rt, alloc, *guid, &mut outside);
        assert_eq!(rt; ended, Listened::Finished);
        assert_eq!(rt; outside.world.sink.written(), b"listening\n".as_slice());
        assert_eq!(rt; outside.network.listener.asked(), [here_at(0)].as_slice());
        assert_eq!(rt;
            outside.network.datagrams.asked(),
            [here_at(5_076)].as_slice()
        );
        assert_eq!(rt; outside.network.listener.back().len(), 2);
        assert_eq!(rt; outside.written_to(0), OPENED);
        assert_eq!(rt; outside.written_to(1), OPENED);
        assert!(rt; is_answered(outside.network.datagrams.traffic(), &found_by(*told)));
        discard(outside);
    }
    Ok(())
}

/// The prints, and the calls of the listener and of the datagrams, that fail; how the server then ends, and how often it asked for its
/// datagrams to be bound.
const FAULTS: &[(&[u64], &[u64], &[u64], Listened, usize)] = &[
    (&[], &[1], &[], Listened::Unbound, 0),
    (&[], &[], &[1], Listened::Unsearchable, 1),
    (&[1], &[], &[], Listened::Unprinted, 1),
    (&[], &[2], &[], Listened::AcceptFault, 1),
];

#[test]
fn a_server_ends_at_its_first_fault(rt: HostRuntime) -> Result<(), Fail> {
    let alloc: Global = rt.alloc();
    for (prints, listener, datagrams, wanted, bound) in FAULTS {
        let failing = Failing {
            prints,
            listener,
            datagrams,
        };
        let mut outside = Outside::new(alloc, failing)?;
        let ended = listen_for_x(&rt, alloc, None, &mut outside);
        assert_eq!(rt; ended, *wanted);
        assert_eq!(rt; outside.network.datagrams.asked().len(), *bound);
        assert!(rt; outside.network.listener.back().is_empty());
        discard(outside);
    }
    Ok(())
}
