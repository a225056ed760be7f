// The program that serves many clients.
use crate::outside::{Failing, NOTHING_FAILS, OPENED, Outside, discard};
use prog_server::run;
use pva_outside::MemoryTraffic;
use std::alloc::Global;
use std::sync::Wait;
use std::test::Fail;
use std::thread::Threads;

/// The first beacon, in big endian, of a server at port 5,075 whose GUID is 1 to 12.
const BEACON: [u8; 47] = [
    0xCA, 2, 0xC0, 0, 0, 0, 0, 39, 1, 2, 3, 4, 5, 6, 7, 8, 9, 10, 11, 12, 0, 0, 0, 0, 0, 0, 0, 0,
    0, 0, 0, 0, 0, 0, 0, 0, 0, 0, 0, 0, 0x13, 0xD3, 3, b't', b'c', b'p', 255,
];

/// Runs the program with these words, and answers its status.
fn status_of<R: Threads + Wait + Sync>(
    rt: &R,
    alloc: Global,
    words: &[&str],
    outside: &mut Outside,
) -> u8 {
    run(rt, alloc, words, &mut outside.world, &mut outside.network)
}

/// The bytes of the first datagram, where it was sent.
fn first_sent(traffic: &[MemoryTraffic]) -> &[u8] {
    match traffic.first() {
        Some(MemoryTraffic::Tried(bytes, _)) => bytes.as_slice(),
        _ => &[],
    }
}

#[test]
fn two_clients_are_served_by_the_program(rt: HostRuntime) -> Result<(), Fail> {
    let alloc: Global = rt.alloc();
    let mut outside = Outside::new(alloc, NOTHING_FAILS)?;
    let words = ["--listen", "127.0.0.1:5075", "X=42"];
    assert_eq!(rt; status_of(&rt, alloc, &words, &mut outside), 0);
    assert_eq!(rt; outside.world.sink.written(), b"listening\n".as_slice());
    assert_eq!(rt; outside.network.listener.back().len(), 2);
    assert_eq!(rt; outside.written_to(0), OPENED);
    discard(outside);
    Ok(())
}

#[test]
fn a_server_tells_what_its_words_say(rt: HostRuntime) -> Result<(), Fail> {
    let alloc: Global = rt.alloc();
    let mut outside = Outside::new(alloc, NOTHING_FAILS)?;
    let words = [
        "--listen",
        "127.0.0.1:5075",
        "X=42",
        "--big",
        "--guid",
        "0102030405060708090a0b0c",
        "--beacon",
        "10.0.0.255:5076",
    ];
    assert_eq!(rt; status_of(&rt, alloc, &words, &mut outside), 0);
    assert_eq!(rt;
        first_sent(outside.network.datagrams.traffic()),
        BEACON.as_slice()
    );
    assert_eq!(rt; outside.written_to(0).get(2), Some(&0xC1));
    discard(outside);
    Ok(())
}

/// Words, the calls of the listener that fail, and the status of the program that then serves nobody.
const SERVE_NOBODY: &[(&[&str], &[u64], u8)] = &[
    (&["--listen", "127.0.0.1:5075", "missing.db"], &[], 3),
    (&["--listen", "127.0.0.1:5075", "wrong.db"], &[], 4),
    (&["--listen", "127.0.0.1:5075", "X=42"], &[1], 6),
    (&["--listen", "127.0.0.1", "X=42"], &[], 2),
    (&["--check", "X=42"], &[], 0),
];

#[test]
fn servers_that_serve_nobody(rt: HostRuntime) -> Result<(), Fail> {
    let alloc: Global = rt.alloc();
    for (words, listener, status) in SERVE_NOBODY {
        let failing = Failing {
            prints: &[],
            listener,
            datagrams: &[],
        };
        let mut outside = Outside::new(alloc, failing)?;
        assert_eq!(rt;
            status_of(&rt, alloc, words, &mut outside),
            *status,
            "{words:?}"
        );
        assert!(rt; outside.network.listener.back().is_empty());
        discard(outside);
    }
    Ok(())
}
