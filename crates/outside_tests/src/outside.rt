ghost use Rattle.std.specs.Prelude.{◌≡◌, ◌≤◌, IsTrue};

use crate::network::here;
use pva_outside::{
    AcceptStep, BindStep, Clock, Datagram, DatagramStep, Datagrams, DialStep, Dialer, DriveStep,
    FilePorts, FileStep, Files, FixedClock, Kinds, Link, Listener, MemoryClient, MemoryDatagrams,
    MemoryDial, MemoryDialer, MemoryFile, MemoryFiles, MemoryLink, MemoryListener, MemoryPort,
    MemoryPorts, MemoryServer, MemorySink, MemoryTraffic, Peer, PlainLink, Port, PortMaker,
    PortStep, ReadStep, SendStep, Sink, SinkStep, StreamLink, StreamSink, SystemClock, SystemFiles,
    Turn, World, WriteStep, WriterPort,
};
use std::alloc::Global;
use std::collections::VecDeque;
use std::io::{ErrorKind, Read, Write};
use std::test::Fail;
use std::time::Duration;
use std::{fs, io, rt};

#[test]
fn a_plain_link_gives_its_input_in_order_and_then_its_end(rt: HostRuntime) -> Result<(), Fail> {
    let mut link = PlainLink::new(rt.alloc(), vec![in rt.alloc(); 1, 2, 3]?);
    let mut buffer = [0u8; 2];
    assert_eq!(rt; link.read(&mut buffer), ReadStep::Got(2));
    assert_eq!(rt; buffer, [1, 2]);
    assert_eq!(rt; link.read(&mut buffer), ReadStep::Got(1));
    assert_eq!(rt; buffer, [3, 2]);
    assert_eq!(rt; link.read(&mut buffer), ReadStep::End);
    assert_eq!(rt; link.write(b"ab"), WriteStep::Took(2));
    assert_eq!(rt; link.write(b"c"), WriteStep::Took(1));
    link.close();
    assert_eq!(rt; link.written(), b"abc".as_slice());
    Ok(())
}

#[test]
fn a_memory_link_follows_its_script(rt: HostRuntime) -> Result<(), Fail> {
    let script = vec![in rt.alloc(); Turn::Give(1), Turn::Idle, Turn::Give(0), Turn::Fail]?;
    let mut link = MemoryLink::new(rt.alloc(), vec![in rt.alloc(); 5, 6, 7]?, script);
    let mut buffer = [0u8; 4];
    let mut read = Vec::new(rt.alloc());
    for want in [
        ReadStep::Got(1),
        ReadStep::Idle,
        ReadStep::Got(1),
        ReadStep::Failed,
        ReadStep::Got(1),
        ReadStep::End,
    ] {
        let step = link.read(&mut buffer);
        assert_eq!(rt; step, want);
        if matches!(step, ReadStep::Got(_)) {
            read.push(buffer[0])?;
        }
    }
    assert_eq!(rt; read.as_slice(), [5, 6, 7].as_slice());

    let script = vec![in rt.alloc(); Turn::Fail, Turn::Give(2), Turn::Idle]?;
    let mut link = MemoryLink::new(rt.alloc(), Vec::new(rt.alloc()), script);
    assert_eq!(rt; link.write(b"abcd"), WriteStep::Failed);
    assert_eq!(rt; link.write(b"abcd"), WriteStep::Took(2));
    assert_eq!(rt; link.write(b"cd"), WriteStep::Idle);
    assert_eq!(rt; link.write(b"cd"), WriteStep::Took(2));
    link.close();
    assert_eq!(rt; link.written(), b"abcd".as_slice());
    Ok(())
}

#[test]
fn a_memory_sink_fails_at_the_calls_that_it_is_told(rt: HostRuntime) -> Result<(), Fail> {
    let mut sink = MemorySink::new(rt.alloc(), vec![in rt.alloc(); 1, 3]?);
    assert_eq!(rt; sink.write(b"ab"), SinkStep::Failed);
    assert_eq!(rt; sink.write(b"ab"), SinkStep::Took(2));
    assert_eq!(rt; sink.write(b"cd"), SinkStep::Failed);
    assert_eq!(rt; sink.write(b"cd"), SinkStep::Took(2));
    assert_eq!(rt; sink.written(), b"abcd".as_slice());
    Ok(())
}

// What one call of a `Script` does: it moves so many bytes, or is refused.
#[derive(Clone, Copy)]
enum Act {
    Move(usize),
    Refuse(ErrorKind),
}

// A reader that gives sevens and a writer that takes all it can, each after its script.
#[derive(Drop)]
struct Script {
    acts: Vec<Act>,
    next: usize,
}

impl Script {
    fn new(acts: Vec<Act>) -> Self {
        Script { acts, next: 0 }
    }

    fn act(&mut self) -> io::Result<usize> {
        let act = self.acts.get(self.next).copied().unwrap_or(Act::Move(0));
        self.next = self.next.saturating_add(1);
        match act {
            Act::Move(count) => Ok(count),
            Act::Refuse(kind) => Err(io::Error::from(kind)),
        }
    }
}

impl Read for Script {
    fn read(&mut self, buf: &mut [u8]) -> io::Result<usize> {
        let count = self.act()?.min(buf.len());
        buf[..count].fill(7);
        Ok(count)
    }
}

impl Write for Script {
    fn write(&mut self, buf: &[u8]) -> io::Result<usize> {
        Ok(self.act()?.min(buf.len()))
    }

    fn flush(&mut self) -> io::Result<()> {
        Ok(())
    }
}

fn script_of(alloc: Global) -> Result<Script, Fail> {
    Ok(Script::new(vec![in alloc;
        Act::Move(2),
        Act::Refuse(ErrorKind::WouldBlock),
        Act::Refuse(ErrorKind::Interrupted),
        Act::Refuse(ErrorKind::OutOfMemory),
        Act::Refuse(ErrorKind::ConnectionReset),
        Act::Move(1),
        Act::Move(0),
    ]?))
}

#[test]
fn a_stream_link_tells_idles_ends_faults_and_want_of_memory_apart(
    rt: HostRuntime,
) -> Result<(), Fail> {
    let mut link = StreamLink::new(script_of(rt.alloc())?, script_of(rt.alloc())?);
    let mut buffer = [0u8; 4];
    for (read, write) in [
        (ReadStep::Got(2), WriteStep::Took(2)),
        (ReadStep::Idle, WriteStep::Idle),
        (ReadStep::Idle, WriteStep::Idle),
        (ReadStep::NoMemory, WriteStep::NoMemory),
        (ReadStep::Failed, WriteStep::Failed),
        (ReadStep::Got(1), WriteStep::Took(1)),
        (ReadStep::End, WriteStep::Failed),
    ] {
        assert_eq!(rt; link.read(&mut buffer), read);
        assert_eq!(rt; link.write(b"abcd"), write);
    }
    assert_eq!(rt; buffer, [7, 7, 0, 0]);
    Ok(())
}

#[test]
fn a_stream_link_over_memory_moves_its_bytes_until_it_is_closed(
    rt: HostRuntime,
) -> Result<(), Fail> {
    let input: &[u8] = b"abc";
    let mut link = StreamLink::new(input, Vec::<u8>::new(rt.alloc()));
    let mut buffer = [0u8; 2];
    assert_eq!(rt; link.read(&mut buffer), ReadStep::Got(2));
    assert_eq!(rt; buffer, *b"ab");
    assert_eq!(rt; link.write(b"xyz"), WriteStep::Took(3));
    link.close();
    assert_eq!(rt; link.read(&mut buffer), ReadStep::Failed);
    assert_eq!(rt; link.write(b"xyz"), WriteStep::Failed);
    Ok(())
}

#[test]
fn a_stream_sink_has_no_idle(rt: HostRuntime) -> Result<(), Fail> {
    let mut sink = StreamSink::new(script_of(rt.alloc())?);
    for want in [
        SinkStep::Took(2),
        SinkStep::Failed,
        SinkStep::Failed,
        SinkStep::NoMemory,
        SinkStep::Failed,
        SinkStep::Took(1),
        SinkStep::Failed,
    ] {
        assert_eq!(rt; sink.write(b"abcd"), want);
    }
    Ok(())
}

// A runtime whose clock can't be read, or stands at this time since 1970.
#[derive(Clone, Copy)]
struct Reading(Option<Duration>);

impl rt::Clock for Reading {
    fn monotonic(&self) -> io::Result<Duration> {
        self.since_1970()
    }

    fn since_1970(&self) -> io::Result<Duration> {
        self.0.ok_or(io::Error::from(ErrorKind::Unsupported))
    }
}

#[test]
fn clocks_give_seconds_and_nanoseconds(rt: HostRuntime) -> Result<(), Fail> {
    assert_eq!(rt; FixedClock::new(-1, 999_999_999).now(), (-1, 999_999_999));
    for (reading, want) in [
        (None, (0, 0)),
        (
            Some(Duration::from_nanos(1_700_000_000_123_456_789)),
            (1_700_000_000, 123_456_789),
        ),
        (Some(Duration::from_secs(u64::MAX)), (0, 0)),
    ] {
        assert_eq!(rt; SystemClock::new(Reading(reading)).now(), want);
    }
    Ok(())
}

// The outside in memory.
struct InMemory;

impl Kinds for InMemory {
    type Link = PlainLink;

    type Files = MemoryFiles;

    type Ports = MemoryPorts;

    type Sink = MemorySink;

    type Clock = FixedClock;
}

// The outside of the system.
struct OfTheSystem;

impl Kinds for OfTheSystem {
    type Link = StreamLink<rt::Stdin, rt::Stdout>;

    type Files = SystemFiles<HostRuntime>;

    type Ports = FilePorts<HostRuntime>;

    type Sink = StreamSink<rt::Stdout>;

    type Clock = SystemClock<HostRuntime>;
}

// Reads one byte, and prints it.
fn pass_one<W: Kinds>(world: &mut World<W>) -> bool
    ensures counted { (W.Link.wire world.old.link).faults ≤ (W.Link.wire world.new.link).faults }
    ensures unfailing { IsTrue result → W.Sink.faults world.new.sink ≡ W.Sink.faults world.old.sink }
{
    let mut buffer = [0u8; 1];
    let got = world.link.read(&mut buffer);
    let printed = world.sink.write(&buffer);
    got == ReadStep::Got(1) && printed == SinkStep::Took(1) && world.clock.now().1 == 5
}

#[test]
fn a_world_is_made_of_either_kinds(rt: HostRuntime) -> Result<(), Fail> {
    let mut world: World<InMemory> = World {
        link: PlainLink::new(rt.alloc(), vec![in rt.alloc(); 65]?),
        files: MemoryFiles::new(rt.alloc(), Vec::new(rt.alloc()), Vec::new(rt.alloc())),
        ports: MemoryPorts::new(rt.alloc(), Vec::new(rt.alloc()), Vec::new(rt.alloc())),
        sink: MemorySink::new(rt.alloc(), Vec::new(rt.alloc())),
        clock: FixedClock::new(0, 5),
    };
    assert!(rt; pass_one(&mut world));
    assert_eq!(rt; world.sink.written(), b"A".as_slice());

    let mut world: World<OfTheSystem> = World {
        link: StreamLink::new(rt.stdin(), rt.stdout()),
        files: SystemFiles::new(rt),
        ports: FilePorts::new(rt),
        sink: StreamSink::new(rt.stdout()),
        clock: SystemClock::new(rt),
    };
    world.link.close();
    let (seconds, _) = world.clock.now();
    assert!(rt; seconds > 1_700_000_000);
    assert_eq!(rt; world.sink.write(b"printed\n"), SinkStep::Took(8));
    Ok(())
}

#[test]
fn a_memory_port_counts_its_drives_and_fails_at_those_that_are_to_fail(
    rt: HostRuntime,
) -> Result<(), Fail> {
    let mut port = MemoryPort::new(vec![in rt.alloc(); 2]?);
    assert_eq!(rt; (port.drives(), port.last()), (0, b"".as_slice()));
    assert_eq!(rt; port.drive(b"7"), DriveStep::Drove);
    assert_eq!(rt; port.drive(b"8"), DriveStep::Failed);
    assert_eq!(rt; port.drive(&[b'a'; 70]), DriveStep::Drove);
    assert_eq!(rt; port.drives(), 3);
    assert_eq!(rt; port.last(), [b'a'; 64].as_slice());
    Ok(())
}

// A writer over a script whose calls are all that the script has.
fn moving(alloc: Global, counts: &[usize]) -> Result<Script, Fail> {
    let mut acts = Vec::new(alloc);
    for count in counts {
        acts.push(Act::Move(*count))?;
    }
    Ok(Script::new(acts))
}

#[test]
fn a_writer_port_hands_a_short_line_on_as_one(rt: HostRuntime) -> Result<(), Fail> {
    // A text of 127 bytes and its line feed are one call, and the call behind the script takes nothing.
    let mut port = WriterPort::new(moving(rt.alloc(), &[128])?);
    assert_eq!(rt; port.drive(&[b'a'; 127]), DriveStep::Drove);
    assert_eq!(rt; port.drive(b""), DriveStep::Failed);
    // What a writer took in part is gone on with.
    let mut port = WriterPort::new(moving(rt.alloc(), &[1, 1, 1])?);
    assert_eq!(rt; port.drive(b"7"), DriveStep::Drove);
    assert_eq!(rt; port.drive(b""), DriveStep::Drove);
    // A longer text is followed by its line feed.
    let mut port = WriterPort::new(moving(rt.alloc(), &[128, 1])?);
    assert_eq!(rt; port.drive(&[b'a'; 128]), DriveStep::Drove);
    Ok(())
}

// How many bytes the file of this name has, where it was read.
fn length_of<F: Files>(files: &mut F, alloc: Global, name: &str) -> Option<usize> {
    match files.read(alloc, name) {
        FileStep::Got(bytes) => Some(bytes.len()),
        FileStep::Failed | FileStep::NoMemory => None,
    }
}

// What the first drive of a port for this path came to, where one was made.
fn first_drive<M: PortMaker>(ports: &mut M, alloc: Global, path: &str) -> Option<DriveStep>
where
    M::Port: Drop,
{
    match ports.make(alloc, path) {
        PortStep::Made(mut port) => Some(port.drive(b"7")),
        PortStep::Failed | PortStep::NoMemory => None,
    }
}

fn file(alloc: Global, name: &str, bytes: &[u8]) -> Result<MemoryFile, Fail> {
    Ok(MemoryFile {
        name: String::from_str(alloc, name)?,
        bytes: Vec::from_slice(alloc, bytes)?,
    })
}

#[test]
fn files_in_memory_are_read_by_name_but_at_the_calls_that_are_to_fail(
    rt: HostRuntime,
) -> Result<(), Fail> {
    let alloc = rt.alloc();
    let held = vec![in alloc; file(alloc, "a.db", b"abc")?, file(alloc, "b.db", b"")?]?;
    let mut files = MemoryFiles::new(alloc, held, vec![in alloc; 3]?);
    for (name, length) in [
        ("a.db", Some(3)),
        ("c.db", None),
        ("a.db", None),
        ("b.db", Some(0)),
    ] {
        assert_eq!(rt; length_of(&mut files, alloc, name), length);
    }
    assert_eq!(rt; files.asked().len(), 4);
    assert_eq!(rt; files.asked()[1].as_str(), "c.db");
    Ok(())
}

#[test]
fn files_in_memory_have_a_longest_length(rt: HostRuntime) -> Result<(), Fail> {
    let alloc = rt.alloc();
    let bytes = vec![in alloc; 7u8; 1_048_577]?;
    let held = vec![in alloc;
        file(alloc, "most", &bytes[1..])?,
        file(alloc, "more", &bytes)?,
    ]?;
    let mut files = MemoryFiles::new(alloc, held, Vec::new(alloc));
    assert_eq!(rt; length_of(&mut files, alloc, "most"), Some(1_048_576));
    assert_eq!(rt; length_of(&mut files, alloc, "more"), None);
    Ok(())
}

#[test]
fn ports_in_memory_are_made_but_at_the_calls_that_are_to_fail(rt: HostRuntime) -> Result<(), Fail> {
    let alloc = rt.alloc();
    let mut ports = MemoryPorts::new(alloc, vec![in alloc; 2]?, Vec::new(alloc));
    assert_eq!(rt; first_drive(&mut ports, alloc, "a"), Some(DriveStep::Drove));
    assert_eq!(rt; first_drive(&mut ports, alloc, "b"), None);
    assert_eq!(rt; ports.asked().len(), 2);
    assert_eq!(rt; ports.asked()[1].as_str(), "b");
    let mut ports = MemoryPorts::new(alloc, Vec::new(alloc), vec![in alloc; 1]?);
    assert_eq!(rt;
        first_drive(&mut ports, alloc, "a"),
        Some(DriveStep::Failed)
    );
    Ok(())
}

#[test]
fn a_port_over_a_file_appends_a_line_to_it(rt: HostRuntime) -> Result<(), Fail> {
    let alloc = rt.alloc();
    fs::write(&rt, "pva_outside_lines", "1\n")?;
    let mut ports = FilePorts::new(rt);
    assert_eq!(rt;
        first_drive(&mut ports, alloc, "pva_outside_lines"),
        Some(DriveStep::Drove)
    );
    assert_eq!(rt;
        first_drive(&mut ports, alloc, "pva_outside_none/lines"),
        None
    );
    let read = fs::read(&rt, "pva_outside_lines")?;
    assert_eq!(rt; read.as_slice(), b"1\n7\n".as_slice());
    fs::remove_file(&rt, "pva_outside_lines")?;
    Ok(())
}

#[test]
fn files_of_the_system_have_a_longest_length(rt: HostRuntime) -> Result<(), Fail> {
    let alloc = rt.alloc();
    let mut files = SystemFiles::new(rt);
    let bytes = vec![in alloc; 7u8; 1_048_577]?;
    fs::write(&rt, "pva_outside_bytes", &bytes[1..])?;
    assert_eq!(rt;
        length_of(&mut files, alloc, "pva_outside_bytes"),
        Some(1_048_576)
    );
    fs::write(&rt, "pva_outside_bytes", bytes.as_slice())?;
    assert_eq!(rt; length_of(&mut files, alloc, "pva_outside_bytes"), None);
    fs::remove_file(&rt, "pva_outside_bytes")?;
    assert_eq!(rt; length_of(&mut files, alloc, "pva_outside_bytes"), None);
    Ok(())
}

// Writes to a link, and reads what it brings first.
fn talk<L: Link>(link: &mut L) -> u8 {
    let mut buffer = [0u8; 1];
    let _ = link.write(b"hello");
    let _ = link.read(&mut buffer);
    buffer[0]
}

// What the link to the next client first brings, where one came.
fn next_brings<A: Listener>(listener: &mut A) -> Option<u8> {
    match listener.accept() {
        AcceptStep::Link(mut link) => {
            let byte = talk(&mut link);
            listener.retire(link).is_ok().then_some(byte)
        }
        AcceptStep::End | AcceptStep::Idle | AcceptStep::Failed | AcceptStep::NoMemory => None,
    }
}

#[test]
fn a_listener_in_memory_gives_links_to_its_clients_and_keeps_those_taken_back(
    rt: HostRuntime,
) -> Result<(), Fail> {
    let alloc = rt.alloc();
    let (first, last) = (vec![in alloc; 5]?, vec![in alloc; 6]?);
    let script = vec![in alloc; Turn::Give(2)]?;
    let failing = vec![in alloc; 2, 4]?;
    let mut coming = VecDeque::with_capacity(alloc, 3)?;
    coming.push_back_reserved(Some(MemoryClient::Steady(first)));
    coming.push_back_reserved(None);
    coming.push_back_reserved(Some(MemoryClient::Scripted(last, script)));
    let mut listener = MemoryListener::new(alloc, coming, failing);
    assert_eq!(rt; listener.bind(here(0)), BindStep::Bound(5075));
    assert_eq!(rt; listener.bind(here(7)), BindStep::Failed);
    for byte in [Some(5), None, None, Some(6), None] {
        assert_eq!(rt; next_brings(&mut listener), byte);
    }
    assert_eq!(rt; listener.asked(), [here(0), here(7)].as_slice());
    assert_eq!(rt; listener.back().len(), 2);
    assert_eq!(rt; listener.back()[0].written(), b"hello".as_slice());
    assert_eq!(rt; listener.back()[1].written(), b"he".as_slice());
    Ok(())
}

// The bytes that one receive or send was of.
fn bytes_of(one: &MemoryTraffic) -> &[u8] {
    match one {
        MemoryTraffic::Got(bytes, _) => bytes,
        MemoryTraffic::Nothing => &[],
        MemoryTraffic::Tried(bytes, _) => bytes,
    }
}

#[test]
fn datagrams_in_memory_come_in_order_and_are_kept(rt: HostRuntime) -> Result<(), Fail> {
    let alloc = rt.alloc();
    let bytes = vec![in alloc; 1, 2, 3]?;
    let failing = vec![in alloc; 3, 6]?;
    let mut coming = VecDeque::with_capacity(alloc, 2)?;
    coming.push_back_reserved(None);
    coming.push_back_reserved(Some(Datagram {
        bytes,
        from: here(9),
    }));
    let mut datagrams = MemoryDatagrams::new(alloc, coming, failing);
    assert_eq!(rt; datagrams.bind(here(5076)), BindStep::Bound(5076));
    let mut buffer = [0u8; 2];
    for step in [
        DatagramStep::Idle,
        DatagramStep::Failed,
        DatagramStep::Got(2, here(9)),
        DatagramStep::Idle,
    ] {
        assert_eq!(rt; datagrams.receive(&mut buffer), step);
    }
    assert_eq!(rt; buffer, [1, 2]);
    assert_eq!(rt; datagrams.send(b"ask", here(8)), SendStep::Failed);
    assert_eq!(rt; datagrams.send(b"again", here(8)), SendStep::Sent);
    assert_eq!(rt; datagrams.asked(), [here(5076)].as_slice());
    let traffic = datagrams.traffic();
    assert_eq!(rt; traffic.len(), 6);
    assert_eq!(rt; bytes_of(&traffic[2]), [1, 2].as_slice());
    assert_eq!(rt; bytes_of(&traffic[4]), b"ask".as_slice());
    Ok(())
}

// What the link of a dial first brings, where it gave one.
fn dial_brings<D: Dialer>(dialer: &mut D, to: Peer) -> Option<u8> {
    match dialer.dial(to) {
        DialStep::Link(mut link) => {
            let byte = talk(&mut link);
            dialer.retire(link).is_ok().then_some(byte)
        }
        DialStep::Failed | DialStep::NoMemory => None,
    }
}

#[test]
fn a_dialer_in_memory_reaches_its_servers_in_order(rt: HostRuntime) -> Result<(), Fail> {
    let alloc = rt.alloc();
    let server = MemoryServer {
        input: vec![in alloc; 5]?,
        script: vec![in alloc; Turn::Idle]?,
    };
    let mut dialer = MemoryDialer::new(alloc, vec![in alloc; server]?, vec![in alloc; 1]?);
    for byte in [None, Some(5), None] {
        assert_eq!(rt; dial_brings(&mut dialer, here(7)), byte);
    }
    assert_eq!(rt; dialer.dials().len(), 3);
    let linked = MemoryDial {
        to: here(7),
        linked: true,
    };
    assert_eq!(rt; dialer.dials()[1], linked);
    let back = dialer.back();
    assert_eq!(rt; back.len(), 1);
    assert_eq!(rt; (back[0].faults(), back[0].idles()), (0, 1));
    assert_eq!(rt; (back[0].ends(), back[0].written()), (0, b"".as_slice()));
    Ok(())
}
