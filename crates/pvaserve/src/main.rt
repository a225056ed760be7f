//! A pvAccess server. It serves the records of a database text to many clients over the network, or to one over standard input and output;
//! it checks the text, or drills itself.
#![tactic(auto)]

use prog_listen::Network;
use prog_server::{Status, run, silence_of};
use pva_net::{TcpListener, UdpDatagrams};
use pva_outside::{
    FilePorts, Kinds, Link, StreamLink, StreamSink, SystemClock, SystemFiles, World,
};
use std::alloc::{AllocError, Global};
use std::io::ErrorKind;
use std::process::ExitCode;
use std::sync::Wait;
use std::thread::Threads;
use std::{env, io, rt};

/// What `--help` shows.
const HELP: &str = "\
Serves the records of an EPICS database to pvAccess clients (EPICS 7), or checks
a database.

Usage: pvaserve --listen A.B.C.D:PORT SOURCE [OPTIONS]
       pvaserve --inetd SOURCE [OPTIONS]
       pvaserve --check SOURCE [--macros A=1,B=2]
       pvaserve --drill N

--listen ADDR    serves many clients, who connect to this address by TCP and
                 find it by searches; prints `listening` when they may come, and
                 serves until it is killed, or its turns are spent. At port 0
                 the system picks a port
--inetd          serves one connection over standard input and output, from its
                 greeting to its end
--check          prints how many records and groups SOURCE has, or the line
                 where it is wrong (0 where that has none), and why
--drill N        serves a client in memory that puts 10000 numbers drawn from N
                 and monitors four groups, and prints what it came to
SOURCE           the file of a database text, or NAME=VALUE: one longout and the
                 decimal value that it opens with
--macros LIST    what $(A) and $(B) stand for in the text, as A=1,B=2; of two
                 values of one name the last counts
--big            answers in big endian
--journal BYTES  what all puts may weigh together (268435456 unless it is
                 given); one of a number weighs 136
--turns N        with --inetd, how many reads and writes the connection may
                 take, from 1 to 4611686018427387904, which is the default; with
                 --listen, how many accepts are made, from 1 to 2147483647,
                 which is the default: each takes up to 50 ms, and ends when a
                 client or a search comes, of searches alone 1000 times a second
--udp PORT       with --listen, the port at the same address that searches come
                 to (5076)
--beacon ADDR    with --listen, where a beacon goes behind the first accept and
                 each hundredth; none goes unless it is given
--guid DIGITS    with --listen, the 24 hexadecimal digits that tell this server
                 from all others (made of the time unless they are given)
--silence N      with --listen, behind how many seconds in which nothing comes
                 from a client, or it takes nothing, its connection is closed,
                 from 0 to 4294967295; at 0, which is the default, none is
-h, --help       shows this text
-V, --version    shows the version

Examples. The file slide.db has the text

    record(longout, \"$(P):Pos\") {
      field(DESC, \"Position of the slide\") field(VAL, \"1200\")
      field(HIHI, \"5000\") field(HHSV, \"MAJOR\")
    }

Check it, then serve it to every client that reaches this machine:

    pvaserve --check slide.db --macros P=BL:M1    (prints: 1 records, 0 groups)
    pvaserve --listen 0.0.0.0:5075 slide.db --macros P=BL:M1
    pvac get BL:M1:Pos                            (in another shell)

The channels are BL:M1:Pos, which is BL:M1:Pos.VAL too, and BL:M1:Pos.DESC. A put
of 6000 gives BL:M1:Pos the alarm HIHI. A record with field(DTYP, \"File\") and
field(OUT, \"@file PATH\") appends each value to PATH. Records are members of a
group, which is a channel too, by info(Q:group, {..}), as the QSRV manual has it.

Serve one record to clients of this machine, or to a client that inetd or systemd
connects:

    pvaserve --listen 127.0.0.1:5075 X=42
    pvaserve --inetd slide.db --macros P=BL:M1

See how fast the machine is, and that it serves aright: for each N the five lines
are always the same.

    time pvaserve --drill 7       (prints: messages 10026, commits 10000,
                                   sum 7642, updates 912, closed)

Status: 0 done; 2 words that aren't taken; 3 a file can't be read, or a port's
can't be opened; 4 the text is wrong; 5 the client's stream is wrong (--inetd);
6 the connection or a print failed, an address can't be bound (another server has
the port, or it isn't this machine's), or accepting failed; 7 no memory; 8 the
turns were spent (--inetd). A fault shows by its status alone.
";

/// What `--version` shows.
const VERSION: &str = "pvaserve 0.1.0\n";

/// The outside of the system: standard input and output, its files and its clock. The network stands beside it.
struct System;

impl Kinds for System {
    type Link = StreamLink<rt::Stdin, rt::Stdout>;

    type Files = SystemFiles<HostRuntime>;

    type Ports = FilePorts<HostRuntime>;

    type Sink = StreamSink<rt::Stdout>;

    type Clock = SystemClock<HostRuntime>;
}

/// The text that the first word asks for.
fn shown_by(word: &str) -> Option<&'static str> {
    match word {
        "--help" | "-h" => Some(HELP),
        "--version" | "-V" => Some(VERSION),
        _ => None,
    }
}

/// The arguments, without the program's name.
fn arguments(rt: &HostRuntime) -> io::Result<Vec<String>> {
    let mut arguments = env::args(rt)?;
    let _name = arguments.next();
    Ok(arguments.collect(rt.alloc())?)
}

/// What reaches the network, not bound. A client is given up behind so many seconds of silence, and none is at 0. A datagram ends the wait
/// for clients, so that searches are answered at once.
fn network(
    rt: HostRuntime,
    alloc: Global,
    silence: u32,
) -> io::Result<Network<TcpListener<HostRuntime>, UdpDatagrams<HostRuntime>>> {
    let listener = TcpListener::new(rt, alloc, silence)?;
    let datagrams = UdpDatagrams::ringing(rt, listener.bell()?);
    Ok(Network {
        listener,
        datagrams,
    })
}

/// Shows the text that the first word asks for, or else runs the program, and closes the link.
fn run_with<R: Threads + Wait + Sync>(
    handle: &R,
    rt: HostRuntime,
    arguments: &[String],
) -> Result<u8, AllocError> {
    let alloc = rt.alloc();
    let words: Vec<&str> = arguments.iter().map(|word| word.as_str()).collect(alloc)?;
    if let Some(text) = words.first().and_then(|word| shown_by(word)) {
        return Ok(match rt.print(text) {
            Ok(()) => Status::Done as u8,
            Err(_) => Status::Outside as u8,
        });
    }
    let silence = silence_of(alloc, &words)?;
    let mut world: World<System> = World {
        link: StreamLink::new(rt.stdin(), rt.stdout()),
        files: SystemFiles::new(rt),
        ports: FilePorts::new(rt),
        sink: StreamSink::new(rt.stdout()),
        clock: SystemClock::new(rt),
    };
    let mut network = match network(rt, alloc, silence) {
        Ok(network) => network,
        Err(error) if error.kind() == ErrorKind::OutOfMemory => return Err(AllocError),
        Err(_) => return Ok(Status::Outside as u8),
    };
    let status = run(handle, alloc, &words, &mut world, &mut network);
    world.link.close();
    Ok(status)
}

fn main(rt: HostRuntime) -> ExitCode {
    let status = match arguments(&rt) {
        Ok(arguments) => run_with(&rt, rt, &arguments).unwrap_or(Status::NoMemory as u8),
        Err(error) if error.kind() == ErrorKind::OutOfMemory => Status::NoMemory as u8,
        Err(_) => Status::Words as u8,
    };
    ExitCode::from(status)
}
