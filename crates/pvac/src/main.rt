//! A pvAccess client (get, put, put-get, monitor, info, call), which can be run against a server inside it.
#![tactic(auto)]

use cli_within::Status;
use prog_client::{Network, run};
use pva_net::{TcpDialer, UdpDatagrams};
use pva_outside::{FilePorts, Kinds, PlainLink, StreamSink, SystemClock, SystemFiles, World};
use std::alloc::{AllocError, Global};
use std::io::ErrorKind;
use std::process::ExitCode;
use std::{env, io, rt};

/// What `--help` shows.
const HELP: &str = "\
A pvAccess client (EPICS 7): gets, puts, monitors and calls channels, and prints what they show.

Usage: pvac get     NAME [OPTIONS]               prints the channel's value, a line for each field
       pvac put     NAME VALUE.. [OPTIONS]       writes a value, and prints the name alone
       pvac putget  NAME VALUE.. [OPTIONS]       writes a value, and prints what came of it
       pvac monitor NAME [OPTIONS]               prints the value, and then the fields that change
       pvac info    NAME [OPTIONS]               prints the channel's type, a line for each field
       pvac call    server OPERATION [OPTIONS]   calls channels, info or snapshot

--server A.B.C.D:PORT   the server of the channel; without it, the channel is searched for
--search A.B.C.D:PORT   where searches go (127.0.0.1:5076)
--rounds N       how many rounds of searches there are (3)
--within SOURCE  no network is used: a server of the records of SOURCE stands inside the program for this run alone. SOURCE is
                 the file of a database text, or NAME=VALUE, one longout and the decimal value that it opens with.
                 Nobody else writes to them, so that a monitor of more than one update waits in vain
--macros LIST    what $(A) and $(B) stand for in the text, as A=1,B=2
--fields LIST    the fields that a get, a putget or a monitor is for, as value,alarm.severity (all of them): at most 64
                 paths of at most 30 names. A path that isn't there is passed over beside one that is; alone it is refused
--atomic B       true or false: whether a get, put or putget of a group is one step (as the group's definition says)
--count N        after how many updates a monitor ends (1)
--queue N        how many updates the server keeps for a monitor (4); a server keeps 64 at most
--pipeline N     how many updates the server may send before the first is acknowledged (all)
--user U --host H   the user and the host that the server is told (none)
--idle N         after how many calls in which nothing comes, of 50 ms each, a round of searches or a run ends; with
                 --within, after how many rounds in which neither end has a byte (200)
--piece N        with --within, how many bytes each end gives the other in a round at most (4096)
--turns N        how many calls of the network a run may make; with --within, how many rounds it may take
                 (4611686018427387904). The dial takes up to 5 s, and counts in neither --idle nor --turns
-h, --help       shows this text, as the first word
-V, --version    shows the version, as the first word

A NAME has 1 to 200 bytes. An N is a decimal number from 1 to 2147483647, or of --turns to 4611686018427387904.

The first line that is printed is the channel's name, and then comes a line for each field: its path, and its value. Texts
stand in quotes, in which a backslash comes before a quote and a backslash, and \\n, \\t and \\x with two digits stand for
control characters; lists stand in [a, b], a number of floating point as its bits (1.5 as bits:0x3ff8000000000000), a choice as
its number (.index) beside the texts of all choices; ` overrun` behind a field says that it changed more than once since the
update before. For info the value is the field's type, as int, string[] or structure alarm_t. A fault prints nothing: the
status alone tells it.

A VALUE is a decimal number that the field's type has, true or false, a text without quotes, a choice of an enumeration or its
number; no number of floating point can be written. Several are the elements of a list, before which no count stands; a list
without elements can't be written.
FIELD=VALUE writes other fields than `value`, as those of a group; then every VALUE has that form, and a choice is given by its
number alone, as mode.value.index=1. A VALUE that begins with - stands behind the word --.
The numbers of options have no zero in front, and a run has one NAME. No variable of the environment is read.

Examples over the network:

    pvac get BL:M1:Pos
    pvac --search 10.0.0.255:5076 get BL:M1:Pos
    pvac --server 10.0.0.7:5075 put BL:M1:Pos 1500
    pvac put BL:M1:Mode Move
    pvac put BL:M1:Trace 1 2 3
    pvac monitor BL:M1:Pos --count 3
    pvac --server 10.0.0.7:5075 monitor BL:M1:Pos --count 2147483647 --idle 2147483647

Examples without it, with the file slide.db:

    record(longout, \"$(P):Pos\") { field(DESC, \"Position of the slide\") field(VAL, \"1200\") }

    pvac --within slide.db --macros P=BL:M1 get BL:M1:Pos --fields value
        BL:M1:Pos
        value 1200
    pvac --within slide.db --macros P=BL:M1 get BL:M1:Pos.DESC --fields value
        BL:M1:Pos.DESC
        value \"Position of the slide\"
    pvac --within examples/slide.db --macros P=BL:M1 putget BL:M1:G mode.value.index=1 pos=5500 --fields pos
        BL:M1:G
        pos 5500
    pvac --within X=42 info X
    pvac --within X=42 putget X 7 --fields value
    pvac --within X=42 put X -- -5
    pvac --within X=42 monitor X --count 1
    pvac --within X=42 call server channels

Status: 0 done; 1 the server refused; 2 words that aren't taken, or that give no value of the channel; 3 no server answered
that it has the channel; 4 a file, a port, a print or the network failed, or the server ended; 5 the server's bytes are wrong;
6 nothing came any more; 7 no memory; 8 the database text is wrong; 9 the turns were spent.
";

/// What `--version` shows.
const VERSION: &str = "pvac 0.1.0\n";

/// The outside of the system: its files, standard output and its clock. The network stands beside it.
struct System;

impl Kinds for System {
    type Link = PlainLink;

    type Files = SystemFiles<HostRuntime>;

    type Ports = FilePorts<HostRuntime>;

    type Sink = StreamSink<rt::Stdout>;

    type Clock = SystemClock<HostRuntime>;
}

/// The text that the first word asks for.
fn shown_by(word: &str) -> Option<&'static str> {
    match word {
        "--help" | "-h" => Some(HELP),
        "--version" | "-V" => Some(VERSION),
        _ => None,
    }
}

/// The arguments, without the program's name.
fn arguments(rt: &HostRuntime) -> io::Result<Vec<String>> {
    let mut arguments = env::args(rt)?;
    let _name = arguments.next();
    Ok(arguments.collect(rt.alloc())?)
}

/// Shows the text that the first word asks for, or else runs the program.
fn run_with(rt: HostRuntime, arguments: &[String]) -> Result<u8, AllocError> {
    let alloc = rt.alloc();
    let words: Vec<&str> = arguments.iter().map(|word| word.as_str()).collect(alloc)?;
    if let Some(text) = words.first().and_then(|word| shown_by(word)) {
        return Ok(match rt.print(text) {
            Ok(()) => Status::Done.number(),
            Err(_) => Status::Outside.number(),
        });
    }
    let mut world: World<System> = World {
        link: PlainLink::new(alloc, Vec::new(alloc)),
        files: SystemFiles::new(rt),
        ports: FilePorts::new(rt),
        sink: StreamSink::new(rt.stdout()),
        clock: SystemClock::new(rt),
    };
    let mut network = Network {
        datagrams: UdpDatagrams::new(rt),
        dialer: TcpDialer::new(rt),
    };
    Ok(run(alloc, &words, &mut world, &mut network))
}

fn main(rt: HostRuntime) -> ExitCode {
    let status = match arguments(&rt) {
        Ok(arguments) => run_with(rt, &arguments).unwrap_or(Status::NoMemory.number()),
        Err(error) if error.kind() == ErrorKind::OutOfMemory => Status::NoMemory.number(),
        Err(_) => Status::Words.number(),
    };
    ExitCode::from(status)
}
