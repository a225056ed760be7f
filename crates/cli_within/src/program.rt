// The program, over the world that it is given.
ghost use Rattle.std.specs.Prelude.{◌≡◌, ◌<◌, map};
ghost use Rattle.desk_core.specs.Ports.{ports_there, ports_wanted};
ghost use Rattle.prog_source.specs.Words.{IsNamed};
ghost use Rattle.cli_within.specs.Running.{HasDone, HasRun, Runs, RunsTo, SiteRuns, journal};
ghost use Rattle.cli_within.specs.Running as running;
ghost use Rattle.cli_within.specs.Words as words;

use crate::client_end::discard;
use crate::rounds::{Limits, exchange};
use crate::stop::{End, Status, Stop, status_of};
use crate::words::{Asked, WordsStop, read_words};
use cli_session::Ask;
use desk_api::Site;
use desk_core::SoloDesk;
use prog_source::{PortsStop, SourceStop, make_ports, read_site};
use pva_outside::{Clock, Kinds, Port, PortMaker, Sink, World};
use std::alloc::Global;

/// What the entries of the server's history may weigh together.
const JOURNAL: u64 = 268_435_456;

/// Runs an operation against a server of a desk of this site with these ports.
fn exchange_with<P: Port + Drop, C: Clock, S: Sink>(
    alloc: Global,
    ask: Ask,
    limits: Limits,
    site: Site,
    ports: Vec<Option<P>>,
    clock: &C,
    sink: &mut S,
) -> End
    requires ports { ports_there ports.items ≡ ports_wanted site.configs }
    requires some { 0 < limits.piece }
    ensures { HasRun ask limits (record { site = site; limit = journal }) (C.moment clock.now) (S.written sink.old) (S.written sink.new) (S.faults sink.old) (S.faults sink.new) result }
{
    let Ok(mut desk) = SoloDesk::new(alloc, site, ports, JOURNAL) else {
        discard(ask);
        return End::Stopped(Stop::NoMemory);
    };
    let end = exchange(alloc, ask, &mut desk, clock, sink, limits);
    discard(desk);
    end
}

/// The status that tells why a site's ports can't be had.
fn status_of_unmade(stop: PortsStop) -> Status
    ensures { result ≡ running.status_of_unmade stop }
{
    match stop {
        PortsStop::Unmade => Status::Outside,
        PortsStop::NoMemory => Status::NoMemory,
    }
}

/// Makes the ports of this site, and runs an operation against a server of its desk.
fn run_on<M: PortMaker, C: Clock, S: Sink>(
    alloc: Global,
    ask: Ask,
    limits: Limits,
    site: Site,
    maker: &mut M,
    clock: &C,
    sink: &mut S,
) -> Status
    requires some { 0 < limits.piece }
    ensures { SiteRuns ask limits site (C.moment clock.now) (M.maker maker.old) (M.maker maker.new) (S.written sink.old) (S.written sink.new) (S.faults sink.old) (S.faults sink.new) result }
{
    match make_ports(alloc, &site, maker) {
        Ok(ports) => status_of(exchange_with(alloc, ask, limits, site, ports, clock, sink)),
        Err(stop) => {
            discard(ask);
            discard(site);
            status_of_unmade(stop)
        }
    }
}

/// The status that tells why a source gives no site.
fn status_of_source(stop: &SourceStop) -> Status
    ensures { result ≡ running.status_of_source stop.now }
{
    match stop {
        SourceStop::Unread => Status::Outside,
        SourceStop::Fault(_) => Status::Site,
        SourceStop::NoMemory => Status::NoMemory,
    }
}

/// Runs what the words ask for.
fn run_asked<W: Kinds>(alloc: Global, asked: Asked<'_>, world: &mut World<W>) -> Status
    requires named { IsNamed (words.asked_of asked).source }
    requires some { 0 < asked.piece }
    ensures { HasDone (words.asked_of asked.entry) (W.Clock.moment world.old.clock)
        (record { wire = W.Link.wire world.old.link; files = W.Files.files world.old.files; ports = W.Ports.maker world.old.ports; printed = W.Sink.written world.old.sink; print_faults = W.Sink.faults world.old.sink })
        (record { wire = W.Link.wire world.new.link; files = W.Files.files world.new.files; ports = W.Ports.maker world.new.ports; printed = W.Sink.written world.new.sink; print_faults = W.Sink.faults world.new.sink })
        result }
{
    let Asked {
        ask,
        source,
        macros,
        idle,
        piece,
        turns,
    } = asked;
    let limits = Limits { idle, piece, turns };
    match read_site(alloc, source, &macros, &mut world.files) {
        Ok(site) => run_on(
            alloc,
            ask,
            limits,
            site,
            &mut world.ports,
            &world.clock,
            &mut world.sink,
        ),
        Err(stop) => status_of_source(&stop),
    }
}

/// The status that tells why words ask for nothing.
fn status_of_words(stop: WordsStop) -> Status
    ensures { result ≡ running.status_of_words stop }
{
    match stop {
        WordsStop::Refused => Status::Words,
        WordsStop::NoMemory => Status::NoMemory,
    }
}

/// Runs what the words ask for, where they are taken.
fn run_words<W: Kinds>(alloc: Global, words: &[&str], world: &mut World<W>) -> Status
    ensures { RunsTo (map (λ w. w.now) words.now) (W.Clock.moment world.old.clock)
        (record { wire = W.Link.wire world.old.link; files = W.Files.files world.old.files; ports = W.Ports.maker world.old.ports; printed = W.Sink.written world.old.sink; print_faults = W.Sink.faults world.old.sink })
        (record { wire = W.Link.wire world.new.link; files = W.Files.files world.new.files; ports = W.Ports.maker world.new.ports; printed = W.Sink.written world.new.sink; print_faults = W.Sink.faults world.new.sink })
        result }
{
    match read_words(alloc, words) {
        Ok(asked) => run_asked(alloc, asked, world),
        Err(stop) => status_of_words(stop),
    }
}

/// Runs the program with these words, without its own name among them, and answers its exit status.
///
/// `OP NAME [VALUE ..] --within SOURCE` runs one operation of a client (`get`, `put`, `putget`, `monitor`, `info`, `call`) on the
/// channel NAME against a server inside the program, whose desk has the records of SOURCE with their ports. It prints NAME and
/// then the lines of what the operation tells: in whatever pieces the bytes pass between the two ends, the text is the same
/// function of the bytes that the server said, and it is a front of it where the run ends early. SOURCE is `NAME=VALUE`, one
/// longout, or the name of a file with a database text. No connection is used. The first fault is told by the status alone: of
/// the words, of SOURCE's file, of its text, of the ports in the order of the records, of the operation.
pub fn run<W: Kinds>(alloc: Global, words: &[&str], world: &mut World<W>) -> u8
    ensures { Runs (map (λ w. w.now) words.now) (W.Clock.moment world.old.clock)
        (record { wire = W.Link.wire world.old.link; files = W.Files.files world.old.files; ports = W.Ports.maker world.old.ports; printed = W.Sink.written world.old.sink; print_faults = W.Sink.faults world.old.sink })
        (record { wire = W.Link.wire world.new.link; files = W.Files.files world.new.files; ports = W.Ports.maker world.new.ports; printed = W.Sink.written world.new.sink; print_faults = W.Sink.faults world.new.sink })
        result }
{
    run_words(alloc, words, world).number()
}
