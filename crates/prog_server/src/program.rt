// The program, over the world that it is given.
ghost use Rattle.std.specs.Prelude.{◌≡◌, ◌⊎◌, ℕ, List, IfSome, length, map};
ghost use Rattle.pva_outside.specs.Count.{Rose};
ghost use Rattle.desk_core.specs.Ports.{ports_there, ports_wanted};
ghost use Rattle.prog_server.specs.Running.{Checking, Drilling, RunsAlone, Serves, Serving, SiteServes, Tells};
ghost use Rattle.prog_server.specs.Completeness.{Completes};
ghost use Rattle.prog_server.specs.Running as running;
ghost use Rattle.prog_server.specs.Telling.{counts_line, fault_line};
ghost use Rattle.prog_server.specs.Sources.{IsChecked, IsServedFrom};
ghost use Rattle.prog_server.specs.Words.{AreTaken};
ghost use Rattle.prog_server.specs.Words as words;
ghost use Rattle.prog_source.specs.Words.{IsNamed, source_of};
ghost use Rattle.srv_stream.specs.Faults.{EndsAtFirstFault, FirstFault};

use crate::telling::{line_of_fault, line_of_site};
use crate::words::{Asked, Task, WordsStop, read_words};
use desk_api::{Moment, Site, SiteFault};
use desk_core::{SoloDesk, discard};
use prog_drill::drill;
use prog_source::{PortsStop, Printed, Source, SourceStop, make_ports, print, read_site};
use pva_outside::{Clock, Files, Kinds, Link, Port, PortMaker, Sink, World};
use srv_stream::{Ended, serve_connection};
use std::alloc::Global;

/// What the exit status tells.
#[derive(Clone, Copy, Debug, PartialEq, Eq)]
pub enum Status {
    /// All is done: the client ended its stream at the boundary of a message, and all was answered; the source that was
    /// checked has no fault; or the drill is over.
    Done = 0,
    /// The words aren't taken.
    Words = 2,
    /// A file can't be read, or a port can't be made.
    Files = 3,
    /// The database text is at fault.
    Site = 4,
    /// The client's stream is at fault or ended inside a message.
    Stream = 5,
    /// The link failed, or a write to standard output did.
    Outside = 6,
    /// Memory ran out.
    NoMemory = 7,
    /// The calls of the link were spent.
    Spent = 8,
}

/// The status that tells why a connection ended.
fn status_of(ended: Ended) -> u8
    ensures { result ≡ running.status_of ended }
{
    let status = match ended {
        Ended::Closed => Status::Done,
        Ended::Truncated(_) | Ended::Bad(_, _) => Status::Stream,
        Ended::ReadFault | Ended::WriteFault => Status::Outside,
        Ended::NoMemory => Status::NoMemory,
        Ended::Spent(_) => Status::Spent,
    };
    status as u8
}

/// The status that tells why a site's ports can't be had.
fn status_of_unmade(stop: PortsStop) -> u8
    ensures { result ≡ running.status_of_unmade stop }
{
    match stop {
        PortsStop::Unmade => Status::Files as u8,
        PortsStop::NoMemory => Status::NoMemory as u8,
    }
}

/// Serves the link from a desk of this site with these ports.
fn serve_with<P: Port + Drop, L: Link, C: Clock>(
    alloc: Global,
    asked: &Asked<'_>,
    site: Site,
    ports: Vec<Option<P>>,
    link: &mut L,
    clock: &C,
) -> Ended
    requires { ports_there ports.items ≡ ports_wanted site.configs }
    ensures serves { Serves (record { site = site; limit = asked.now.journal }) asked.now.order asked.now.turns (L.wire link.old) (L.wire link.new) (C.moment clock.now) result }
    ensures fault { EndsAtFirstFault L.wire link.old link.new result }
{
    let Ok(mut desk) = SoloDesk::new(alloc, site, ports, asked.journal) else {
        return Ended::NoMemory;
    };
    let ended = serve_connection(alloc, &mut desk, link, clock, asked.order, asked.turns);
    // the program ends behind its connection, so that its history isn't let go entry by entry
    std::mem::forget(desk);
    ended
}

/// Makes the ports of this site, and serves the link from its desk.
fn serve_site<M: PortMaker, L: Link, C: Clock>(
    alloc: Global,
    asked: &Asked<'_>,
    site: Site,
    maker: &mut M,
    link: &mut L,
    clock: &C,
) -> u8
    ensures serves { SiteServes (words.asked_of asked.now) site (C.moment clock.now) (M.maker maker.old) (M.maker maker.new) (L.wire link.old) (L.wire link.new) result }
    ensures fault { result ≡ 6 → FirstFault L.wire link.old link.new }
{
    let ports = match make_ports(alloc, &site, maker) {
        Ok(ports) => ports,
        Err(stop) => return status_of_unmade(stop),
    };
    status_of(serve_with(alloc, asked, site, ports, link, clock))
}

/// The status that tells what became of a line, where this one tells that it was printed whole.
fn status_by(whole: u8, printed: Printed) -> u8
    ensures { result ≡ running.status_by whole printed }
{
    match printed {
        Printed::Whole => whole,
        Printed::Failed => Status::Outside as u8,
        Printed::NoMemory => Status::NoMemory as u8,
    }
}

/// Runs the drill of this number, and prints what it comes to.
fn run_drill<C: Clock, S: Sink>(alloc: Global, number: u64, clock: &C, sink: &mut S) -> u8
    ensures { Drilling number (S.written sink.old) (S.written sink.new) (S.faults sink.old) (S.faults sink.new) result }
{
    let (seconds, nanoseconds) = clock.now();
    let Ok(lines) = drill(alloc, number, Moment::new(seconds, nanoseconds)) else {
        return Status::NoMemory as u8;
    };
    status_by(Status::Done as u8, print(sink, lines.as_bytes()))
}

/// Prints what a site has.
fn tell_site<S: Sink>(alloc: Global, site: &Site, sink: &mut S) -> u8
    ensures { Tells (counts_line (length site.now.names) (length site.now.groups)) 0 (S.written sink.old) (S.written sink.new) (S.faults sink.old) (S.faults sink.new) result }
{
    let Ok(line) = line_of_site(alloc, site) else {
        return Status::NoMemory as u8;
    };
    status_by(Status::Done as u8, print(sink, line.as_bytes()))
}

/// Prints where a text is wrong.
fn tell_fault<S: Sink>(alloc: Global, fault: &SiteFault, sink: &mut S) -> u8
    ensures { Tells (fault_line fault.now) 4 (S.written sink.old) (S.written sink.new) (S.faults sink.old) (S.faults sink.new) result }
{
    let Ok(line) = line_of_fault(alloc, fault) else {
        return Status::NoMemory as u8;
    };
    status_by(Status::Site as u8, print(sink, line.as_bytes()))
}

/// Prints what a source has, or where it is wrong.
fn check<S: Sink>(alloc: Global, found: &Result<Site, SourceStop>, sink: &mut S) -> u8
    ensures { Checking found.now (S.written sink.old) (S.written sink.new) (S.faults sink.old) (S.faults sink.new) result }
{
    match found {
        Ok(site) => tell_site(alloc, site, sink),
        Err(SourceStop::Fault(fault)) => tell_fault(alloc, fault, sink),
        Err(SourceStop::Unread) => Status::Files as u8,
        Err(SourceStop::NoMemory) => Status::NoMemory as u8,
    }
}

/// Serves the link from a desk of what a source gave.
fn serve<M: PortMaker, L: Link, C: Clock>(
    alloc: Global,
    asked: &Asked<'_>,
    found: Result<Site, SourceStop>,
    maker: &mut M,
    link: &mut L,
    clock: &C,
) -> u8
    ensures serves { Serving (words.asked_of asked.now) found (C.moment clock.now) (M.maker maker.old) (M.maker maker.new) (L.wire link.old) (L.wire link.new) result }
    ensures fault { result ≡ 6 → FirstFault L.wire link.old link.new }
{
    match found {
        Ok(site) => serve_site(alloc, asked, site, maker, link, clock),
        Err(stop) => status_of_stop(&stop),
    }
}

/// The status that tells why a source gives no site to serve.
fn status_of_stop(stop: &SourceStop) -> u8
    ensures { result ≡ running.status_of_stop stop.now }
{
    match stop {
        SourceStop::Unread => Status::Files as u8,
        SourceStop::Fault(_) => Status::Site as u8,
        SourceStop::NoMemory => Status::NoMemory as u8,
    }
}

/// Opens a source, and prints what it has, or where it is wrong.
#[tactic(auto, using(crate::proofs::Outcomes::checking_rose))]
fn check_source<F: Files, S: Sink>(
    alloc: Global,
    asked: &Asked<'_>,
    source: Source<'_>,
    files: &mut F,
    sink: &mut S,
) -> u8
    requires { IsNamed (source_of source) }
    ensures checked { IsChecked asked.now.macros.items (source_of source.entry) (F.files files.old) (F.files files.new) (S.written sink.old) (S.written sink.new) (S.faults sink.old) (S.faults sink.new) result }
    ensures fault { result ≡ 6 → Rose (S.faults sink.old) (S.faults sink.new) }
{
    let found = read_site(alloc, source, &asked.macros, files);
    let status = check(alloc, &found, sink);
    discard(found);
    status
}

/// Opens the source that one connection is served from, and serves it.
fn serve_source<W: Kinds>(
    alloc: Global,
    asked: &Asked<'_>,
    source: Source<'_>,
    world: &mut World<W>,
) -> u8
    requires { IsNamed (source_of source) }
    ensures served { IsServedFrom (words.asked_of asked.now) (source_of source.entry) (W.Files.files world.old.files) (W.Files.files world.new.files) (W.Clock.moment world.old.clock) (W.Ports.maker world.old.ports) (W.Ports.maker world.new.ports) (W.Link.wire world.old.link) (W.Link.wire world.new.link) result }
    ensures fault { result ≡ 6 → FirstFault W.Link.wire world.old.link world.new.link }
    ensures printed { W.Sink.written world.new.sink ≡ W.Sink.written world.old.sink }
    ensures print_faults { W.Sink.faults world.new.sink ≡ W.Sink.faults world.old.sink }
    ensures clock { W.Clock.moment world.new.clock ≡ W.Clock.moment world.old.clock }
{
    let found = read_site(alloc, source, &asked.macros, &mut world.files);
    serve(
        alloc,
        asked,
        found,
        &mut world.ports,
        &mut world.link,
        &world.clock,
    )
}

/// Runs what words ask for that are taken, as `run_alone` says.
#[tactic(auto, using(crate::proofs::Outcomes::named_asked, crate::proofs::Outcomes::runs_check, crate::proofs::Outcomes::runs_inetd, crate::proofs::Outcomes::runs_drill, crate::proofs::Outcomes::no_source_to_check, crate::proofs::Outcomes::no_source_to_serve, crate::proofs::Outcomes::drilling_rose, crate::proofs::Outcomes::is_left))]
fn run_asked<W: Kinds>(alloc: Global, asked: &Asked<'_>, world: &mut World<W>) -> Option<u8>
    requires { (given : List (List ℕ)) × AreTaken given (words.asked_of asked.now) }
    ensures runs { (given : List (List ℕ)) → AreTaken given (words.asked_of asked.now) → RunsAlone given (W.Clock.moment world.old.clock)
        (record { wire = W.Link.wire world.old.link; files = W.Files.files world.old.files; ports = W.Ports.maker world.old.ports; printed = W.Sink.written world.old.sink; print_faults = W.Sink.faults world.old.sink })
        (record { wire = W.Link.wire world.new.link; files = W.Files.files world.new.files; ports = W.Ports.maker world.new.ports; printed = W.Sink.written world.new.sink; print_faults = W.Sink.faults world.new.sink })
        result }
    ensures fault { IfSome result (λ status. status ≡ 6 → FirstFault W.Link.wire world.old.link world.new.link ⊎ Rose (W.Sink.faults world.old.sink) (W.Sink.faults world.new.sink)) }
    ensures clock { W.Clock.moment world.new.clock ≡ W.Clock.moment world.old.clock }
{
    match asked.task {
        Task::Drill(number) => Some(run_drill(alloc, number, &world.clock, &mut world.sink)),
        Task::Check => {
            let Some(source) = asked.source else {
                return Some(Status::Words as u8);
            };
            let status = check_source(alloc, asked, source, &mut world.files, &mut world.sink);
            Some(status)
        }
        Task::Inetd => {
            let Some(source) = asked.source else {
                return Some(Status::Words as u8);
            };
            Some(serve_source(alloc, asked, source, world))
        }
        Task::Listen(_) => None,
    }
}

/// Runs what the words ask for, where that isn't a server of many clients, and answers the exit status; the words come without the program's
/// own name. None where they ask for such a server: then nothing was done.
///
/// `--inetd SOURCE` serves one connection over the world's link, from a desk of the records of SOURCE with their ports, and
/// prints nothing. `--check SOURCE` prints what SOURCE has, or where it is wrong, and makes no port. SOURCE is `NAME=VALUE`,
/// one longout, or the name of a file with a database text. `--drill N` runs a session of ten thousand puts in memory, which
/// depends on N alone, and prints what it comes to in five lines. The first fault is told by the status alone: of the words, of
/// SOURCE's file, of its text, of the ports in the order of the records, of the serving.
pub fn run_alone<W: Kinds>(alloc: Global, words: &[&str], world: &mut World<W>) -> Option<u8>
    ensures runs { RunsAlone (map (λ w. w.now) words.now) (W.Clock.moment world.old.clock)
        (record { wire = W.Link.wire world.old.link; files = W.Files.files world.old.files; ports = W.Ports.maker world.old.ports; printed = W.Sink.written world.old.sink; print_faults = W.Sink.faults world.old.sink })
        (record { wire = W.Link.wire world.new.link; files = W.Files.files world.new.files; ports = W.Ports.maker world.new.ports; printed = W.Sink.written world.new.sink; print_faults = W.Sink.faults world.new.sink })
        result }
    ensures fault { IfSome result (λ status. status ≡ 6 → FirstFault W.Link.wire world.old.link world.new.link ⊎ Rose (W.Sink.faults world.old.sink) (W.Sink.faults world.new.sink)) }
    ensures clock { W.Clock.moment world.new.clock ≡ W.Clock.moment world.old.clock }
{
    match read_words(alloc, words) {
        Ok(asked) => {
            let answer = run_asked(alloc, &asked, world);
            discard(asked);
            answer
        }
        Err(WordsStop::Refused) => Some(Status::Words as u8),
        Err(WordsStop::NoMemory) => Some(Status::NoMemory as u8),
    }
}

/// A law: a run that meets no fault ends with status 0, or 7 where memory runs out.
pub fn faultless_runs_are_done()
    ensures { Completes }
{}
