// A server of many clients.
ghost use Rattle.std.specs.Prelude.{◌≡◌};
ghost use Rattle.prog_source.specs.Words.{IsNamed, source_of};
ghost use Rattle.prog_listen.specs.Listening.{Listens, MakesPortsOf, front_of};

use crate::asked::Listening;
use crate::listened::{Listened, end_of_source};
use crate::network::Network;
use crate::opening::open;
use desk_api::Site;
use prog_source::{PortsStop, Source, make_ports, read_site};
use pva_outside::{Clock, Datagrams, Kinds, Listener, PortMaker, Sink, World};
use pvd_type::Name;
use std::alloc::Global;
use std::sync::Wait;
use std::thread::Threads;

/// Makes the ports of a site, and serves it.
fn make_and_open<
    R: Threads + Wait + Sync,
    M: PortMaker,
    A: Listener,
    G: Datagrams,
    S: Sink,
    C: Clock + Sync,
>(
    rt: &R,
    alloc: Global,
    asked: &Listening,
    site: &Site,
    maker: &mut M,
    listener: &mut A,
    datagrams: &mut G,
    sink: &mut S,
    clock: &C,
) -> Listened
    ensures { MakesPortsOf asked.now site.now (C.moment clock.now) (M.maker maker.old) (M.maker maker.new)
        (front_of (A.door listener.old) (G.datagrams datagrams.old) (S.written sink.old) (S.faults sink.old))
        (front_of (A.door listener.new) (G.datagrams datagrams.new) (S.written sink.new) (S.faults sink.new))
        result }
{
    match make_ports(alloc, site, maker) {
        Ok(ports) => open(
            rt, alloc, asked, site, ports, listener, datagrams, sink, clock,
        ),
        Err(PortsStop::Unmade) => Listened::Unmade,
        Err(PortsStop::NoMemory) => Listened::NoMemory,
    }
}

/// Serves many clients side by side from the records of a source with these macros (pvAccess Protocol Specification, "Connection
/// Management" and "Channel Discovery"): reads the source, makes the ports of its records, in their order, binds the listener and then the
/// datagrams, prints `listening` and a line feed, and serves until no client will come any more or as many accepts were made as may
/// be. It ends at the first of these that fails, and waits for its sessions before it answers.
pub fn listen<R: Threads + Wait + Sync, W: Kinds, A: Listener + Drop, G: Datagrams + Drop>(
    rt: &R,
    alloc: Global,
    source: Source<'_>,
    macros: &[(Name, Name)],
    asked: &Listening,
    world: &mut World<W>,
    network: &mut Network<A, G>,
) -> Listened
    requires { IsNamed (source_of source) }
    ensures listens { Listens asked.now macros.now (source_of source.entry) (W.Clock.moment world.old.clock)
        (record { files = W.Files.files world.old.files; ports = W.Ports.maker world.old.ports; front = front_of (A.door network.old.listener) (G.datagrams network.old.datagrams) (W.Sink.written world.old.sink) (W.Sink.faults world.old.sink) })
        (record { files = W.Files.files world.new.files; ports = W.Ports.maker world.new.ports; front = front_of (A.door network.new.listener) (G.datagrams network.new.datagrams) (W.Sink.written world.new.sink) (W.Sink.faults world.new.sink) })
        result }
    ensures link { W.Link.wire world.new.link ≡ W.Link.wire world.old.link }
{
    match read_site(alloc, source, macros, &mut world.files) {
        Ok(site) => make_and_open(
            rt,
            alloc,
            asked,
            &site,
            &mut world.ports,
            &mut network.listener,
            &mut network.datagrams,
            &mut world.sink,
            &world.clock,
        ),
        Err(stop) => end_of_source(stop),
    }
}
