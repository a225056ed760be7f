// A server of many clients, behind its ports: the hall of its records, the bindings, the line, and the clients.
ghost use Rattle.std.specs.Prelude.{◌≡◌, length};
ghost use Rattle.desk_core.specs.Ports.{ports_there, ports_wanted};
ghost use Rattle.prog_listen.specs.Listening.{Announces, BindsDatagramsOf, BindsListenerOf, FollowsPorts, HasHosted, first_sight, front_of};
ghost use Rattle.hall_locks.specs.Passes.{hall_id, pass_hall, pass_view};

use crate::asked::Listening;
use crate::listened::{Listened, end_of_host};
use crate::setup::setup_of;
use desk_api::Site;
use desk_shared::{Hall, Pass, Records, open_hall};
use prog_source::{Printed, print};
use pva_outside::{BindStep, Clock, Datagrams, Listener, Port, Sink};
use srv_host::host;
use std::alloc::Global;
use std::sync::Wait;
use std::thread::Threads;

/// The line that tells that clients may come now.
const LINE: &[u8] = b"listening\n";

/// Serves the clients.
fn serve<
    R: Threads + Wait + Sync,
    P: Port + Send + Drop,
    A: Listener,
    G: Datagrams,
    S: Sink,
    C: Clock + Sync,
>(
    rt: &R,
    alloc: Global,
    asked: &Listening,
    site: &Site,
    hall: &Hall<Records<P>>,
    pass: Pass<Records<P>>,
    port: u16,
    listener: &mut A,
    datagrams: &mut G,
    sink: &mut S,
    clock: &C,
) -> Listened
    requires own { pass_hall pass ≡ hall_id hall.now }
    requires count { hall.now.count ≡ length site.now.names }
    requires first { pass_view pass ≡ first_sight asked.now site.now }
    ensures { HasHosted asked.now site.now (C.moment clock.now) port
        (front_of (A.door listener.old) (G.datagrams datagrams.old) (S.written sink.old) (S.faults sink.old))
        (front_of (A.door listener.new) (G.datagrams datagrams.new) (S.written sink.new) (S.faults sink.new))
        result }
{
    let setup = setup_of(asked, clock, port);
    let (hosted, _pass) = host(
        rt,
        alloc,
        hall,
        site,
        pass,
        listener,
        datagrams,
        clock,
        &setup,
        asked.beacon,
        asked.turns,
    );
    end_of_host(hosted)
}

/// Prints the line, and serves the clients.
fn announce<
    R: Threads + Wait + Sync,
    P: Port + Send + Drop,
    A: Listener,
    G: Datagrams,
    S: Sink,
    C: Clock + Sync,
>(
    rt: &R,
    alloc: Global,
    asked: &Listening,
    site: &Site,
    hall: &Hall<Records<P>>,
    pass: Pass<Records<P>>,
    port: u16,
    listener: &mut A,
    datagrams: &mut G,
    sink: &mut S,
    clock: &C,
) -> Listened
    requires own { pass_hall pass ≡ hall_id hall.now }
    requires count { hall.now.count ≡ length site.now.names }
    requires first { pass_view pass ≡ first_sight asked.now site.now }
    ensures { Announces asked.now site.now (C.moment clock.now) port
        (front_of (A.door listener.old) (G.datagrams datagrams.old) (S.written sink.old) (S.faults sink.old))
        (front_of (A.door listener.new) (G.datagrams datagrams.new) (S.written sink.new) (S.faults sink.new))
        result }
{
    match print(sink, LINE) {
        Printed::Whole => serve(
            rt, alloc, asked, site, hall, pass, port, listener, datagrams, sink, clock,
        ),
        Printed::Failed => Listened::Unprinted,
        Printed::NoMemory => Listened::NoMemory,
    }
}

/// Binds the datagrams, prints the line, and serves the clients.
fn bind_datagrams<
    R: Threads + Wait + Sync,
    P: Port + Send + Drop,
    A: Listener,
    G: Datagrams,
    S: Sink,
    C: Clock + Sync,
>(
    rt: &R,
    alloc: Global,
    asked: &Listening,
    site: &Site,
    hall: &Hall<Records<P>>,
    pass: Pass<Records<P>>,
    port: u16,
    listener: &mut A,
    datagrams: &mut G,
    sink: &mut S,
    clock: &C,
) -> Listened
    requires own { pass_hall pass ≡ hall_id hall.now }
    requires count { hall.now.count ≡ length site.now.names }
    requires first { pass_view pass ≡ first_sight asked.now site.now }
    ensures { BindsDatagramsOf asked.now site.now (C.moment clock.now) port
        (front_of (A.door listener.old) (G.datagrams datagrams.old) (S.written sink.old) (S.faults sink.old))
        (front_of (A.door listener.new) (G.datagrams datagrams.new) (S.written sink.new) (S.faults sink.new))
        result }
{
    match datagrams.bind(asked.searches_at()) {
        BindStep::Bound(_) => announce(
            rt, alloc, asked, site, hall, pass, port, listener, datagrams, sink, clock,
        ),
        BindStep::Failed => Listened::Unsearchable,
        BindStep::NoMemory => Listened::NoMemory,
    }
}

/// Binds the listener and the datagrams, prints the line, and serves the clients.
fn bind_listener<
    R: Threads + Wait + Sync,
    P: Port + Send + Drop,
    A: Listener,
    G: Datagrams,
    S: Sink,
    C: Clock + Sync,
>(
    rt: &R,
    alloc: Global,
    asked: &Listening,
    site: &Site,
    hall: &Hall<Records<P>>,
    pass: Pass<Records<P>>,
    listener: &mut A,
    datagrams: &mut G,
    sink: &mut S,
    clock: &C,
) -> Listened
    requires own { pass_hall pass ≡ hall_id hall.now }
    requires count { hall.now.count ≡ length site.now.names }
    requires first { pass_view pass ≡ first_sight asked.now site.now }
    ensures { BindsListenerOf asked.now site.now (C.moment clock.now)
        (front_of (A.door listener.old) (G.datagrams datagrams.old) (S.written sink.old) (S.faults sink.old))
        (front_of (A.door listener.new) (G.datagrams datagrams.new) (S.written sink.new) (S.faults sink.new))
        result }
{
    match listener.bind(asked.at) {
        BindStep::Bound(port) => bind_datagrams(
            rt, alloc, asked, site, hall, pass, port, listener, datagrams, sink, clock,
        ),
        BindStep::Failed => Listened::Unbound,
        BindStep::NoMemory => Listened::NoMemory,
    }
}

/// Opens the hall of the records of a site, with these ports, and serves it.
pub(crate) fn open<
    R: Threads + Wait + Sync,
    P: Port + Send + Drop,
    A: Listener,
    G: Datagrams,
    S: Sink,
    C: Clock + Sync,
>(
    rt: &R,
    alloc: Global,
    asked: &Listening,
    site: &Site,
    ports: Vec<Option<P>>,
    listener: &mut A,
    datagrams: &mut G,
    sink: &mut S,
    clock: &C,
) -> Listened
    requires { ports_there ports.items ≡ ports_wanted site.now.configs }
    ensures { FollowsPorts asked.now site.now (C.moment clock.now)
        (front_of (A.door listener.old) (G.datagrams datagrams.old) (S.written sink.old) (S.faults sink.old))
        (front_of (A.door listener.new) (G.datagrams datagrams.new) (S.written sink.new) (S.faults sink.new))
        result }
{
    let Ok((hall, pass)) = open_hall(alloc, site, ports, asked.journal) else {
        return Listened::NoMemory;
    };
    bind_listener(
        rt, alloc, asked, site, &hall, pass, listener, datagrams, sink, clock,
    )
}
