// Links are accepted, and begun to be served; datagrams are answered between the accepts.
ghost use Rattle.std.specs.Prelude.{◌≡◌, OnErr, OnOk, length};
ghost use Rattle.histories.specs.History.{Every};
ghost use Rattle.hall_locks.specs.Passes.{hall_id, pass_hall, pass_seen, pass_view};
ghost use Rattle.srv_host.specs.Hosting.{HasAccepted};
ghost use Rattle.srv_host.specs.Running.{AcceptsOne, BeginsOne, IsBegun, wires_of};

use crate::answering::take_turn;
use crate::endings::Endings;
use crate::joining::join_ended;
use crate::running::{Running, begin};
use crate::session::Means;
use desk_api::{NoMemory, Site};
use desk_shared::{Hall, Pass, Records};
use pva_outside::{AcceptStep, Clock, Datagrams, Link, Listener, Peer, Port};
use pva_search::Setup;
use std::alloc::Global;
use std::marker::Brand;
use std::sync::Wait;
use std::thread::{Scope, Threads};

/// Why no further link is accepted.
#[derive(Clone, Copy, Debug, PartialEq, Eq)]
pub enum Stop {
    /// No client will come any more.
    End,
    /// As many accepts were made as may be.
    Turns,
    /// The listener failed.
    Fault,
    /// Memory ran out, in an accept or behind one.
    NoMemory,
}

/// The most bytes of a datagram over IPv4 (RFC 768, RFC 791).
const DATAGRAM: usize = 65_507;

/// Begins to serve a link on a pass that is split from this one.
#[tactic(none)]
fn begin_split<
    's,
    E,
    R: Threads + Wait + Sync,
    P: Port + Send + Drop + 's,
    L: Link + Send + Drop + 's,
    C: Clock + Sync,
>(
    scope: &Scope<'s, E>,
    rt: &'s R,
    hall: &'s Hall<Records<P>>,
    site: &'s Site,
    pass: &mut Pass<Records<P>>,
    link: L,
    clock: &'s C,
    means: Means,
    endings: &'s Endings,
    running: &mut Vec<Running<Records<P>, L, C>>,
) -> Result<(), NoMemory>
    requires own { pass_hall pass.old ≡ hall_id hall.now }
    requires site { (pass_seen pass.old).base.site ≡ site.now }
    requires count { hall.now.count ≡ length site.now.names }
    ensures own { pass_hall pass.new ≡ pass_hall pass.old }
    ensures kept { pass_view pass.new ≡ pass_view pass.old }
    ensures begun { OnOk result (BeginsOne L.wire C.moment (hall_id hall.now) (pass_seen pass.old) (C.moment clock.now) means.order (L.wire link) running.old.items running.new.items) }
    ensures none { OnErr result (running.new.items ≡ running.old.items) }
{
    let Ok(()) = running.try_reserve(1) else {
        return Err(NoMemory);
    };
    let Ok(split) = hall.split(pass) else {
        return Err(NoMemory);
    };
    let Ok(begun) = begin::<'s, E, Brand, R, P, L, C>(
        scope,
        rt,
        hall,
        site,
        split,
        link,
        clock,
        means,
        endings,
        running.len(),
    ) else {
        return Err(NoMemory);
    };
    running.push_reserved(begun);
    Ok(())
}

/// Accepts once, and begins to serve the link that came, where one did. An `Err` says why no further one is accepted.
fn accept<
    's,
    E,
    R: Threads + Wait + Sync,
    A: Listener,
    P: Port + Send + Drop + 's,
    C: Clock + Sync,
>(
    scope: &Scope<'s, E>,
    rt: &'s R,
    hall: &'s Hall<Records<P>>,
    site: &'s Site,
    pass: &mut Pass<Records<P>>,
    listener: &mut A,
    clock: &'s C,
    means: Means,
    endings: &'s Endings,
    running: &mut Vec<Running<Records<P>, A::Link, C>>,
) -> Result<(), Stop>
where
    A::Link: 's,
    requires own { pass_hall pass.old ≡ hall_id hall.now }
    requires site { (pass_seen pass.old).base.site ≡ site.now }
    requires count { hall.now.count ≡ length site.now.names }
    ensures own { pass_hall pass.new ≡ pass_hall pass.old }
    ensures kept { pass_view pass.new ≡ pass_view pass.old }
    ensures step { AcceptsOne A.Link.wire C.moment (hall_id hall.now) (pass_seen pass.old) (C.moment clock.now) means.order (A.door listener.old) (A.door listener.new) running.old.items running.new.items result }
{
    match listener.accept() {
        AcceptStep::Link(link) => {
            match begin_split(
                scope, rt, hall, site, pass, link, clock, means, endings, running,
            ) {
                Ok(()) => Ok(()),
                Err(_) => Err(Stop::NoMemory),
            }
        }
        AcceptStep::Idle => Ok(()),
        AcceptStep::End => Err(Stop::End),
        AcceptStep::Failed => Err(Stop::Fault),
        AcceptStep::NoMemory => Err(Stop::NoMemory),
    }
}

/// Room for a datagram.
fn room(alloc: Global) -> Result<Vec<u8>, NoMemory> {
    Ok(vec![in alloc; 0; DATAGRAM]?)
}

/// Accepts links and begins to serve each, and answers datagrams between the accepts, in at most so many turns. Behind each turn it joins
/// the threads of sessions that have ended.
#[tactic(none)]
pub(crate) fn accept_all<
    's,
    E,
    R: Threads + Wait + Sync,
    A: Listener,
    P: Port + Send + Drop + 's,
    C: Clock + Sync,
    G: Datagrams,
>(
    scope: &Scope<'s, E>,
    rt: &'s R,
    hall: &'s Hall<Records<P>>,
    site: &'s Site,
    pass: &mut Pass<Records<P>>,
    listener: &mut A,
    datagrams: &mut G,
    clock: &'s C,
    means: Means,
    endings: &'s Endings,
    setup: &Setup,
    beacon_to: Option<Peer>,
    turns: u32,
) -> (Vec<Running<Records<P>, A::Link, C>>, Stop)
where
    A::Link: 's,
    requires own { pass_hall pass.old ≡ hall_id hall.now }
    requires site { (pass_seen pass.old).base.site ≡ site.now }
    requires count { hall.now.count ≡ length site.now.names }
    ensures own { pass_hall pass.new ≡ pass_hall pass.old }
    ensures kept { pass_view pass.new ≡ pass_view pass.old }
    ensures going { Every (IsBegun A.Link.wire C.moment (hall_id hall.now) (pass_seen pass.old) (C.moment clock.now) means.order) result.0.items }
    ensures accepted { HasAccepted site.now setup.now beacon_to turns (A.door listener.old) (A.door listener.new) (G.datagrams datagrams.old) (G.datagrams datagrams.new) (wires_of A.Link.wire result.0.items) result.1 }
{
    let mut running = Vec::new(means.alloc);
    let Ok(mut buffer) = room(means.alloc) else {
        return (running, Stop::NoMemory);
    };
    'turns: for before in 0..turns {
        match accept(
            scope,
            rt,
            hall,
            site,
            pass,
            listener,
            clock,
            means,
            endings,
            &mut running,
        ) {
            Ok(()) => match take_turn(
                means.alloc,
                site,
                datagrams,
                setup,
                beacon_to,
                before + 1,
                &mut buffer,
            ) {
                Ok(()) => {
                    join_ended(rt, endings, &mut running);
                    continue 'turns;
                }
                Err(_) => return (running, Stop::NoMemory),
            },
            Err(stop) => return (running, stop),
        }
    }
    (running, Stop::Turns)
}
