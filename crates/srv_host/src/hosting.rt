// Many clients are served side by side.
ghost use Rattle.std.specs.Prelude.{◌≡◌, length};
ghost use Rattle.hall_locks.specs.Passes.{hall_id, pass_hall, pass_seen, pass_view};
ghost use Rattle.srv_host.specs.Hosting.{Hosts};
ghost use Rattle.srv_stream.specs.Streams.{moment_told};

use crate::accepting::accept_all;
use crate::endings::Endings;
use crate::hosted::{Hosted, answer};
use crate::joining::join_all;
use crate::session::Means;
use crate::settling::settle;
use desk_api::Site;
use desk_shared::{Hall, Pass, Records};
use pva_outside::{Clock, Datagrams, Listener, Peer, Port};
use pva_search::Setup;
use std::alloc::Global;
use std::sync::Wait;
use std::thread;
use std::thread::{Scope, Threads};

/// As `host`, with its threads in this scope.
pub(crate) fn host_in<
    's,
    E,
    R: Threads + Wait + Sync,
    A: Listener,
    P: Port + Send + Drop + 's,
    C: Clock + Sync,
    G: Datagrams,
>(
    scope: &Scope<'s, E>,
    rt: &'s R,
    alloc: Global,
    hall: &'s Hall<Records<P>>,
    site: &'s Site,
    pass: Pass<Records<P>>,
    listener: &mut A,
    datagrams: &mut G,
    clock: &'s C,
    endings: &'s Endings,
    setup: &Setup,
    beacon_to: Option<Peer>,
    turns: u32,
) -> (Hosted, Pass<Records<P>>)
where
    A::Link: 's,
    requires own { pass_hall pass ≡ hall_id hall.now }
    requires site { (pass_seen pass).base.site ≡ site.now }
    requires count { hall.now.count ≡ length site.now.names }
    ensures own { pass_hall result.1 ≡ pass_hall pass }
    ensures hosts { Hosts site.now setup.now beacon_to (moment_told (C.moment clock.now)) turns (pass_view pass) (pass_view result.1) (A.door listener.old) (A.door listener.new) (G.datagrams datagrams.old) (G.datagrams datagrams.new) result.0 }
{
    let means = Means {
        alloc,
        order: setup.order,
    };
    let mut keep = pass;
    let (running, stop) = accept_all(
        scope, rt, hall, site, &mut keep, listener, datagrams, clock, means, endings, setup,
        beacon_to, turns,
    );
    let served = running.len() as u64;
    let fine = join_all(rt, hall, &mut keep, listener, running, clock, means.order);
    let keep = settle(rt, alloc, hall, keep);
    (answer(stop, fine, served), keep)
}

/// As `host`. It gives back the listener and the datagrams too, since nobody is told what became of a reference that a scope took.
fn host_apart<
    'e,
    'l,
    'd,
    R: Threads + Wait + Sync,
    A: Listener,
    P: Port + Send + Drop,
    C: Clock + Sync,
    G: Datagrams,
>(
    rt: &'e R,
    alloc: Global,
    hall: &'e Hall<Records<P>>,
    site: &'e Site,
    pass: Pass<Records<P>>,
    listener: &'l mut A,
    datagrams: &'d mut G,
    clock: &'e C,
    endings: &'e Endings,
    setup: &'e Setup,
    beacon_to: Option<Peer>,
    turns: u32,
) -> (Hosted, Pass<Records<P>>, &'l mut A, &'d mut G)
where
    A::Link: 'e,
    P: 'e,
    requires own { pass_hall pass ≡ hall_id hall.now }
    requires site { (pass_seen pass).base.site ≡ site.now }
    requires count { hall.now.count ≡ length site.now.names }
    ensures listener { result.2.ghost_name ≡ listener.entry.ghost_name }
    ensures datagrams { result.3.ghost_name ≡ datagrams.entry.ghost_name }
    ensures own { pass_hall result.1 ≡ pass_hall pass }
    ensures hosts { Hosts site.now setup.now beacon_to (moment_told (C.moment clock.now)) turns (pass_view pass) (pass_view result.1) (A.door listener.old) (A.door result.2.now) (G.datagrams datagrams.old) (G.datagrams result.3.now) result.0 }
{
    thread::scope(
        thread::scope_env(),
        rt,
        move |scope| -> (Hosted, Pass<Records<P>>, &mut A, &mut G)
            requires { (pass_hall pass ≡ hall_id hall.now) × ((pass_seen pass).base.site ≡ site.now) × (hall.now.count ≡ length site.now.names) }
            ensures listener { result.2.ghost_name ≡ listener.entry.ghost_name }
            ensures datagrams { result.3.ghost_name ≡ datagrams.entry.ghost_name }
            ensures own { pass_hall result.1 ≡ pass_hall pass }
            ensures hosts { Hosts site.entry.now setup.entry.now beacon_to (moment_told (C.moment clock.entry.now)) turns (pass_view pass) (pass_view result.1) (A.door listener.entry.now) (A.door result.2.now) (G.datagrams datagrams.entry.now) (G.datagrams result.3.now) result.0 }
        {
            let (hosted, pass) = host_in(
                scope, rt, alloc, hall, site, pass, listener, datagrams, clock, endings, setup,
                beacon_to, turns,
            );
            (hosted, pass, listener, datagrams)
        },
    )
}

/// As `host`. It gives the listener back: of two references that come back from one call, only what became of the last is told.
fn host_giving_listener<
    'l,
    R: Threads + Wait + Sync,
    A: Listener,
    P: Port + Send + Drop,
    C: Clock + Sync,
    G: Datagrams,
>(
    rt: &R,
    alloc: Global,
    hall: &Hall<Records<P>>,
    site: &Site,
    pass: Pass<Records<P>>,
    listener: &'l mut A,
    datagrams: &mut G,
    clock: &C,
    setup: &Setup,
    beacon_to: Option<Peer>,
    turns: u32,
) -> (Hosted, Pass<Records<P>>, &'l mut A)
    requires own { pass_hall pass ≡ hall_id hall.now }
    requires site { (pass_seen pass).base.site ≡ site.now }
    requires count { hall.now.count ≡ length site.now.names }
    ensures listener { result.2.ghost_name ≡ listener.entry.ghost_name }
    ensures own { pass_hall result.1 ≡ pass_hall pass }
    ensures hosts { Hosts site.now setup.now beacon_to (moment_told (C.moment clock.now)) turns (pass_view pass) (pass_view result.1) (A.door listener.old) (A.door result.2.now) (G.datagrams datagrams.old) (G.datagrams datagrams.new) result.0 }
{
    let endings = Endings::new(alloc);
    let (hosted, pass, listener, _datagrams) = host_apart(
        rt, alloc, hall, site, pass, listener, datagrams, clock, &endings, setup, beacon_to, turns,
    );
    (hosted, pass, listener)
}

/// Serves the clients of a listener side by side: each link in a thread of its own, or in the caller's where none can be started, on a
/// desk whose pass is split from this one. Between the accepts it answers the searches that come as datagrams, and sends a beacon in the
/// first turn and each hundredth, where it is told where to (pvAccess Protocol Specification, "Channel Discovery" and "Connection
/// Management"). A turn is one accept, and then, where that gave a link or was idle, up to 16 receives, until one gets nothing.
///
/// It accepts no further link at the listener's end, after `turns` accepts, where the listener fails, or where memory runs out for what
/// the host itself does. Then it waits until all sessions have ended, hands their links back to the listener, in the order of their
/// accepts, and takes in their passes. A session that finds no memory ends alone. It may wait.
///
/// The thread of a session that has ended is joined behind the turn in which that is told. Its memory grows with the clients that came:
/// of each it keeps the link, closed, and why the session ended.
pub fn host<
    R: Threads + Wait + Sync,
    A: Listener,
    P: Port + Send + Drop,
    C: Clock + Sync,
    G: Datagrams,
>(
    rt: &R,
    alloc: Global,
    hall: &Hall<Records<P>>,
    site: &Site,
    pass: Pass<Records<P>>,
    listener: &mut A,
    datagrams: &mut G,
    clock: &C,
    setup: &Setup,
    beacon_to: Option<Peer>,
    turns: u32,
) -> (Hosted, Pass<Records<P>>)
    requires own { pass_hall pass ≡ hall_id hall.now }
    requires site { (pass_seen pass).base.site ≡ site.now }
    requires count { hall.now.count ≡ length site.now.names }
    ensures own { pass_hall result.1 ≡ pass_hall pass }
    ensures hosts { Hosts site.now setup.now beacon_to (moment_told (C.moment clock.now)) turns (pass_view pass) (pass_view result.1) (A.door listener.old) (A.door listener.new) (G.datagrams datagrams.old) (G.datagrams datagrams.new) result.0 }
{
    let (hosted, pass, _listener) = host_giving_listener(
        rt, alloc, hall, site, pass, listener, datagrams, clock, setup, beacon_to, turns,
    );
    (hosted, pass)
}
