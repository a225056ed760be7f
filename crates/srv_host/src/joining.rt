// Threads of sessions are joined, and their links and passes given back.
ghost use Rattle.std.specs.Prelude.{◌≡◌, ◌&&◌};
ghost use Rattle.histories.specs.History.{Every};
ghost use Rattle.hall_locks.specs.Passes.{hall_id, pass_hall, pass_seen, pass_view};
ghost use Rattle.srv_host.specs.Joining.{GivesBack, Joins, has_memory};
ghost use Rattle.srv_host.specs.Running.{IsBegun, IsRunning, all_serves, wires_of};
ghost use Rattle.srv_stream.specs.Streams.{moment_told};

use crate::endings::Endings;
use crate::running::Running;
use desk_shared::{Hall, Pass, Records};
use pva_outside::{Clock, Link, Listener, Port};
use pva_wire::Order;
use srv_stream::Ended;
use std::sync::Wait;
use std::thread::Threads;

/// Whether there was memory before, and for a session that ended so.
fn found_memory(before: bool, ended: Ended) -> bool
    ensures { result ≡ (before && has_memory ended) }
{
    if !before {
        return false;
    }
    match ended {
        Ended::NoMemory => false,
        _ => true,
    }
}

/// Whether both hold.
fn both(one: bool, two: bool) -> bool
    ensures { result ≡ (one && two) }
{
    one && two
}

/// Hands the link back, where all links before it were taken back.
fn give_back<A: Listener>(listener: &mut A, link: A::Link, going: bool) -> bool
    ensures { GivesBack (A.door listener.old) (A.door listener.new) (A.Link.wire link) going result }
{
    if !going {
        return false;
    }
    listener.retire(link).is_ok()
}

/// Joins the session of this number, where there is one.
fn join_at<R: Threads, P: Port + Drop, L: Link + Send + Drop, C: Clock>(
    rt: &R,
    running: &mut Vec<Running<Records<P>, L, C>>,
    number: usize,
)
    requires { Every (IsRunning L.wire C.moment) running.old.items }
    ensures runs { Every (IsRunning L.wire C.moment) running.new.items }
    ensures serves { all_serves running.new.items ≡ all_serves running.old.items }
{
    if number >= running.len() {
        return;
    }
    running[number].join_early(rt);
}

/// Joins the threads of the sessions that have told their end. That gives their stacks back long before the host ends; their links and
/// passes stay where they are.
pub(crate) fn join_ended<R: Threads + Wait, P: Port + Drop, L: Link + Send + Drop, C: Clock>(
    rt: &R,
    endings: &Endings,
    running: &mut Vec<Running<Records<P>, L, C>>,
)
    requires { Every (IsRunning L.wire C.moment) running.old.items }
    ensures runs { Every (IsRunning L.wire C.moment) running.new.items }
    ensures serves { all_serves running.new.items ≡ all_serves running.old.items }
{
    'endings: for _ in 0..running.len() {
        match endings.take(rt) {
            Some(number) => {
                join_at(rt, running, number);
                continue 'endings;
            }
            None => return,
        }
    }
}

/// Joins the sessions in the order of their accepts. Each pass is ended into this one, and each link is handed back, up to the first that
/// finds no memory. The answer is whether all sessions, and all links handed back, found memory.
pub(crate) fn join_all<R: Threads, A: Listener, P: Port + Drop, C: Clock>(
    rt: &R,
    hall: &Hall<Records<P>>,
    pass: &mut Pass<Records<P>>,
    listener: &mut A,
    running: Vec<Running<Records<P>, A::Link, C>>,
    _clock: &C,
    _order: Order,
) -> bool
    requires own { pass_hall pass.old ≡ hall_id hall.now }
    requires going { Every (IsBegun A.Link.wire C.moment (hall_id hall.now) (pass_seen pass.old) (C.moment _clock.now) _order) running.items }
    ensures own { pass_hall pass.new ≡ pass_hall pass.old }
    ensures joined { Joins (pass_view pass.old) (pass_view pass.new) (A.door listener.old) (A.door listener.new) (moment_told (C.moment _clock.now)) _order (wires_of A.Link.wire running.items) result }
{
    let mut fine = true;
    let mut going = true;
    for one in running {
        let (other, link, ended) = one.join(rt);
        hall.end(pass, other);
        fine = found_memory(fine, ended);
        going = give_back(listener, link, going);
    }
    both(fine, going)
}
