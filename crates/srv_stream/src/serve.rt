// One connection, from its greeting to its end.
ghost use Rattle.std.specs.Prelude.{◌≡◌, ◌<◌, length};
ghost use Rattle.srv_stream.specs.Faults.{EndsAtFirstFault};
ghost use Rattle.srv_session.specs.Calls.{AreLiving, Finished, Holds, IsOf};
ghost use Rattle.srv_session.specs.State.{slots_of};
ghost use Rattle.srv_stream.specs.Served.{Served};
ghost use Rattle.srv_stream.specs.Streams.{Feeds, moment_told, shown_in};
ghost use Rattle.srv_stream.specs.Turning.{IsDue, WritesSome, ReadsSome, ended_inside, may_pump, over_by};
ghost use Rattle.srv_stream.specs.Views.{view_of, first_view};

use crate::ended::Ended;
use crate::serving::Serving;
use desk_api::{Desk, Moment};
use pva_outside::{Clock, Link, ReadStep, WriteStep};
use pva_wire::Order;
use std::alloc::Global;

/// Answers the events that a piece brings, at the moment that the clock then tells.
fn feed<D: Desk, C: Clock>(
    alloc: Global,
    serving: &mut Serving,
    desk: &mut D,
    clock: &C,
    piece: &[u8],
) -> Result<(), Ended>
    requires site { IsOf (D.seat desk.old).seen.base.site (view_of serving.old).state }
    requires holds { Holds (D.seat desk.old).log (view_of serving.old).state }
    ensures living { AreLiving (D.seat desk.new).log (slots_of (view_of serving.new).state.requests) }
    ensures feeds { Feeds (D.seat desk.old) (D.seat desk.new) (moment_told (C.moment clock.now)) (view_of serving.old) (view_of serving.new) piece.now result }
{
    let (seconds, nanoseconds) = clock.now();
    serving.feed(alloc, desk, piece, Moment::new(seconds, nanoseconds))
}

/// What is due on a connection.
#[derive(Clone, Copy)]
pub(crate) enum Due {
    /// A write of what is pending.
    Write,
    /// A pop of each monitor that may be sent an update.
    Pump,
    /// A read of the next piece.
    Read,
    /// Nothing: all is written, and the connection ends so.
    End(Ended),
    /// A call of the link, for which no turn is left.
    Spent,
}

/// Whether the monitors are still to be popped where the connection ends so once all is written, or where it goes on.
fn may_pump(over: Option<Ended>) -> bool
    ensures { result ≡ may_pump over }
{
    !matches!(over, Some(Ended::Bad(_, _)))
}

/// What is due behind so many calls of the link. `over` is how the connection ends once all is written, and `pumped` tells that nothing
/// is unread that may be sent.
fn next_due(serving: &Serving, over: Option<Ended>, pumped: bool, calls: u64, turns: u64) -> Due
    ensures { IsDue (view_of serving.now).pending over pumped calls turns result }
{
    if !serving.output().is_empty() {
        return if calls < turns {
            Due::Write
        } else {
            Due::Spent
        };
    }
    if !pumped && may_pump(over) {
        return Due::Pump;
    }
    if let Some(ended) = over {
        return Due::End(ended);
    }
    if calls < turns { Due::Read } else { Due::Spent }
}

/// Writes some of what is pending, in one call of the link. An `Err` ends the connection.
fn write_some<L: Link>(serving: &mut Serving, link: &mut L) -> Result<(), Ended>
    requires { 0 < length (view_of serving.old).pending }
    ensures { WritesSome (L.wire link.old) (L.wire link.new) (view_of serving.old) (view_of serving.new) result }
{
    match link.write(serving.output()) {
        WriteStep::Took(count) => {
            serving.took(count);
            Ok(())
        }
        WriteStep::Idle => Ok(()),
        WriteStep::Failed => Err(Ended::WriteFault),
        WriteStep::NoMemory => Err(Ended::NoMemory),
    }
}

/// How a stream ends whose unfinished part begins here.
fn ended_inside(rest: Option<u64>) -> Ended
    ensures { result ≡ ended_inside rest }
{
    match rest {
        None => Ended::Closed,
        Some(place) => Ended::Truncated(place),
    }
}

/// What a piece does to its connection: want of memory ends it at once, and all else once all is written.
fn over_by(fed: Result<(), Ended>) -> Result<Option<Ended>, Ended>
    ensures { result ≡ over_by fed }
{
    match fed {
        Ok(()) => Ok(None),
        Err(Ended::NoMemory) => Err(Ended::NoMemory),
        Err(ended) => Ok(Some(ended)),
    }
}

/// Reads a piece, in one call of the link, and answers its events. It says how the connection ends once all is written, if
/// it does. An `Err` ends it at once.
fn read_some<D: Desk, L: Link, C: Clock>(
    alloc: Global,
    serving: &mut Serving,
    desk: &mut D,
    link: &mut L,
    clock: &C,
) -> Result<Option<Ended>, Ended>
    requires site { IsOf (D.seat desk.old).seen.base.site (view_of serving.old).state }
    requires holds { Holds (D.seat desk.old).log (view_of serving.old).state }
    ensures living { AreLiving (D.seat desk.new).log (slots_of (view_of serving.new).state.requests) }
    ensures reads { ReadsSome (D.seat desk.old) (D.seat desk.new) (L.wire link.old) (L.wire link.new) (moment_told (C.moment clock.now)) (view_of serving.old) (view_of serving.new) result }
{
    let mut buffer = [0u8; 4096];
    match link.read(&mut buffer) {
        ReadStep::Got(count) => over_by(feed(alloc, serving, desk, clock, &buffer[..count])),
        ReadStep::End => Ok(Some(ended_inside(serving.rest()))),
        ReadStep::Idle => Ok(None),
        ReadStep::Failed => Err(Ended::ReadFault),
        ReadStep::NoMemory => Err(Ended::NoMemory),
    }
}

/// Ends the subscriptions, and the connection so.
fn end<D: Desk>(serving: Serving, desk: &mut D, ended: Ended) -> Ended
    requires { AreLiving (D.seat desk.old).log (slots_of (view_of serving).state.requests) }
    ensures finished { Finished (shown_in (D.seat desk.old) (view_of serving)) (D.seat desk.new) }
    ensures ended { result ≡ ended }
{
    serving.finish(desk);
    ended
}

/// Writes, pops and reads until something ends it.
fn serve<D: Desk, L: Link, C: Clock>(
    alloc: Global,
    serving: Serving,
    desk: &mut D,
    link: &mut L,
    clock: &C,
    order: Order,
    turns: u64,
) -> Ended
    requires { view_of serving ≡ first_view order }
    ensures served { Served (D.seat desk.old) (D.seat desk.new) (L.wire link.old) (L.wire link.new) (moment_told (C.moment clock.now)) order turns result }
    ensures fault { EndsAtFirstFault L.wire link.old link.new result }
{
    desk.has_legal_history();
    let mut serving = serving;
    let mut calls = 0;
    let mut over: Option<Ended> = None;
    let mut pumped = false;
    'turns: loop {
        match next_due(&serving, over, pumped, calls, turns) {
            Due::Write => match write_some(&mut serving, link) {
                Ok(()) => {
                    calls += 1;
                    continue 'turns;
                }
                Err(ended) => return end(serving, desk, ended),
            },
            Due::Pump => match serving.pump(desk) {
                Ok(more) => {
                    pumped = !more;
                    continue 'turns;
                }
                Err(_) => return end(serving, desk, Ended::NoMemory),
            },
            Due::Read => match read_some(alloc, &mut serving, desk, link, clock) {
                Ok(found) => {
                    calls += 1;
                    over = found;
                    pumped = false;
                    continue 'turns;
                }
                Err(ended) => return end(serving, desk, ended),
            },
            Due::End(ended) => return end(serving, desk, ended),
            Due::Spent => return end(serving, desk, Ended::Spent(calls)),
        }
    }
}

/// Serves one connection: writes what is pending, else pops the monitors until nothing is unread that may be sent, else reads up to 4,096
/// bytes and answers their events, until the client ends the stream, something fails, or `turns` calls of the link's read or write were
/// made. The replies are in this byte order. A put has the moment that the clock tells when the piece is read that ends its message. At
/// the end all subscriptions of the connection have ended.
pub fn serve_connection<D: Desk, L: Link, C: Clock>(
    alloc: Global,
    desk: &mut D,
    link: &mut L,
    clock: &C,
    order: Order,
    turns: u64,
) -> Ended
    ensures served { Served (D.seat desk.old) (D.seat desk.new) (L.wire link.old) (L.wire link.new) (moment_told (C.moment clock.now)) order turns result }
    ensures fault { EndsAtFirstFault L.wire link.old link.new result }
{
    desk.has_legal_history();
    let Ok(serving) = Serving::start(alloc, order) else {
        return Ended::NoMemory;
    };
    serve(alloc, serving, desk, link, clock, order, turns)
}
