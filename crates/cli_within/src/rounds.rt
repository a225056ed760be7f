// Bytes that pass between the two ends, in rounds.
ghost use Rattle.std.specs.Prelude.{◌≡◌, ◌<◌, ◌≤◌, length, ◌∷◌, ◌++◌, [], ℕ, List, Option, None, false, Ok, OnOk};
ghost use Rattle.desk_api.specs.declared.mark.Seat.{Seat};
ghost use Rattle.srv_session.specs.Calls.{Finished};
ghost use Rattle.srv_stream.specs.Streams.{moment_told, shown_in};
ghost use Rattle.srv_stream.specs.Views.{first_view};
ghost use Rattle.pva_wire.specs.declared.order.Order.TheVariants.{Little};
ghost use Rattle.cli_within.specs.Ends.{HasPrinted, HasTaken, client_view};
ghost use Rattle.cli_within.specs.Exchanging.{Exchanged, end_at_rest};
ghost use Rattle.cli_within.specs.Rounding.{Answers, Frame, Gives, HasMade, HasPassed, Passes, sides};
ghost use Rattle.cli_within.specs.Serving.{IsLiving, IsReady, over_of, served_view};

use crate::client_end::{ClientEnd, discard, print_name};
use crate::server_end::ServerEnd;
use crate::stop::{End, Stop};
use cli_session::Ask;
use desk_api::Desk;
use pva_outside::{Clock, Sink};
use std::alloc::Global;

/// How much may pass, and how often.
#[derive(Clone, Copy, Debug, PartialEq, Eq)]
pub struct Limits {
    /// How many rounds in which neither end has a byte end the exchange.
    pub idle: u64,
    /// How many bytes each end gives in a round at most, at least 1.
    pub piece: usize,
    /// How many rounds there may be.
    pub turns: u64,
}

/// How many of these bytes are given: all, but no more than a piece.
fn count_of(bytes: &[u8], piece: usize) -> usize
    requires { 0 < piece }
    ensures within { result ≤ length bytes.now }
    ensures few { result ≤ piece }
    ensures none { result ≡ 0 → bytes.now ≡ [] }
{
    if bytes.is_empty() {
        return 0;
    }
    if bytes.len() < piece {
        return bytes.len();
    }
    piece
}

/// The client gives the server at most so many bytes, and says whether it gave any.
fn give_server<D: Desk, C: Clock>(
    alloc: Global,
    client: &mut ClientEnd,
    server: &mut ServerEnd,
    desk: &mut D,
    clock: &C,
    piece: usize,
) -> Result<bool, Stop>
    requires some { 0 < piece }
    requires living { IsLiving (D.seat desk.old) (served_view server.old) }
    requires ready { over_of server.old ≡ None → IsReady (D.seat desk.old) (served_view server.old) }
    ensures living { IsLiving (D.seat desk.new) (served_view server.new) }
    ensures ready { OnOk result (over_of server.new ≡ None → IsReady (D.seat desk.new) (served_view server.new)) }
    ensures still { result ≡ Ok false → client_view client.new ≡ client_view client.old }
    ensures gives { (f : Frame) (given taken : List ℕ) (printed : Option (List ℕ)) (faults : ℕ) → f.told ≡ moment_told (C.moment clock.now) → HasPassed f given taken (sides client.old server.old (D.seat desk.old) printed faults) → Gives f piece given taken (sides client.new server.new (D.seat desk.new) printed faults) result }
{
    let output = client.output();
    let count = count_of(output, piece);
    if count == 0 {
        return Ok(false);
    }
    if server.is_over() {
        return Ok(false);
    }
    let Ok(()) = server.hear(alloc, desk, clock, &output[..count]) else {
        return Err(Stop::NoMemory);
    };
    client.took(count);
    Ok(true)
}

/// The server gives the client at most so many bytes, and says whether it gave any. One without bytes pops its monitors first.
fn give_client<D: Desk, S: Sink>(
    alloc: Global,
    client: &mut ClientEnd,
    server: &mut ServerEnd,
    desk: &mut D,
    sink: &mut S,
    piece: usize,
) -> Result<bool, Stop>
    requires some { 0 < piece }
    requires living { IsLiving (D.seat desk.old) (served_view server.old) }
    requires ready { over_of server.old ≡ None → IsReady (D.seat desk.old) (served_view server.old) }
    ensures living { IsLiving (D.seat desk.new) (served_view server.new) }
    ensures ready { OnOk result (over_of server.new ≡ None → IsReady (D.seat desk.new) (served_view server.new)) }
    ensures over { over_of server.new ≡ over_of server.old }
    ensures still { result ≡ Ok false → client_view client.new ≡ client_view client.old }
    ensures answers { (f : Frame) (given taken : List ℕ) → HasPassed f given taken (sides client.old server.old (D.seat desk.old) (S.written sink.old) (S.faults sink.old)) → Answers f piece given taken (sides client.new server.new (D.seat desk.new) (S.written sink.new) (S.faults sink.new)) result }
{
    let Ok(()) = server.fill(desk) else {
        return Err(Stop::NoMemory);
    };
    let output = server.output();
    let count = count_of(output, piece);
    if count == 0 {
        return Ok(false);
    }
    match client.hear(alloc, sink, &output[..count]) {
        Ok(()) => {
            server.took(count);
            Ok(true)
        }
        Err(stop) => Err(stop),
    }
}

/// One round: each end gives the other at most a piece. It says whether a byte passed.
fn round<D: Desk, C: Clock, S: Sink>(
    alloc: Global,
    client: &mut ClientEnd,
    server: &mut ServerEnd,
    desk: &mut D,
    clock: &C,
    sink: &mut S,
    piece: usize,
) -> Result<bool, Stop>
    requires some { 0 < piece }
    requires living { IsLiving (D.seat desk.old) (served_view server.old) }
    requires ready { over_of server.old ≡ None → IsReady (D.seat desk.old) (served_view server.old) }
    ensures living { IsLiving (D.seat desk.new) (served_view server.new) }
    ensures ready { OnOk result (over_of server.new ≡ None → IsReady (D.seat desk.new) (served_view server.new)) }
    ensures still { result ≡ Ok false → client_view client.new ≡ client_view client.old }
    ensures passes { (f : Frame) (made : ℕ) → f.told ≡ moment_told (C.moment clock.now) → HasMade f piece made (sides client.old server.old (D.seat desk.old) (S.written sink.old) (S.faults sink.old)) → Passes f piece made (sides client.new server.new (D.seat desk.new) (S.written sink.new) (S.faults sink.new)) result }
{
    match give_server(alloc, client, server, desk, clock, piece) {
        Ok(gave) => match give_client(alloc, client, server, desk, sink, piece) {
            Ok(got) => Ok(gave || got),
            Err(stop) => Err(stop),
        },
        Err(stop) => Err(stop),
    }
}

/// How an exchange ends in which neither end has a byte any more, where so many rounds are left. Nobody else writes to the desk,
/// so that all further rounds are as this one was.
fn end_at_rest(over: bool, left: u64, idle: u64) -> End
    ensures { result ≡ end_at_rest over left idle }
{
    if over {
        return End::Closed;
    }
    if idle <= left { End::Idle } else { End::Spent }
}

/// Passes bytes between the two ends until the operation has ended, an end can't go on, or the rounds are spent, and says how the
/// exchange ends once the server's session has ended too.
fn pass<D: Desk, C: Clock, S: Sink>(
    alloc: Global,
    client: &mut ClientEnd,
    server: &mut ServerEnd,
    desk: &mut D,
    clock: &C,
    sink: &mut S,
    limits: Limits,
) -> End
    requires some { 0 < limits.piece }
    requires view { served_view server.old ≡ first_view Little }
    requires over { over_of server.old ≡ None }
    ensures living { IsLiving (D.seat desk.new) (served_view server.new) }
    ensures ends { (f : Frame) (last : Seat) → f.first ≡ D.seat desk.old → f.told ≡ moment_told (C.moment clock.now) → HasTaken f.ask [] [] (client_view client.old) → HasPrinted f.start (S.written sink.old) f.before (S.faults sink.old) (f.ask.name ++ 10 ∷ []) → Finished (shown_in (D.seat desk.new) (served_view server.new)) last → Exchanged f.ask limits.idle limits.piece limits.turns f.told f.first last f.start (S.written sink.new) f.before (S.faults sink.new) result }
{
    desk.has_legal_history();
    let mut made = 0;
    'rounds: loop {
        if let Some(ending) = client.ended() {
            return End::Told(ending);
        }
        if made == limits.turns {
            return End::Spent;
        }
        match round(alloc, client, server, desk, clock, sink, limits.piece) {
            Ok(true) => {
                made += 1;
                continue 'rounds;
            }
            Ok(false) => {
                return end_at_rest(server.is_over(), limits.turns - made, limits.idle);
            }
            Err(stop) => return End::Stopped(stop),
        }
    }
}

/// Lets a client of this operation, whose channel's name is printed, talk to a server of this desk, and ends the server's session
/// and its subscriptions.
fn talk<D: Desk, C: Clock, S: Sink>(
    alloc: Global,
    ask: Ask,
    desk: &mut D,
    clock: &C,
    sink: &mut S,
    limits: Limits,
) -> End
    requires some { 0 < limits.piece }
    ensures { (start : Option (List ℕ)) (before : ℕ) → HasPrinted start (S.written sink.old) before (S.faults sink.old) (ask.name ++ 10 ∷ []) → Exchanged ask limits.idle limits.piece limits.turns (moment_told (C.moment clock.now)) (D.seat desk.old) (D.seat desk.new) start (S.written sink.new) before (S.faults sink.new) result }
{
    desk.has_legal_history();
    let Ok(mut server) = ServerEnd::start(alloc) else {
        discard(ask);
        return End::Stopped(Stop::NoMemory);
    };
    let mut client = ClientEnd::start(alloc, ask);
    let end = pass(alloc, &mut client, &mut server, desk, clock, sink, limits);
    discard(client);
    server.finish(desk);
    end
}

/// Prints the channel's name, and lets a client of this operation talk to a server of this desk. What it tells is printed, and
/// at the end all subscriptions have ended.
pub fn exchange<D: Desk, C: Clock, S: Sink>(
    alloc: Global,
    ask: Ask,
    desk: &mut D,
    clock: &C,
    sink: &mut S,
    limits: Limits,
) -> End
    requires some { 0 < limits.piece }
    ensures { Exchanged ask limits.idle limits.piece limits.turns (moment_told (C.moment clock.now)) (D.seat desk.old) (D.seat desk.new) (S.written sink.old) (S.written sink.new) (S.faults sink.old) (S.faults sink.new) result }
{
    desk.has_legal_history();
    match print_name(alloc, &ask, sink) {
        Ok(()) => talk(alloc, ask, desk, clock, sink, limits),
        Err(stop) => End::Stopped(stop),
    }
}
