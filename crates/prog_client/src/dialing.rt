// An operation over a link to a server.
ghost use Rattle.std.specs.Prelude.{◌≡◌, ◌<◌, [], ℕ, List, Option, true, false, length};
ghost use Rattle.pva_outside.specs.Dials.{DialerView, HasDialed};
ghost use Rattle.cli_session.specs.declared.ask.Ask.{Ask as AskSaid};
ghost use Rattle.prog_client.specs.Dialing.{HasConversed, Operates, name_line};
ghost use Rattle.cli_within.specs.Ends.{HasPrinted, HasTaken, client_view};
ghost use Rattle.prog_client.specs.LinkCalls.{IsDone, IsDue, IsDueWithin, ReadsSome, WritesSome, Turns, idles_after};

use crate::outcome::{Outcome, Patience};
use cli_session::Ask;
use cli_within::{ClientEnd, Ending, Stop};
use pva_outside::{DialStep, Dialer, Link, Peer, ReadStep, Sink, WriteStep};
use std::alloc::Global;

/// What is due on a link.
#[derive(Clone, Copy)]
pub(crate) enum Due {
    /// A call of the link: to write what the client says, or else to read.
    Call,
    /// Nothing: the operation ended so, or can't go on.
    End(Outcome),
}

/// Whether the client has something to say.
fn has_more(client: &ClientEnd) -> bool
    ensures more { result ≡ true → 0 < length (client_view client.now).client.output }
    ensures none { result ≡ false → (client_view client.now).client.output ≡ [] }
{
    !client.output().is_empty()
}

/// How the operation ended, if it did and all that the client says was taken.
fn done(client: &ClientEnd) -> Option<Ending>
    ensures { IsDone (client_view client.now) result }
{
    let more = has_more(client);
    if more {
        return None;
    }
    client.ended()
}

/// What is due on an open link, where nothing moved so often since the last byte, behind so many calls.
fn due_within(idles: u64, calls: u64, patience: Patience) -> Due
    ensures { IsDueWithin idles calls patience result }
{
    if patience.idle <= idles {
        return Due::End(Outcome::Idle);
    }
    if patience.turns <= calls {
        return Due::End(Outcome::Spent);
    }
    Due::Call
}

/// What is due where nothing moved so often since the last byte, behind so many calls of the link.
fn next_due(client: &ClientEnd, idles: u64, calls: u64, patience: Patience) -> Due
    ensures { IsDue (client_view client.now) idles calls patience result }
{
    match done(client) {
        Some(ending) => Due::End(Outcome::Told(ending)),
        None => due_within(idles, calls, patience),
    }
}

/// How often nothing moved since the last byte, behind a call in which something moved or not. It was less than so often before.
fn idles_after(idles: u64, moved: bool, most: u64) -> u64
    requires { idles < most }
    ensures { result ≡ idles_after idles moved }
{
    if moved { 0 } else { idles + 1 }
}

/// Writes some of what the client says, in one call of the link, and says whether a byte moved.
fn write_some<L: Link>(client: &mut ClientEnd, link: &mut L) -> Result<bool, Outcome>
    requires { 0 < length (client_view client.old).client.output }
    ensures { WritesSome (L.wire link.old) (L.wire link.new) (client_view client.old) (client_view client.new) result }
{
    match link.write(client.output()) {
        WriteStep::Took(count) => {
            client.took(count);
            Ok(true)
        }
        WriteStep::Idle => Ok(false),
        WriteStep::Failed => Err(Outcome::Failed),
        WriteStep::NoMemory => Err(Outcome::Stopped(Stop::NoMemory)),
    }
}

/// Reads up to 4,096 bytes, in one call of the link, lets the client hear them, and says whether a byte moved.
fn read_some<L: Link, S: Sink>(
    alloc: Global,
    client: &mut ClientEnd,
    link: &mut L,
    sink: &mut S,
) -> Result<bool, Outcome>
    ensures { ReadsSome (L.wire link.old) (L.wire link.new) (client_view client.old) (client_view client.new) (S.written sink.old) (S.written sink.new) (S.faults sink.old) (S.faults sink.new) result }
{
    let mut buffer = [0u8; 4096];
    match link.read(&mut buffer) {
        ReadStep::Got(count) => match client.hear(alloc, sink, &buffer[..count]) {
            Ok(()) => Ok(true),
            Err(stop) => Err(Outcome::Stopped(stop)),
        },
        ReadStep::End => Err(Outcome::Closed),
        ReadStep::Idle => Ok(false),
        ReadStep::Failed => Err(Outcome::Failed),
        ReadStep::NoMemory => Err(Outcome::Stopped(Stop::NoMemory)),
    }
}

/// One call of the link: writes what the client says, or else reads. It says whether a byte moved.
fn turn<L: Link, S: Sink>(
    alloc: Global,
    client: &mut ClientEnd,
    link: &mut L,
    sink: &mut S,
) -> Result<bool, Outcome>
    ensures { Turns (L.wire link.old) (L.wire link.new) (client_view client.old) (client_view client.new) (S.written sink.old) (S.written sink.new) (S.faults sink.old) (S.faults sink.new) result }
{
    let more = has_more(client);
    if more {
        return write_some(client, link);
    }
    read_some(alloc, client, link, sink)
}

/// Lets a client that has heard nothing yet talk to the server of a link, and prints what it tells: what it says is written first,
/// then a piece is read, until the operation has ended and all is written, or something ends it.
fn converse<L: Link, S: Sink>(
    alloc: Global,
    client: ClientEnd,
    link: &mut L,
    sink: &mut S,
    patience: Patience,
) -> Outcome
    ensures { (ask : AskSaid) (start : Option (List ℕ)) (before : ℕ) → HasTaken ask [] [] (client_view client) → HasPrinted start (S.written sink.old) before (S.faults sink.old) (name_line ask) → HasConversed ask patience (L.wire link.old) (L.wire link.new) start (S.written sink.new) before (S.faults sink.new) result }
{
    let mut client = client;
    let mut calls = 0;
    let mut idles = 0;
    'turns: loop {
        match next_due(&client, idles, calls, patience) {
            Due::Call => match turn(alloc, &mut client, link, sink) {
                Ok(moved) => {
                    calls += 1;
                    idles = idles_after(idles, moved, patience.idle);
                    continue 'turns;
                }
                Err(outcome) => return outcome,
            },
            Due::End(outcome) => return outcome,
        }
    }
}

/// Runs an operation, whose channel's name is printed, over this link, and gives the link back to its dialer.
fn converse_over<D: Dialer, S: Sink>(
    alloc: Global,
    ask: Ask,
    link: D::Link,
    patience: Patience,
    dialer: &mut D,
    sink: &mut S,
) -> Outcome
    ensures { (first : DialerView) (to : Peer) (start : Option (List ℕ)) (before : ℕ) → HasDialed first (D.dialer dialer.old) (D.Link.wire link) to → HasPrinted start (S.written sink.old) before (S.faults sink.old) (name_line ask) → Operates ask patience to first (D.dialer dialer.new) start (S.written sink.new) before (S.faults sink.new) result }
{
    let mut link = link;
    let client = ClientEnd::start(alloc, ask);
    let outcome = converse(alloc, client, &mut link, sink, patience);
    match dialer.retire(link) {
        Ok(()) => outcome,
        Err(_) => Outcome::Stopped(Stop::NoMemory),
    }
}

/// Dials a server, and runs an operation, whose channel's name is printed, over the link to it. What the client tells is printed.
pub fn operate<D: Dialer, S: Sink>(
    alloc: Global,
    ask: Ask,
    to: Peer,
    patience: Patience,
    dialer: &mut D,
    sink: &mut S,
) -> Outcome
    ensures { (start : Option (List ℕ)) (before : ℕ) → HasPrinted start (S.written sink.old) before (S.faults sink.old) (name_line ask) → Operates ask patience to (D.dialer dialer.old) (D.dialer dialer.new) start (S.written sink.new) before (S.faults sink.new) result }
{
    match dialer.dial(to) {
        DialStep::Link(link) => converse_over(alloc, ask, link, patience, dialer, sink),
        DialStep::Failed => Outcome::Failed,
        DialStep::NoMemory => Outcome::Stopped(Stop::NoMemory),
    }
}
