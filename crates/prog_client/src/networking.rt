// An operation over the network: the search for the channel's server, the dial, and what then passes over the link.
ghost use Rattle.std.specs.Prelude.{◌≡◌, ◌≤◌, ℕ, List, Option, length};
ghost use Rattle.prog_client.specs.Dialing.{name_line};
ghost use Rattle.cli_within.specs.Ends.{HasPrinted};
ghost use Rattle.prog_client.specs.Networking.{CanSeek, Networks, Seeks, Takes};

use crate::dialing::operate;
use crate::outcome::{Outcome, Patience};
use cli_search::{Plan, Searched, find};
use cli_session::Ask;
use cli_within::{Stop, print_name};
use pva_outside::{Datagrams, Dialer, Peer, Sink};
use std::alloc::Global;

/// How the channel's server is found.
#[derive(Clone, Copy, Debug, PartialEq, Eq)]
pub enum Route {
    /// It is at this address.
    Known(Peer),
    /// It is searched for: where the searches go, and in how many rounds, at least 1.
    Sought(Peer, u32),
}

/// Searches for the server of an operation whose channel's name is printed, dials it, and runs the operation.
fn seek<G: Datagrams, D: Dialer, S: Sink>(
    alloc: Global,
    ask: Ask,
    plan: Plan,
    datagrams: &mut G,
    dialer: &mut D,
    sink: &mut S,
) -> Outcome
    requires short { length ask.name ≤ 200 }
    requires rounds { 1 ≤ plan.rounds }
    ensures { (start : Option (List ℕ)) (before : ℕ) → HasPrinted start (S.written sink.old) before (S.faults sink.old) (name_line ask) → Seeks ask plan (G.datagrams datagrams.old) (G.datagrams datagrams.new) (D.dialer dialer.old) (D.dialer dialer.new) start (S.written sink.new) before (S.faults sink.new) result }
{
    let Ok(name) = ask.name.clone_in(alloc) else {
        return Outcome::Stopped(Stop::NoMemory);
    };
    match find(alloc, name, plan, datagrams) {
        Searched::Found(server, calls) => {
            let patience = Patience {
                idle: plan.idle,
                turns: plan.turns - calls,
            };
            operate(alloc, ask, server, patience, dialer, sink)
        }
        Searched::Unfound => Outcome::Unfound,
        Searched::Failed => Outcome::Failed,
        Searched::Spent => Outcome::Spent,
        Searched::NoMemory => Outcome::Stopped(Stop::NoMemory),
    }
}

/// Finds the server of an operation whose channel's name is printed, dials it, and runs the operation.
fn take_route<G: Datagrams, D: Dialer, S: Sink>(
    alloc: Global,
    ask: Ask,
    route: Route,
    patience: Patience,
    datagrams: &mut G,
    dialer: &mut D,
    sink: &mut S,
) -> Outcome
    requires short { length ask.name ≤ 200 }
    requires rounds { CanSeek route }
    ensures { (start : Option (List ℕ)) (before : ℕ) → HasPrinted start (S.written sink.old) before (S.faults sink.old) (name_line ask) → Takes ask route patience (G.datagrams datagrams.old) (G.datagrams datagrams.new) (D.dialer dialer.old) (D.dialer dialer.new) start (S.written sink.new) before (S.faults sink.new) result }
{
    match route {
        Route::Known(server) => operate(alloc, ask, server, patience, dialer, sink),
        Route::Sought(to, rounds) => {
            let plan = Plan {
                to,
                rounds,
                idle: patience.idle,
                turns: patience.turns,
            };
            seek(alloc, ask, plan, datagrams, dialer, sink)
        }
    }
}

/// Prints the channel's name, finds its server, dials it, and runs the operation over the link. What the client tells is
/// printed. The link is given back to its dialer.
pub fn run_over_network<G: Datagrams, D: Dialer, S: Sink>(
    alloc: Global,
    ask: Ask,
    route: Route,
    patience: Patience,
    datagrams: &mut G,
    dialer: &mut D,
    sink: &mut S,
) -> Outcome
    requires short { length ask.name ≤ 200 }
    requires rounds { CanSeek route }
    ensures { Networks ask route patience (G.datagrams datagrams.old) (G.datagrams datagrams.new) (D.dialer dialer.old) (D.dialer dialer.new) (S.written sink.old) (S.written sink.new) (S.faults sink.old) (S.faults sink.new) result }
{
    match print_name(alloc, &ask, sink) {
        Ok(()) => take_route(alloc, ask, route, patience, datagrams, dialer, sink),
        Err(stop) => Outcome::Stopped(stop),
    }
}
