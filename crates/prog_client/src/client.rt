// The program: an operation over the network, or against a server inside it.
ghost use Rattle.std.specs.Prelude.{◌≤◌, length, map};
ghost use Rattle.prog_client.specs.Networking.{CanSeek};
ghost use Rattle.prog_client.specs.Over.{Ran, RunsOver};

use crate::networking::run_over_network;
use crate::outcome::status_of_outcome;
use crate::over_words::{AskedOver, Wanted, read_wanted};
use cli_within::Status;
use pva_outside::{Datagrams, Dialer, Kinds, Sink, World};
use std::alloc::Global;

/// What reaches the network.
#[derive(Drop)]
pub struct Network<G: Datagrams + Drop, D: Dialer + Drop> {
    /// What carries searches and their responses.
    pub datagrams: G,
    /// What connects to servers.
    pub dialer: D,
}

/// Runs an operation over the network.
fn run_over<G: Datagrams + Drop, D: Dialer + Drop, S: Sink>(
    alloc: Global,
    asked: AskedOver,
    network: &mut Network<G, D>,
    sink: &mut S,
) -> Status
    requires short { length asked.ask.name ≤ 200 }
    requires rounds { CanSeek asked.route }
    ensures { RunsOver asked (G.datagrams network.old.datagrams) (G.datagrams network.new.datagrams) (D.dialer network.old.dialer) (D.dialer network.new.dialer) (S.written sink.old) (S.written sink.new) (S.faults sink.old) (S.faults sink.new) result }
{
    let AskedOver {
        ask,
        route,
        patience,
    } = asked;
    let outcome = run_over_network(
        alloc,
        ask,
        route,
        patience,
        &mut network.datagrams,
        &mut network.dialer,
        sink,
    );
    status_of_outcome(outcome)
}

/// Runs the program with these words, without its own name among them, and answers its exit status.
///
/// `OP NAME [VALUE ..]` runs one operation of a client (`get`, `put`, `putget`, `monitor`, `info`, `call`) on the channel NAME, and prints
/// NAME and then the lines of what the operation tells. With `--server A.B.C.D:PORT` it dials that server; without it, it searches for
/// the channel first. With `--within SOURCE` it runs against a server inside the program, as `cli_within::run` says, and no
/// network is used. The first fault is told by the status alone.
pub fn run<W: Kinds, G: Datagrams + Drop, D: Dialer + Drop>(
    alloc: Global,
    words: &[&str],
    world: &mut World<W>,
    network: &mut Network<G, D>,
) -> u8
    ensures { Ran (map (λ w. w.now) words.now) (W.Clock.moment world.old.clock)
        (record { world = record { wire = W.Link.wire world.old.link; files = W.Files.files world.old.files; ports = W.Ports.maker world.old.ports; printed = W.Sink.written world.old.sink; print_faults = W.Sink.faults world.old.sink }; datagrams = G.datagrams network.old.datagrams; dialer = D.dialer network.old.dialer })
        (record { world = record { wire = W.Link.wire world.new.link; files = W.Files.files world.new.files; ports = W.Ports.maker world.new.ports; printed = W.Sink.written world.new.sink; print_faults = W.Sink.faults world.new.sink }; datagrams = G.datagrams network.new.datagrams; dialer = D.dialer network.new.dialer })
        result }
{
    match read_wanted(alloc, words) {
        Ok(wanted) => match wanted {
            Wanted::OverNetwork(asked) => {
                run_over(alloc, asked, network, &mut world.sink).number()
            }
            Wanted::Within => cli_within::run(alloc, words, world),
            Wanted::Refused => Status::Words.number(),
        },
        Err(_) => Status::NoMemory.number(),
    }
}
