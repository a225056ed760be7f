// The program: all that it does, a server of many clients among it.
ghost use Rattle.std.specs.Prelude.{◌≡◌, ◌⊎◌, ◌≤◌, ◌-◌, ◌^◌, map};
ghost use Rattle.pva_outside.specs.Count.{Rose};
ghost use Rattle.srv_stream.specs.Faults.{FirstFault};
ghost use Rattle.prog_server.specs.Running.{AskToListen};
ghost use Rattle.prog_server.specs.Serving.{Ran, listening_of};
ghost use Rattle.prog_server.specs.Serving as serving;
ghost use Rattle.prog_server.specs.Words.{asked_of};

use crate::program::{Status, run_alone};
use crate::words::{Asked, Task, read_words};
use prog_listen::{Listened, Listening, Network, every_end_has_its_cause, listen};
use pva_outside::{Datagrams, Kinds, Listener, Peer, World};
use std::alloc::Global;
use std::sync::Wait;
use std::thread::Threads;

/// The server of many clients that the words ask for.
fn listening_of(asked: &Asked<'_>, at: Peer) -> Listening
    requires { asked.now.turns ≤ 2 ^ 31 - 1 }
    ensures { result ≡ listening_of (asked_of asked.now) at }
{
    Listening {
        at,
        udp: asked.udp,
        beacon: asked.beacon,
        guid: asked.guid,
        order: asked.order,
        journal: asked.journal,
        turns: asked.turns as u32,
    }
}

/// The status that tells how a server of many clients ended.
fn status_of_listened(ended: Listened) -> u8
    ensures { result ≡ serving.status_of_listened ended }
{
    let status = match ended {
        Listened::Finished => Status::Done,
        Listened::Unread | Listened::Unmade => Status::Files,
        Listened::Faulty => Status::Site,
        Listened::Unbound | Listened::Unsearchable | Listened::Unprinted | Listened::AcceptFault =>
            Status::Outside,
        Listened::NoMemory => Status::NoMemory,
    };
    status as u8
}

/// Runs the server of many clients that the words ask for.
#[tactic(auto, using(crate::proofs::Served::few_accepts, crate::proofs::Served::named_source, crate::proofs::Served::unread, crate::proofs::Served::asks_inetd, crate::proofs::Served::asks_check, crate::proofs::Served::asks_drill, crate::proofs::Served::asks_no_source, crate::proofs::Served::listened, crate::proofs::Served::rose_at_six))]
fn serve_many<R: Threads + Wait + Sync, W: Kinds, A: Listener + Drop, G: Datagrams + Drop>(
    rt: &R,
    alloc: Global,
    words: &[&str],
    world: &mut World<W>,
    network: &mut Network<A, G>,
) -> u8
    requires { AskToListen (map (λ w. w.now) words.now) }
    ensures ran { Ran (map (λ w. w.now) words.now) (W.Clock.moment world.old.clock)
        (record { world = record { wire = W.Link.wire world.old.link; files = W.Files.files world.old.files; ports = W.Ports.maker world.old.ports; printed = W.Sink.written world.old.sink; print_faults = W.Sink.faults world.old.sink }; door = A.door network.old.listener; datagrams = G.datagrams network.old.datagrams })
        (record { world = record { wire = W.Link.wire world.new.link; files = W.Files.files world.new.files; ports = W.Ports.maker world.new.ports; printed = W.Sink.written world.new.sink; print_faults = W.Sink.faults world.new.sink }; door = A.door network.new.listener; datagrams = G.datagrams network.new.datagrams })
        result }
    ensures fault { result ≡ 6 → FirstFault W.Link.wire world.old.link world.new.link
        ⊎ (Rose (W.Sink.faults world.old.sink) (W.Sink.faults world.new.sink)
        ⊎ (Rose (A.door network.old.listener).faults (A.door network.new.listener).faults
        ⊎ Rose (G.datagrams network.old.datagrams).faults (G.datagrams network.new.datagrams).faults)) }
{
    every_end_has_its_cause();
    let Ok(asked) = read_words(alloc, words) else {
        return Status::NoMemory as u8;
    };
    let at = match asked.task {
        Task::Listen(at) => at,
        Task::Inetd => return Status::Words as u8,
        Task::Check => return Status::Words as u8,
        Task::Drill(_) => return Status::Words as u8,
    };
    let Some(source) = asked.source else {
        return Status::Words as u8;
    };
    let listening = listening_of(&asked, at);
    let ended = listen(rt, alloc, source, &asked.macros, &listening, world, network);
    status_of_listened(ended)
}

/// Runs the program with these words, without its own name among them, and answers its exit status.
///
/// `--listen A.B.C.D:PORT SOURCE` binds the listener there, and the datagrams at the same address and the port of `--udp`, prints
/// `listening` and a line feed, and serves many clients side by side, who find it by searches; it ends where no client will come any more
/// or after the accepts of `--turns`, and may wait. All else is as `run_alone` says, and uses neither. The first fault is told by the status
/// alone: of the words, of SOURCE's file, of its text, of the ports in the order of the records, of the listener's binding, of the
/// datagrams' binding, of the line, of the serving.
#[tactic(auto, using(crate::proofs::Served::alone, crate::proofs::Served::left_asks, crate::proofs::Served::left_then_ran, crate::proofs::Served::more_faults, crate::proofs::Served::left_fault))]
pub fn run<R: Threads + Wait + Sync, W: Kinds, A: Listener + Drop, G: Datagrams + Drop>(
    rt: &R,
    alloc: Global,
    words: &[&str],
    world: &mut World<W>,
    network: &mut Network<A, G>,
) -> u8
    ensures ran { Ran (map (λ w. w.now) words.now) (W.Clock.moment world.old.clock)
        (record { world = record { wire = W.Link.wire world.old.link; files = W.Files.files world.old.files; ports = W.Ports.maker world.old.ports; printed = W.Sink.written world.old.sink; print_faults = W.Sink.faults world.old.sink }; door = A.door network.old.listener; datagrams = G.datagrams network.old.datagrams })
        (record { world = record { wire = W.Link.wire world.new.link; files = W.Files.files world.new.files; ports = W.Ports.maker world.new.ports; printed = W.Sink.written world.new.sink; print_faults = W.Sink.faults world.new.sink }; door = A.door network.new.listener; datagrams = G.datagrams network.new.datagrams })
        result }
    ensures fault { result ≡ 6 → FirstFault W.Link.wire world.old.link world.new.link
        ⊎ (Rose (W.Sink.faults world.old.sink) (W.Sink.faults world.new.sink)
        ⊎ (Rose (A.door network.old.listener).faults (A.door network.new.listener).faults
        ⊎ Rose (G.datagrams network.old.datagrams).faults (G.datagrams network.new.datagrams).faults)) }
{
    match run_alone(alloc, words, world) {
        Some(status) => status,
        None => serve_many(rt, alloc, words, world, network),
    }
}
