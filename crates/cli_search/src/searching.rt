// A search on its way.
ghost use Rattle.std.specs.Prelude.{◌≡◌, ◌≤◌, ℕ, [], ◌∷◌, None, Ok};
ghost use Rattle.cli_search.specs.Calls.{Brings, Sends, Tells, stopped};
ghost use Rattle.cli_search.specs.Searching.{Search, server_told};

use crate::plan::{Plan, Searched};
use pva_outside::{DatagramStep, Datagrams, Peer, SendStep};
use pva_search::Finder;
use std::alloc::Global;

/// What a call to receive a datagram brought.
#[derive(Clone, Copy)]
pub(crate) enum Heard {
    /// A datagram that tells the channel's server.
    Server(Peer),
    /// Another datagram.
    Other,
    /// Nothing.
    Nothing,
}

/// Why a search stops in a round.
#[derive(Clone, Copy)]
pub(crate) enum Stop {
    /// The datagrams failed.
    Failed,
    /// No turn is left for the call that is due.
    Spent,
    /// Memory ran out.
    NoMemory,
}

/// Sends a datagram.
fn send<G: Datagrams>(datagrams: &mut G, bytes: &[u8], to: Peer) -> Result<(), Stop>
    ensures { Sends (G.datagrams datagrams.old) (G.datagrams datagrams.new) bytes.now to result }
{
    match datagrams.send(bytes, to) {
        SendStep::Sent => Ok(()),
        SendStep::Failed => Err(Stop::Failed),
        SendStep::NoMemory => Err(Stop::NoMemory),
    }
}

/// Hears a datagram, where the one name of the finder isn't found yet.
fn hear(finder: &mut Finder, datagram: &[u8], from: Peer) -> Heard
    requires { finder.old.servers ≡ None ∷ [] }
    ensures { Tells finder.old finder.new (server_told datagram.now from) result }
{
    let _tells = finder.hear(datagram, from);
    match finder.found(0) {
        Some(server) => Heard::Server(server),
        None => Heard::Other,
    }
}

/// Receives a datagram into this buffer, where the one name of the finder isn't found yet.
fn receive<G: Datagrams>(
    datagrams: &mut G,
    finder: &mut Finder,
    buffer: &mut [u8],
) -> Result<Heard, Stop>
    requires { finder.old.servers ≡ None ∷ [] }
    ensures { Brings (G.datagrams datagrams.old) (G.datagrams datagrams.new) finder.old finder.new result }
{
    match datagrams.receive(buffer) {
        DatagramStep::Got(count, from) => Ok(hear(finder, &buffer[..count], from)),
        DatagramStep::Idle => Ok(Heard::Nothing),
        DatagramStep::Failed => Err(Stop::Failed),
        DatagramStep::NoMemory => Err(Stop::NoMemory),
    }
}

/// How a search ends that stops so.
fn stopped(stop: Stop) -> Searched
    ensures { result ≡ stopped stop }
{
    match stop {
        Stop::Failed => Searched::Failed,
        Stop::Spent => Searched::Spent,
        Stop::NoMemory => Searched::NoMemory,
    }
}

/// A search for one name.
#[derive(Drop)]
pub(crate) struct Searching {
    finder: Finder,
    /// What datagrams are received into.
    buffer: Vec<u8>,
    plan: Plan,
    /// Where servers are asked to answer.
    port: u16,
    /// How many turns were made.
    calls: u64,
}

impl Searching {
    ghost use Rattle.cli_search.specs.Calls.{Asks, Ends, IsBefore, Listens, Receives, Rounds, Turns, view_of, first_view};

    /// A search with this finder, whose datagrams come into this buffer.
    pub(crate) fn new(finder: Finder, buffer: Vec<u8>, plan: Plan, port: u16) -> Searching
        ensures { view_of result ≡ first_view finder plan port }
    {
        Searching {
            finder,
            buffer,
            plan,
            port,
            calls: 0,
        }
    }

    /// Sends the search of a round.
    fn ask<G: Datagrams>(&mut self, alloc: Global, datagrams: &mut G) -> Result<(), Stop>
        requires { (view_of self.old).calls ≤ (view_of self.old).plan.turns }
        ensures open { (view_of self.new).finding.servers ≡ (view_of self.old).finding.servers }
        ensures left { (view_of self.new).finding.rounds ≡ (view_of self.old).finding.rounds }
        ensures within { (view_of self.new).calls ≤ (view_of self.new).plan.turns }
        ensures asks { (s : Search) (round : ℕ) → IsBefore s round (view_of self.old) → Asks s round (G.datagrams datagrams.old) (G.datagrams datagrams.new) (view_of self.old) (view_of self.new) result }
    {
        if self.plan.turns <= self.calls {
            return Err(Stop::Spent);
        }
        let Ok(asked) = self.finder.ask(alloc, self.port) else {
            return Err(Stop::NoMemory);
        };
        let Some(datagram) = asked else {
            return Ok(());
        };
        self.calls += 1;
        send(datagrams, &datagram, self.plan.to)
    }

    /// Receives a datagram, where the name isn't found yet.
    fn receive<G: Datagrams>(&mut self, datagrams: &mut G) -> Result<Heard, Stop>
        requires { (view_of self.old).finding.servers ≡ None ∷ [] }
        ensures { Receives (G.datagrams datagrams.old) (G.datagrams datagrams.new) (view_of self.old) (view_of self.new) result }
    {
        if self.plan.turns <= self.calls {
            return Err(Stop::Spent);
        }
        self.calls += 1;
        receive(datagrams, &mut self.finder, &mut self.buffer)
    }

    /// Receives datagrams until one tells the server, or nothing has come as often as ends a round.
    fn listen<G: Datagrams>(&mut self, datagrams: &mut G) -> Result<Option<Peer>, Stop>
        requires open { (view_of self.old).finding.servers ≡ None ∷ [] }
        requires within { (view_of self.old).calls ≤ (view_of self.old).plan.turns }
        ensures { Listens (G.datagrams datagrams.old) (G.datagrams datagrams.new) (view_of self.old) (view_of self.new) result }
    {
        let most = self.plan.idle;
        let mut idles = 0;
        'calls: while idles < most {
            match self.receive(datagrams) {
                Ok(heard) => match heard {
                    Heard::Server(server) => return Ok(Some(server)),
                    Heard::Other => continue 'calls,
                    Heard::Nothing => {
                        idles += 1;
                        continue 'calls;
                    }
                },
                Err(stop) => return Err(stop),
            }
        }
        Ok(None)
    }

    /// One round: asks once, and hears what comes.
    fn round<G: Datagrams>(
        &mut self,
        alloc: Global,
        datagrams: &mut G,
    ) -> Result<Option<Peer>, Stop>
        requires open { (view_of self.old).finding.servers ≡ None ∷ [] }
        requires within { (view_of self.old).calls ≤ (view_of self.old).plan.turns }
        ensures open { result ≡ Ok None → (view_of self.new).finding.servers ≡ None ∷ [] }
        ensures left { result ≡ Ok None → (view_of self.new).finding.rounds ≡ (view_of self.old).finding.rounds }
        ensures within { result ≡ Ok None → (view_of self.new).calls ≤ (view_of self.new).plan.turns }
        ensures rounds { (s : Search) (round : ℕ) → IsBefore s round (view_of self.old) → Rounds s round (G.datagrams datagrams.old) (G.datagrams datagrams.new) (view_of self.old) (view_of self.new) result }
    {
        match self.ask(alloc, datagrams) {
            Ok(()) => self.listen(datagrams),
            Err(stop) => Err(stop),
        }
    }

    /// Begins the next round, and says whether there is one.
    fn turn(&mut self) -> bool
        ensures { Turns (view_of self.old) (view_of self.new) result }
    {
        self.finder.turn()
    }

    /// Round after round, until one finds the server or all are over.
    pub(crate) fn run<G: Datagrams>(&mut self, alloc: Global, datagrams: &mut G) -> Searched
        requires open { (view_of self.old).finding.servers ≡ None ∷ [] }
        requires none { (view_of self.old).calls ≡ 0 }
        ensures { (s : Search) → IsBefore s 0 (view_of self.old) → Ends s (view_of self.old).plan.turns (G.datagrams datagrams.old) (G.datagrams datagrams.new) result }
    {
        'rounds: loop {
            match self.round(alloc, datagrams) {
                Ok(found) => match found {
                    Some(server) => return Searched::Found(server, self.calls),
                    None => {
                        let more = self.turn();
                        if more {
                            continue 'rounds;
                        }
                        return Searched::Unfound;
                    }
                },
                Err(stop) => return stopped(stop),
            }
        }
    }
}
