// The search for a server.
ghost use Rattle.std.specs.Prelude.{◌≡◌, ◌^◌, ◌<◌, ◌≤◌, [], ◌∷◌, length, IfOk};
ghost use Rattle.pva_search.specs.Finding.{longest, opening};
ghost use Rattle.cli_search.specs.Searching.{Searches, anywhere};

use crate::plan::{Plan, Searched};
use crate::searching::Searching;
use pva_outside::{BindStep, Datagrams, Peer};
use pva_search::{Finder, Name, NoMemory};
use std::alloc::Global;

/// What a datagram is received into. No datagram of UDP is longer.
const MOST: usize = 65_536;

/// Any address of this machine, at a port that is free.
const ANYWHERE: Peer = Peer {
    address: [0, 0, 0, 0, 0, 0, 0, 0, 0, 0, 0xFF, 0xFF, 0, 0, 0, 0],
    port: 0,
};

/// Lets a value go in a function of its own, since its parts would else be let go one by one in the caller's proof.
fn discard<T: Drop>(_value: T) {}

/// A finder of this one name.
fn finder_of(alloc: Global, name: Name, rounds: u32) -> Result<Finder, NoMemory>
    requires short { length name ≤ longest }
    requires some { 1 ≤ rounds }
    ensures made { IfOk result (λ f. f ≡ opening (name ∷ []) rounds) }
    ensures small { rounds < 2 ^ 32 }
{
    let names = vec![in alloc; name]?;
    Finder::new(alloc, names, rounds)
}

/// Searches for the server of the channel of this name, of at most 200 bytes. It binds the datagrams at a free port, and in each round
/// sends one search for the name to the plan's address. Of what then comes, the first response that names the channel counts: its server is at the
/// address in it, or at the sender's where that is zero, and at the port in it. All other datagrams are passed over. A round without such a response ends
/// when nothing has come in it as often as the plan says.
pub fn find<G: Datagrams>(alloc: Global, name: Name, plan: Plan, datagrams: &mut G) -> Searched
    requires short { length name ≤ longest }
    requires rounds { 1 ≤ plan.rounds }
    ensures { Searches name plan (G.datagrams datagrams.old) (G.datagrams datagrams.new) result }
{
    let Ok(finder) = finder_of(alloc, name, plan.rounds) else {
        return Searched::NoMemory;
    };
    let Ok(buffer) = vec![in alloc; 0u8; MOST] else {
        return Searched::NoMemory;
    };
    match datagrams.bind(ANYWHERE) {
        BindStep::Bound(port) => {
            let mut searching = Searching::new(finder, buffer, plan, port);
            let searched = searching.run(alloc, datagrams);
            discard(searching);
            searched
        }
        BindStep::Failed => Searched::Failed,
        BindStep::NoMemory => Searched::NoMemory,
    }
}
