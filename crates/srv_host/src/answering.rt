// Searches are answered between accepts, and beacons sent.
ghost use Rattle.std.specs.Prelude.{◌≡◌, ◌∷◌, []};
ghost use Rattle.pva_outside.specs.Traffic.{Tried};
ghost use Rattle.srv_host.specs.Datagrams.{AreReceives, GoesOn, IsTurn, Receives, beacon_in, is_due, knows, sends};
ghost use Rattle.pva_search.specs.Answers.{answer_of};

use desk_api::{NoMemory, Site};
use pva_outside::{DatagramStep, Datagrams, Peer, SendStep};
use pva_search::{Setup, answer, beacon};
use std::alloc::Global;

/// The most receives of one turn.
const RECEIVES: u32 = 16;

/// Turns are this far apart that send a beacon.
const BETWEEN_BEACONS: u32 = 100;

/// Sends a datagram. A fault is passed over.
fn send<G: Datagrams>(datagrams: &mut G, bytes: &[u8], to: Peer) -> Result<(), NoMemory>
    ensures { GoesOn (λ traffic. traffic ≡ Tried bytes.now to ∷ []) (G.datagrams datagrams.old) (G.datagrams datagrams.new) result }
{
    match datagrams.send(bytes, to) {
        SendStep::Sent | SendStep::Failed => Ok(()),
        SendStep::NoMemory => Err(NoMemory),
    }
}

/// Whether a beacon is due in this turn.
fn is_due(turn: u32) -> bool
    ensures { result ≡ is_due turn }
{
    turn == 1 || turn % BETWEEN_BEACONS == 0
}

/// Sends the beacon of this turn, where one is due.
fn send_beacon<G: Datagrams>(
    alloc: Global,
    datagrams: &mut G,
    setup: &Setup,
    beacon_to: Option<Peer>,
    turn: u32,
) -> Result<(), NoMemory>
    ensures { GoesOn (λ traffic. traffic ≡ beacon_in setup.now beacon_to turn) (G.datagrams datagrams.old) (G.datagrams datagrams.new) result }
{
    let Some(to) = beacon_to else {
        return Ok(());
    };
    if !is_due(turn) {
        return Ok(());
    }
    let sequence = (turn / BETWEEN_BEACONS % 256) as u8;
    let Ok(bytes) = beacon(alloc, setup, sequence, 0) else {
        return Err(NoMemory);
    };
    send(datagrams, &bytes, to)
}

/// Answers a datagram, where it has an answer.
fn reply<G: Datagrams>(
    alloc: Global,
    site: &Site,
    datagrams: &mut G,
    setup: &Setup,
    bytes: &[u8],
    from: Peer,
) -> Result<(), NoMemory>
    ensures { GoesOn (λ traffic. traffic ≡ sends (answer_of (knows site.now) setup.now from bytes.now)) (G.datagrams datagrams.old) (G.datagrams datagrams.new) result }
{
    let known = |name: &str| -> bool
        ensures { result ≡ knows site.entry.now name.now }
    { site.find(name).is_some() };
    match answer(alloc, bytes, from, setup, &known) {
        Ok(Some((bytes, to))) => send(datagrams, &bytes, to),
        Ok(None) => Ok(()),
        Err(_) => Err(NoMemory),
    }
}

/// Receives once, and answers what came. It says whether something came.
fn receive<G: Datagrams>(
    alloc: Global,
    site: &Site,
    datagrams: &mut G,
    setup: &Setup,
    buffer: &mut [u8],
) -> Result<bool, NoMemory>
    ensures { Receives site.now setup.now (G.datagrams datagrams.old) (G.datagrams datagrams.new) result }
{
    match datagrams.receive(buffer) {
        DatagramStep::Got(count, from) => {
            match reply(alloc, site, datagrams, setup, &buffer[..count], from) {
                Ok(()) => Ok(true),
                Err(no_memory) => Err(no_memory),
            }
        }
        DatagramStep::Idle | DatagramStep::Failed => Ok(false),
        DatagramStep::NoMemory => Err(NoMemory),
    }
}

/// Receives until nothing comes, or as often as may be in one turn, and answers what came.
fn receive_all<G: Datagrams>(
    alloc: Global,
    site: &Site,
    datagrams: &mut G,
    setup: &Setup,
    buffer: &mut [u8],
) -> Result<(), NoMemory>
    ensures { GoesOn (AreReceives site.now setup.now) (G.datagrams datagrams.old) (G.datagrams datagrams.new) result }
{
    'receives: for _ in 0..RECEIVES {
        match receive(alloc, site, datagrams, setup, buffer) {
            Ok(true) => continue 'receives,
            Ok(false) => return Ok(()),
            Err(no_memory) => return Err(no_memory),
        }
    }
    Ok(())
}

/// What is sent and received in this turn, counted from 1: a beacon where one is due, and then the answers to what comes.
pub(crate) fn take_turn<G: Datagrams>(
    alloc: Global,
    site: &Site,
    datagrams: &mut G,
    setup: &Setup,
    beacon_to: Option<Peer>,
    turn: u32,
    buffer: &mut [u8],
) -> Result<(), NoMemory>
    ensures { GoesOn (IsTurn site.now setup.now beacon_to turn) (G.datagrams datagrams.old) (G.datagrams datagrams.new) result }
{
    let Ok(()) = send_beacon(alloc, datagrams, setup, beacon_to, turn) else {
        return Err(NoMemory);
    };
    receive_all(alloc, site, datagrams, setup, buffer)
}
