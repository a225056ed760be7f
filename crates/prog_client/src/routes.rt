// What the words of the command line say of the network.
ghost use Rattle.std.specs.Prelude.{◌≡◌, ℕ, List, IfOk, MatchOption, map, option_map};
ghost use Rattle.prog_source.specs.Words.{IsCount, IsCountOr};
ghost use Rattle.pva_outside.specs.declared.peer.Peer.{Peer as PeerSaid};
ghost use Rattle.prog_client.specs.Routes.{AreEnds, IsAddress, IsAddressOr, IsHost, IsIpv4, RouteIs, this_machine};
ghost use Rattle.prog_client.specs.declared.networking.Route.{Route as RouteSaid};

use crate::networking::Route;
use cli_within::pieces;
use prog_source::count_within;
use pva_outside::Peer;
use pvd_type::NoMemory;
use std::alloc::Global;

/// Where searches go unless the words say otherwise: this machine, at the port of searches (pvAccess Protocol Specification,
/// "Channel Discovery").
const THIS_MACHINE: Peer = Peer {
    address: [0, 0, 0, 0, 0, 0, 0, 0, 0, 0, 0xFF, 0xFF, 127, 0, 0, 1],
    port: 5_076,
};

/// A number of 0 to 255.
fn read_byte(text: &str) -> Option<u8>
    ensures { MatchOption result ((n : ℕ) → ¬ (IsCount text.now 0 255 n)) (IsCount text.now 0 255) }
{
    let Some(count) = count_within(text, 0, 255) else {
        return None;
    };
    Some(count as u8)
}

/// A number of 0 to 65,535.
fn read_port(text: &str) -> Option<u16>
    ensures { MatchOption result ((n : ℕ) → ¬ (IsCount text.now 0 65535 n)) (IsCount text.now 0 65535) }
{
    let Some(count) = count_within(text, 0, 65_535) else {
        return None;
    };
    Some(count as u16)
}

/// The address that four numbers name.
#[tactic(auto, using(crate::proofs::Routed::no_first, crate::proofs::Routed::no_second, crate::proofs::Routed::no_third, crate::proofs::Routed::no_fourth, crate::proofs::Routed::is_ipv4))]
fn read_ipv4(first: &str, second: &str, third: &str, fourth: &str) -> Option<[u8; 16]>
    ensures { MatchOption result ((a : List ℕ) → ¬ (IsIpv4 first.now second.now third.now fourth.now a)) (IsIpv4 first.now second.now third.now fourth.now) }
{
    let Some(a) = read_byte(first) else {
        return None;
    };
    let Some(b) = read_byte(second) else {
        return None;
    };
    let Some(c) = read_byte(third) else {
        return None;
    };
    let Some(d) = read_byte(fourth) else {
        return None;
    };
    Some([0, 0, 0, 0, 0, 0, 0, 0, 0, 0, 0xFF, 0xFF, a, b, c, d])
}

/// The address that the parts of a text name, which are to be four.
#[tactic(auto, using(crate::proofs::Routed::not_four))]
fn read_host(parts: &[&str]) -> Option<[u8; 16]>
    ensures { MatchOption result ((a : List ℕ) → ¬ (IsHost (map (λ part. part.now) parts.now) a)) (IsHost (map (λ part. part.now) parts.now)) }
{
    if parts.len() != 4 {
        return None;
    }
    read_ipv4(parts[0], parts[1], parts[2], parts[3])
}

/// The address and port that these two texts name, of the forms A.B.C.D and PORT.
#[tactic(auto, using(crate::proofs::Routed::no_host, crate::proofs::Routed::no_port))]
fn read_ends(alloc: Global, host: &str, port: &str) -> Result<Option<Peer>, NoMemory>
    ensures { IfOk result (λ o. MatchOption o ((p : PeerSaid) → ¬ (AreEnds host.now port.now p)) (AreEnds host.now port.now)) }
{
    let parts = pieces(alloc, host, '.')?;
    let Some(address) = read_host(&parts) else {
        return Ok(None);
    };
    let Some(port) = read_port(port) else {
        return Ok(None);
    };
    Ok(Some(Peer { address, port }))
}

/// The address and port that a text of the form A.B.C.D:PORT names. None where it isn't of this form.
#[tactic(auto, using(crate::proofs::Routed::not_two))]
pub fn read_address(alloc: Global, text: &str) -> Result<Option<Peer>, NoMemory>
    ensures { IfOk result (λ o. MatchOption o ((p : PeerSaid) → ¬ (IsAddress text.now p)) (IsAddress text.now)) }
{
    let ends = pieces(alloc, text, ':')?;
    if ends.len() != 2 {
        return Ok(None);
    }
    read_ends(alloc, ends[0], ends[1])
}

/// Where searches go.
fn searched_at(alloc: Global, search: Option<&str>) -> Result<Option<Peer>, NoMemory>
    ensures { IfOk result (λ o. MatchOption o ((p : PeerSaid) → ¬ (IsAddressOr (option_map (λ t. t.now) search.entry) this_machine p)) (IsAddressOr (option_map (λ t. t.now) search.entry) this_machine)) }
{
    match search {
        Some(text) => read_address(alloc, text),
        None => Ok(Some(THIS_MACHINE)),
    }
}

/// How many rounds a search has.
fn rounds_of(rounds: Option<&str>) -> Option<u32>
    ensures { MatchOption result ((n : ℕ) → ¬ (IsCountOr (option_map (λ t. t.now) rounds.entry) 1 2147483647 3 n)) (IsCountOr (option_map (λ t. t.now) rounds.entry) 1 2147483647 3) }
{
    let Some(text) = rounds else {
        return Some(3);
    };
    let Some(count) = count_within(text, 1, 2_147_483_647) else {
        return None;
    };
    Some(count as u32)
}

/// The route that the options for the server, for where searches go and for their rounds ask for. None where one of them isn't of its form.
#[tactic(auto, using(crate::proofs::Routed::no_search, crate::proofs::Routed::no_rounds, crate::proofs::Routed::no_server))]
pub fn route_of(
    alloc: Global,
    server: Option<&str>,
    search: Option<&str>,
    rounds: Option<&str>,
) -> Result<Option<Route>, NoMemory>
    ensures { IfOk result (λ o. MatchOption o ((r : RouteSaid) → ¬ (RouteIs (option_map (λ t. t.now) server.entry) (option_map (λ t. t.now) search.entry) (option_map (λ t. t.now) rounds.entry) r)) (RouteIs (option_map (λ t. t.now) server.entry) (option_map (λ t. t.now) search.entry) (option_map (λ t. t.now) rounds.entry))) }
{
    let Some(to) = searched_at(alloc, search)? else {
        return Ok(None);
    };
    let Some(count) = rounds_of(rounds) else {
        return Ok(None);
    };
    let Some(text) = server else {
        return Ok(Some(Route::Sought(to, count)));
    };
    let Some(server) = read_address(alloc, text)? else {
        return Ok(None);
    };
    Ok(Some(Route::Known(server)))
}
