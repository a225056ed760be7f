ghost use Rattle.std.specs.Prelude.{◌≡◌, ◌≤◌, ◌+◌, ◌*◌, ◌++◌, ◌||◌, ◌==◌, if◌then◌else◌, ℕ, List, length, Bool, IfOk, IfSome, OnOk, Ok, None};
ghost use Rattle.pva_search.specs.Fields.{canonical};
ghost use Rattle.pva_search.specs.Messages.{response_fields, response_bytes, Search as message};
ghost use Rattle.pva_search.specs.Answers.{is_zero, is_mapped, is_for, is_wanted, response_of, goes_to, answer_of, udp_most, Tells, Gave};
ghost use Rattle.pva_search.specs.Parts.{HoldsSearch};
ghost use Rattle.pva_search.specs.Reading.{search_in};

use crate::datagram::datagram_of;
use crate::search::{Head, ReadSearch, known_among, search_in};
use crate::setup::Setup;
use crate::writing::{put_flag, put_instances, put_server};
use pva_outside::Peer;
use pva_wire::{NoMemory, Order, Stop, write_u32};
use std::alloc::Global;

/// The command of a response.
pub(crate) const RESPONSE: u8 = 4;

/// The first bytes of an IPv4 address, as IPv6 maps it.
const MAPPED: [u8; 12] = [0, 0, 0, 0, 0, 0, 0, 0, 0, 0, 255, 255];

/// The IPv4 address 0.0.0.0, as IPv6 maps it: what EPICS clients write that give no address.
const NO_IPV4_ADDRESS: [u8; 16] = [0, 0, 0, 0, 0, 0, 0, 0, 0, 0, 255, 255, 0, 0, 0, 0];

/// Whether an address is zero, of IPv6 or of IPv4, which stands for the sender's.
pub(crate) fn is_zero(address: &[u8; 16]) -> bool
    ensures { result ≡ is_zero address.now }
{
    *address == [0; 16] || *address == NO_IPV4_ADDRESS
}

/// Whether a response can be sent to an address: to the sender's, or to one of IPv4.
fn is_reachable(address: &[u8; 16]) -> bool
    ensures { result ≡ (is_zero address.now || is_mapped address.now) }
{
    is_zero(address) || address.starts_with(&MAPPED)
}

/// Whether a server may answer a search.
fn is_for(search: &ReadSearch) -> bool
    ensures { (s : message) → HoldsSearch search.now s → result ≡ is_for s }
{
    is_reachable(&search.head.address) && search.speaks_tcp
}

/// Whether a response is wanted.
fn is_wanted(flags: u8, found: &[u32]) -> bool
    ensures { result ≡ is_wanted flags found.now }
{
    !found.is_empty() || flags & 1 == 1
}

/// The address that is meant: the sender's, where this one is zero.
pub(crate) fn address_or(from: Peer, address: &[u8; 16]) -> [u8; 16]
    ensures { result ≡ (if is_zero address.now then from.address else address.now) }
{
    if is_zero(address) {
        return from.address;
    }
    *address
}

/// The port that is meant: the sender's, where this one is 0.
fn port_or(from: Peer, port: u16) -> u16
    ensures { result ≡ (if port == 0 then from.port else port) }
{
    if port == 0 {
        return from.port;
    }
    port
}

/// Where the response goes.
fn goes_to(from: Peer, head: Head) -> Peer
    ensures { (s : message) → head ≡ s.head → result ≡ goes_to from s }
{
    Peer {
        address: address_or(from, &head.address),
        port: port_or(from, head.port),
    }
}

fn write_response(
    out: &mut Vec<u8>,
    order: Order,
    setup: &Setup,
    sequence: u32,
    instances: &[u32],
) -> Result<(), NoMemory>
    requires { length instances.now ≤ 65535 }
    ensures { OnOk result (out.new.items
        ≡ out.old.items ++ canonical order (response_fields (response_of setup.now sequence instances.now))) }
{
    out.extend_from_slice(&setup.guid)?;
    write_u32(out, order, sequence)?;
    put_server(out, order, setup.port)?;
    put_flag(out, !instances.is_empty())?;
    put_instances(out, order, instances)
}

/// The response with these channels.
fn response_of(
    alloc: Global,
    order: Order,
    setup: &Setup,
    sequence: u32,
    instances: &[u32],
) -> Result<Vec<u8>, NoMemory>
    requires { length instances.now ≤ 65535 }
    ensures value { IfOk result (λ v. v.items ≡ response_bytes order (response_of setup.now sequence instances.now)) }
    ensures size { IfOk result (λ v. length v.items ≡ 49 + 4 * length instances.now) }
{
    let mut payload = Vec::new(alloc);
    write_response(&mut payload, order, setup, sequence, instances)?;
    datagram_of(alloc, order, true, RESPONSE, payload.as_slice())
}

/// What a server answers a datagram with, and where that goes (pvAccess Protocol Specification,
/// "searchRequest" and "searchResponse").
///
/// None where there is no answer: the datagram isn't one search with nothing after it; its address is
/// neither zero nor one of IPv4; it names protocols, and TCP isn't among them; or no name is known, and
/// it wants no response then. Else the response, in the byte order of the search, lists the numbers of
/// the names that are known, in the order of the search. It goes to the address that the search gives,
/// or to the sender's where that is zero, and to its port, or to the sender's where that is 0.
///
/// Each name is asked for once, with `known`. Memory is taken only where there is an answer; NoMemory
/// where it runs out.
///
/// A datagram of at most 65,507 bytes, the most that UDP carries over IPv4, never makes an answer of more.
/// A longer search, which no datagram brings, is answered in the same way, with four bytes for each name
/// that is known.
pub fn answer<F: Fn(&str) -> bool>(
    alloc: Global,
    datagram: &[u8],
    from: Peer,
    setup: &Setup,
    known: &F,
) -> Result<Option<(Vec<u8>, Peer)>, NoMemory>
    requires { F.IsAlwaysCallable known.now }
    ensures value { (test : List ℕ → Bool) → Tells F.Fn known.now test
        → Gave (λ x. (x.0.items, x.1)) result (answer_of test setup.now from datagram.now) }
    ensures none { search_in datagram.now ≡ None → result ≡ Ok None }
    ensures fits { length datagram.now ≤ udp_most → IfOk result (λ o. IfSome o (λ x. length x.0.items ≤ udp_most)) }
{
    let Some(search) = search_in(datagram) else {
        return Ok(None);
    };
    if !is_for(&search) {
        return Ok(None);
    }
    let found = match known_among(alloc, search.order, search.count, search.channels, known) {
        Ok(found) => found,
        Err(Stop::Memory) => return Err(NoMemory),
        // never met: all channels were read before
        Err(Stop::Fault(_, _)) => return Ok(None),
    };
    if !is_wanted(search.head.flags, found.as_slice()) {
        return Ok(None);
    }
    let reply = response_of(
        alloc,
        search.order,
        setup,
        search.head.sequence,
        found.as_slice(),
    )?;
    Ok(Some((reply, goes_to(from, search.head))))
}
