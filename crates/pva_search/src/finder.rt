ghost use Rattle.std.specs.Prelude.{◌≡◌, ◌<◌, ◌≤◌, ◌+◌, ◌-◌, ◌^◌, ◌==◌, ◌++◌, ◌||◌, not, ℕ, [], length, get_or, IfOk, OnOk};
ghost use Rattle.std.specs.List.{list_any};
ghost use Rattle.pva_wire.specs.declared.order.Order.TheVariants.{Little};
ghost use Rattle.pva_search.specs.Fields.{canonical, canonical_channel};
ghost use Rattle.pva_search.specs.Messages.{search_bytes, Response as message};
ghost use Rattle.pva_search.specs.Reading.{response_in};
ghost use Rattle.pva_search.specs.Finding.{longest, opening, server_at, is_open, open_in, channels_of, asks_for, given_from, Asks, Hears, turned};
ghost use Rattle.pva_search.specs.Parts.{HoldsResponse};
ghost use Rattle.pva_search.specs.Steps.{CanTake, IsTaken, asking_head, channel_bytes, given_at};

use crate::answering::address_or;
use crate::datagram::datagram_of;
use crate::response::{ReadResponse, response_in};
use crate::search::SEARCH;
use pva_outside::Peer;
use pva_wire::{Name, NoMemory, Order, u32_at, write_text, write_u16, write_u32};
use std::alloc::Global;
use std::marker::Model;

/// The most bytes of a datagram.
const MOST: usize = 1_400;

/// What a datagram takes without its names: the header, and the items up to the count of channels.
const HEAD: usize = 41;

/// What a name takes beside its bytes: its number, and its size.
const BESIDE: usize = 5;

/// Searches for the servers of some names, in rounds: in each, every name that isn't found is asked once.
///
/// A name's number is its position among the names.
#[derive(Drop)]
pub struct Finder {
    names: Vec<Name>,
    servers: Vec<Option<Peer>>,
    /// The names before this one have had their turn in this round.
    next: usize,
    sequence: u32,
    /// How many rounds are still to come.
    rounds: u32,
}

impl Model for Finder {
    ghost use Rattle.pva_search.specs.Finding.{Finding, IsFinding};

    ghost Value = { Finding };

    ghost view = { λ f. record {
      names = f.names.items;
      servers = f.servers.items;
      next = f.next;
      sequence = f.sequence;
      rounds = f.rounds;
    } };

    ghost invariant = { λ f. IsFinding (record {
      names = f.names.items;
      servers = f.servers.items;
      next = f.next;
      sequence = f.sequence;
      rounds = f.rounds;
    }) };
}

/// The names that a datagram asks for.
#[derive(Clone, Copy)]
struct Taken {
    /// How many they are.
    count: u16,
    /// The position after the last of them, from which on the others stand.
    end: usize,
}

/// Whether a number is that of a name which isn't found.
fn is_open(servers: &[Option<Peer>], number: usize) -> bool
    ensures { result ≡ is_open servers.now number }
{
    match servers.get(number) {
        Some(server) => server.is_none(),
        None => false,
    }
}

/// What a name takes in a datagram.
fn size_of(names: &[Name], number: usize) -> usize
    requires within { number < length names.now }
    requires short { length (get_or names.now number []) ≤ longest }
    ensures { result ≡ 5 + length (get_or names.now number []) }
{
    names[number].as_str().len() + BESIDE
}

/// As many open names from `next` on as a datagram takes.
fn take_open(names: &[Name], servers: &[Option<Peer>], next: usize) -> Taken
    requires { CanTake names.now servers.now next }
    ensures { IsTaken names.now servers.now next result }
{
    let mut room = MOST - HEAD;
    let mut count = 0;
    for i in next..names.len() {
        if !is_open(servers, i) {
            continue;
        }
        let size = size_of(names, i);
        if room < size {
            return Taken { count, end: i };
        }
        room -= size;
        count += 1;
    }
    Taken {
        count,
        end: names.len(),
    }
}

/// The items before the channels.
fn put_head(out: &mut Vec<u8>, sequence: u32, port: u16) -> Result<(), NoMemory>
    ensures { OnOk result (out.new.items ≡ out.old.items ++ canonical Little (asking_head sequence port)) }
{
    write_u32(out, Order::Little, sequence)?;
    out.extend_from_slice(&[0x80, 0, 0, 0])?;
    out.extend_from_slice(&[0; 16])?;
    write_u16(out, Order::Little, port)?;
    out.extend_from_slice(&[1, 3, b't', b'c', b'p'])?;
    Ok(())
}

/// A name with its number.
fn put_channel(out: &mut Vec<u8>, names: &[Name], number: usize) -> Result<(), NoMemory>
    requires within { number < length names.now }
    requires fits { number < 2 ^ 32 }
    ensures { OnOk result (out.new.items
        ≡ out.old.items ++ canonical_channel Little (number, get_or names.now number [])) }
{
    write_u32(out, Order::Little, number as u32)?;
    write_text(out, Order::Little, &names[number])
}

/// The open names among those from `next` to `end`, with their numbers.
fn put_channels(
    out: &mut Vec<u8>,
    names: &[Name],
    servers: &[Option<Peer>],
    next: usize,
    end: usize,
) -> Result<(), NoMemory>
    requires few { length names.now ≤ 64 }
    requires within { end ≤ length names.now }
    ensures { OnOk result (out.new.items
        ≡ out.old.items ++ channel_bytes names.now (open_in servers.now next (end - next))) }
{
    for i in next..end {
        if !is_open(servers, i) {
            continue;
        }
        put_channel(out, names, i)?;
    }
    Ok(())
}

/// The search for the names that were taken.
fn search_for(
    alloc: Global,
    names: &[Name],
    servers: &[Option<Peer>],
    next: usize,
    sequence: u32,
    port: u16,
    taken: Taken,
) -> Result<Vec<u8>, NoMemory>
    requires can { CanTake names.now servers.now next }
    requires taken { IsTaken names.now servers.now next taken }
    ensures { IfOk result (λ v. v.items ≡ search_bytes Little
        (asks_for sequence port (channels_of names.now (open_in servers.now next (taken.end - next))))) }
{
    let mut payload = Vec::new(alloc);
    put_head(&mut payload, sequence, port)?;
    write_u16(&mut payload, Order::Little, taken.count)?;
    put_channels(&mut payload, names, servers, next, taken.end)?;
    datagram_of(alloc, Order::Little, false, SEARCH, payload.as_slice())
}

/// Gives a name this server, where it is one of the names and has none. Tells whether it is so, or was
/// so for a name before.
fn give(servers: &mut [Option<Peer>], number: usize, server: Peer, told: bool) -> bool
    ensures told { result ≡ (told || is_open servers.old number) }
    ensures given { servers.new ≡ given_at number server servers.old }
{
    if !is_open(servers, number) {
        return told;
    }
    servers[number] = Some(server);
    true
}

/// Gives the names among so many numbers this server, where they have none. Tells whether there are any.
fn give_each(servers: &mut [Option<Peer>], server: Peer, response: &ReadResponse) -> bool
    ensures { (r : message) → HoldsResponse response.now r
        → (result ≡ list_any (is_open servers.old) r.instances)
        × (servers.new ≡ given_from 0 r.instances server servers.old) }
{
    let mut told = false;
    let mut rest = response.instances;
    for _ in 0..response.count {
        let Ok((number, after)) = u32_at(response.order, rest) else {
            return told;
        };
        told = give(servers, number as usize, server, told);
        rest = after;
    }
    told
}

impl Finder {
    /// A finder of these names, 1 to 64 of at most 200 bytes each, that makes so many rounds, at least
    /// one. The first begins at once. NoMemory where memory runs out.
    pub fn new(alloc: Global, names: Vec<Name>, rounds: u32) -> Result<Finder, NoMemory>
        requires some { 1 ≤ length names.items }
        requires few { length names.items ≤ 64 }
        requires short { (i : ℕ) → length (get_or names.items i []) ≤ longest }
        requires rounds { 1 ≤ rounds }
        ensures { IfOk result (λ f. f ≡ opening names.items rounds) }
    {
        let servers = vec![in alloc; None; names.len()]?;
        Ok(Finder {
            names,
            servers,
            next: 0,
            sequence: 0,
            rounds: rounds - 1,
        })
    }

    /// A search for the first of the names that aren't found and weren't asked in this round, as many
    /// as a datagram of at most 1,400 bytes takes; None exactly where there are none. It asks servers to
    /// answer at this port. Datagrams are numbered from 0, modulo 2^32. NoMemory where memory runs
    /// out; then the finder is as before.
    pub fn ask(&mut self, alloc: Global, port: u16) -> Result<Option<Vec<u8>>, NoMemory>
        ensures { Asks (λ v. v.items) self.old self.new port result }
    {
        let taken = take_open(self.names.as_slice(), self.servers.as_slice(), self.next);
        if taken.count == 0 {
            return Ok(None);
        }
        let datagram = search_for(
            alloc,
            self.names.as_slice(),
            self.servers.as_slice(),
            self.next,
            self.sequence,
            port,
            taken,
        )?;
        self.next = taken.end;
        self.sequence = self.sequence.wrapping_add(1);
        Ok(Some(datagram))
    }

    /// Hears a datagram that came from `from`. True exactly where it is a response of a server that has
    /// names, and one of those isn't found yet; all such names then have the server that it tells: its
    /// address, or the sender's where that is zero, and its port. It takes no memory.
    pub fn hear(&mut self, datagram: &[u8], from: Peer) -> bool
        ensures { Hears self.old self.new from result (response_in datagram.now) }
    {
        let Some(response) = response_in(datagram) else {
            return false;
        };
        if !response.found {
            return false;
        }
        let server = Peer {
            address: address_or(from, &response.address),
            port: response.port,
        };
        give_each(self.servers.as_mut_slice(), server, &response)
    }

    /// Begins the next round, in which each name that isn't found is asked once more. False exactly
    /// where all rounds were begun; then nothing has changed.
    pub fn turn(&mut self) -> bool
        ensures told { result ≡ not (self.old.rounds == 0) }
        ensures turned { self.new ≡ turned self.old }
    {
        if self.rounds == 0 {
            return false;
        }
        self.rounds -= 1;
        self.next = 0;
        true
    }

    /// The server of the name with this number. None where it isn't found, and for a number that is no
    /// position.
    pub fn found(&self, name: usize) -> Option<Peer>
        ensures { result ≡ server_at self.now.servers name }
    {
        match self.servers.get(name) {
            Some(server) => *server,
            None => None,
        }
    }
}
