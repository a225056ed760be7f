ghost use Rattle.std.specs.Prelude.{◌≡◌, ◌≤◌, ◌∷◌, ◌++◌, ℕ, List, [], length, Bool, IfOk, OnOk};
ghost use Rattle.pva_wire.specs.Reading.{Gives, TakesNone};
ghost use Rattle.pva_search.specs.Reading.{head_at, search_at, search_in};
ghost use Rattle.pva_search.specs.Answers.{Tells};
ghost use Rattle.pva_search.specs.Parts.{HoldsSearch, Reads, Finds, IsKnown};

use crate::datagram::message_in;
use crate::reading::{address_at, bytes_at, channel_at, pass_channels, speaks_tcp_at};
use pva_wire::{NoMemory, Order, Stop, u8_at, u16_at, u32_at};
use std::alloc::Global;

/// The command of a search.
pub(crate) const SEARCH: u8 = 3;

/// The items of a search before its protocols.
#[derive(Clone, Copy)]
pub(crate) struct Head {
    pub(crate) sequence: u32,
    pub(crate) flags: u8,
    pub(crate) address: [u8; 16],
    pub(crate) port: u16,
}

/// A search, whose channels still stand in the datagram. All of them can be read.
#[derive(Clone, Copy)]
pub(crate) struct ReadSearch<'a> {
    pub(crate) order: Order,
    pub(crate) head: Head,
    /// Whether the searcher names TCP, or no protocol.
    pub(crate) speaks_tcp: bool,
    /// How many channels it has.
    pub(crate) count: u16,
    pub(crate) channels: &'a [u8],
}

/// The items before the protocols, and what follows them.
#[tactic(auto, unfolding(crate::specs::Reading::head_at))]
fn head_at(order: Order, bytes: &[u8]) -> Result<(Head, &[u8]), Stop>
    ensures value { Gives (λ x. (x.0, x.1.now)) result (head_at order bytes.now) }
    ensures memory { TakesNone result }
{
    let (sequence, rest) = u32_at(order, bytes)?;
    let (flags, rest) = u8_at(order, rest)?;
    let (_, rest) = bytes_at(3, rest)?;
    let (address, rest) = address_at(rest)?;
    let (port, rest) = u16_at(order, rest)?;
    let head = Head {
        sequence,
        flags,
        address,
        port,
    };
    Ok((head, rest))
}

/// The search in a payload.
#[tactic(auto, unfolding(crate::specs::Reading::search_at, crate::specs::Reading::channels_at))]
fn search_at(order: Order, payload: &[u8]) -> Result<ReadSearch<'_>, Stop>
    ensures value { Reads HoldsSearch result (search_at order payload.now) }
    ensures order { IfOk result (λ x. x.order ≡ order) }
    ensures memory { TakesNone result }
{
    let (head, rest) = head_at(order, payload)?;
    let (speaks_tcp, rest) = speaks_tcp_at(order, rest)?;
    let (count, channels) = u16_at(order, rest)?;
    pass_channels(order, count, channels)?;
    Ok(ReadSearch {
        order,
        head,
        speaks_tcp,
        count,
        channels,
    })
}

/// The search that a datagram is. It takes no memory.
pub(crate) fn search_in(datagram: &[u8]) -> Option<ReadSearch<'_>>
    ensures { Finds (λ x. x.order) HoldsSearch result (search_in datagram.now) }
{
    let (order, payload) = message_in(SEARCH, datagram)?;
    search_at(order, payload).ok()
}

/// Whether a name is known.
fn knows<F: Fn(&str) -> bool>(known: &F, name: &str) -> bool
    requires { F.IsAlwaysCallable known.now }
    ensures { (test : List ℕ → Bool) → Tells F.Fn known.now test → result ≡ test name.now }
{
    known(name)
}

/// Appends a number.
fn add(found: &mut Vec<u32>, instance: u32) -> Result<(), NoMemory>
    ensures { OnOk result (found.new.items ≡ found.old.items ++ instance ∷ []) }
{
    found.push(instance)?;
    Ok(())
}

/// The numbers of the channels among so many whose names are known, in order. Each name is asked once.
pub(crate) fn known_among<F: Fn(&str) -> bool>(
    alloc: Global,
    order: Order,
    count: u16,
    channels: &[u8],
    known: &F,
) -> Result<Vec<u32>, Stop>
    requires { F.IsAlwaysCallable known.now }
    ensures value { (test : List ℕ → Bool) → Tells F.Fn known.now test
        → IsKnown (λ v. v.items) test order count channels.now result }
    ensures few { IfOk result (λ v. length v.items ≤ count) }
{
    let mut found = Vec::new(alloc);
    let mut rest = channels;
    for _ in 0..count {
        let (instance, name, after) = channel_at(order, rest)?;
        rest = after;
        if !knows(known, name) {
            continue;
        }
        let Ok(()) = add(&mut found, instance) else {
            return Err(Stop::Memory);
        };
    }
    Ok(found)
}
