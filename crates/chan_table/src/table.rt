ghost use Rattle.std.specs.Prelude.{◌≡◌, ◌<◌, ◌≤◌, Some, None, IfOk, OnOk, IfErr, OnErr, IfSome, OnSome, IfNone, IsSome, is_some};
ghost use Rattle.std.specs.Option.{option_copied, option_copied_mut, option_map};
ghost use Rattle.std.specs.Borrow.{sem};
ghost use Rattle.std.specs.FinMap as map;
ghost use Rattle.chan_table.specs.Numbers.{IsLeastAbsent, IsNextFrom};
ghost use Rattle.chan_table.specs.Tables.{limit, blank, with_channel, without_channel, with_ask, without_ask, channel_of, sid_at, IsFreeOf, IsFirstOn, IsReady, IsFull, Refuses};

use crate::answer::TableAnswer;
use crate::ask::Ask;
use crate::directory::Directory;
use crate::files::Files;
use pvd_type::NoMemory;
use std::alloc::Global;
use std::marker::Model;

/// How many channels, and how many requests, a connection may have at most: 4,096.
pub const LIMIT: u32 = 4096;

/// The tables of one connection: its channels by the server's ids ("sid"), each with the client's id of it ("cid"), and
/// its requests by the ids that the client gave them.
///
/// `C` is what a session keeps of a channel, and `S` what a desk gives for a subscription. A contract sees two finite
/// maps, and how many requests fit without more memory. A look-up searches a sorted list by halves, in thirteen steps at
/// most. A call that puts in or takes out an entry also moves what lies behind it in such a list, at most 16 bytes for
/// each entry, in one go. pvAccess Protocol Specification, "Channel Life-cycle" and the requests on channels.
#[derive(Drop)]
pub struct Table<C, S> {
    channels: Directory<(u32, C)>,
    asks: Directory<Ask<S>>,
    files: Files,
}

impl<C, S> Model for Table<C, S> {
    ghost use Rattle.std.specs.Prelude.{vec_capacity};
    ghost use Rattle.chan_table.specs.Tables.{Tables, tables_code};
    ghost use Rattle.chan_table.specs.Standing.{IsStanding};

    ghost Value = { Tables C S };

    ghost coded = { tables_code C.code S.code };

    ghost view = { λ t. record { channels = t.channels.values; asks = t.asks.values; room = t.asks.room } };

    ghost invariant = { λ t. IsStanding t.channels t.asks t.files.by_channel.entries.items t.files.lent (vec_capacity t.files.by_channel.entries) };
}

impl<C, S> Table<C, S> {
    ghost use Rattle.chan_table.specs.Lends.{lends_ask, lends_found};

    /// Empty tables. The room for 4,096 channels is taken at once, and so is the list that gives each sid its place.
    pub fn new(alloc: Global) -> Result<Table<C, S>, NoMemory>
    where
        C: Drop,
        S: Drop,
        ensures { IfOk result (λ t. t ≡ blank) }
    {
        let channels = Directory::with_room(alloc, LIMIT as usize)?;
        let asks = Directory::with_room(alloc, 0)?;
        let files = Files::new(alloc)?;
        Ok(Table {
            channels,
            asks,
            files,
        })
    }

    /// Puts in a channel with the client's id of it, and answers its sid: the least number that no channel has.
    /// With 4,096 channels it is `Full`, and all is as before. One search finds the number. No memory is taken.
    pub fn add_channel(&mut self, cid: u32, channel: C) -> Result<u32, TableAnswer>
    where
        C: Drop,
        ensures ok { IfOk result (λ sid. self.new ≡ with_channel self.old sid cid channel) }
        ensures least { IfOk result (λ sid. IsLeastAbsent (map.get self.old.channels) sid) }
        ensures few { OnOk result (map.len self.old.channels < limit) }
        ensures full { IfErr result (IsFull (map.len self.old.channels)) }
        ensures err { OnErr result (self.new ≡ self.old) }
    {
        if self.channels.len() >= LIMIT as usize {
            return Err(TableAnswer::Full(LIMIT));
        }
        let sid = self.channels.least_absent();
        self.channels.insert(sid, (cid, channel));
        Ok(sid)
    }

    /// The channel of a sid, if there is one. One look-up.
    pub fn channel(&self, sid: u32) -> Option<&C>
        ensures { option_copied result ≡ option_map (λ known. known.1) (map.get self.now.channels sid) }
    {
        match self.channels.get(sid) {
            Some(known) => Some(&known.1),
            None => None,
        }
    }

    /// Whether there is a channel of this sid and this cid. One look-up.
    pub fn has_channel(&self, sid: u32, cid: u32) -> bool
        ensures { result ≡ is_some (channel_of self.now sid cid) }
    {
        match self.channels.get(sid) {
            Some(known) => known.0 == cid,
            None => false,
        }
    }

    /// Takes out the channel of this sid and this cid, if there is one; its requests are gone by then, and nothing else
    /// changes. Two look-ups. No memory is taken.
    pub fn remove_channel(&mut self, sid: u32, cid: u32) -> Option<C>
        requires gone { IsSome (channel_of self.old sid cid) → IsFreeOf (sid_at self.old.asks) sid }
        ensures value { result ≡ channel_of self.old sid cid }
        ensures removed { OnSome result (self.new ≡ without_channel self.old sid) }
        ensures none { IfNone result (self.new ≡ self.old) }
    {
        if !self.has_channel(sid, cid) {
            return None;
        }
        match self.channels.remove(sid) {
            Some((_, channel)) => Some(channel),
            None => None,
        }
    }

    /// Takes the memory for a request of this id, so that [`Table::add`] can't fail. It is `InUse` where a request has
    /// the id, else `Full` with 4,096 requests, else perhaps `NoMemory`. The channels and requests stay as they are. One
    /// look-up.
    pub fn reserve(&mut self, id: u32) -> Result<(), TableAnswer>
        ensures ready { OnOk result (IsReady self.new id) }
        ensures refused { IfErr result (Refuses self.old id) }
        ensures kept { self.new ≡ record self.old { room = self.new.room } }
        ensures room { self.old.room ≤ self.new.room }
    {
        if self.asks.contains(id) {
            return Err(TableAnswer::InUse);
        }
        if self.asks.len() >= LIMIT as usize {
            return Err(TableAnswer::Full(LIMIT));
        }
        self.files.reserve()?;
        self.asks.reserve()?;
        Ok(())
    }

    /// Puts in a request under an id for which [`Table::reserve`] answered Ok. Two look-ups. No memory is taken.
    pub fn add(&mut self, id: u32, ask: Ask<S>)
        requires { IsReady self.old id }
        ensures { self.new ≡ with_ask self.old id ask }
    {
        self.files.file(&self.asks, ask.sid, id);
        self.asks.insert(id, ask);
    }

    /// The request of an id, if there is one. One look-up.
    pub fn ask(&self, id: u32) -> Option<&Ask<S>>
        ensures { option_copied result ≡ map.get self.now.asks id }
    {
        self.asks.get(id)
    }

    /// The request of an id, if there is one, whatever `near` is: a place in the list of ids, which is looked at first with
    /// the few behind it. `near` is then the id's place in that list. So requests that are looked up by rising ids, one
    /// after another, take a step or two each. From a `near` that doesn't help it is one look-up.
    pub fn ask_near(&self, near: &mut usize, id: u32) -> Option<&Ask<S>>
        ensures { option_copied result ≡ map.get self.now.asks id }
    {
        self.asks.get_near(near, id)
    }

    /// The request of an id for writing, if there is one. All of it may be written: with another sid it is on that
    /// channel. Three look-ups. No memory is taken.
    pub fn ask_mut(&mut self, id: u32) -> Option<&mut Ask<S>>
        ensures* writes_back { sem 𝓛 (lends_found C.row S.row self.entry id result) }
        ensures value { option_copied_mut result ≡ map.get self.old.asks id }
    {
        if !self.asks.contains(id) {
            return None;
        }
        Some(self.lend(id))
    }

    /// The request of an id that has one, for writing.
    fn lend(&mut self, id: u32) -> &mut Ask<S>
        requires { IsSome (map.get self.old.asks id) }
        ensures* writes_back { sem 𝓛 (lends_ask C.row S.row self.entry id result) }
        ensures value { map.get self.old.asks id ≡ Some result.now }
    {
        self.files.lend(&self.asks, id);
        self.asks.value_mut(id)
    }

    /// Takes out the request of an id, if there is one. Four look-ups. No memory is taken.
    pub fn remove(&mut self, id: u32) -> Option<Ask<S>>
        ensures value { result ≡ map.get self.old.asks id }
        ensures rest { self.new ≡ without_ask self.old id }
    {
        self.files.unfile(&self.asks, id);
        self.asks.remove(id)
    }

    /// Takes out the request with the least id of those on a channel, and gives both. It is None where there is none on
    /// it, and then all is as before. Five look-ups, however many requests other channels have. No memory is taken.
    pub fn take_of(&mut self, sid: u32) -> Option<(u32, Ask<S>)>
        ensures least { IsFirstOn (sid_at self.old.asks) sid (option_map (λ taken. taken.0) result) }
        ensures ask { IfSome result (λ taken. map.get self.old.asks taken.0 ≡ Some taken.1) }
        ensures rest { IfSome result (λ taken. self.new ≡ without_ask self.old taken.0) }
        ensures none { IfNone result (self.new ≡ self.old) }
    {
        let Some(id) = self.files.first_on(&self.asks, sid) else {
            return None;
        };
        match self.remove(id) {
            Some(ask) => Some((id, ask)),
            None => None,
        }
    }

    /// The least id at or above `from` that a request has, if there is one. One look-up.
    pub fn next_id(&self, from: u32) -> Option<u32>
        ensures { IsNextFrom (map.get self.now.asks) from result }
    {
        self.asks.first_from(from)
    }
}
