// Subscriptions that begin, are read, and end.
ghost use Rattle.std.specs.Prelude.{◌≡◌, ◌≢◌, ◌==◌, ◌<◌, ◌≤◌, ◌&&◌, ◌||◌, ℕ, Bool, true, false, is_some, None, Some, length, IfOk, IfErr, IfSome, OnOk, OnErr};
ghost use Rattle.std.specs.FinSet.{empty};
ghost use Rattle.mon_queue.specs.Told.{IsUpdateOf};
ghost use Rattle.mon_shown.specs.Channels.{ChannelView, is_one_of};
ghost use Rattle.mon_shown.specs.Keeping.{tree_of, IsOf};
ghost use Rattle.mon_shown.specs.Noting.{names, wants, OthersStay};
ghost use Rattle.mon_shown.specs.Slots.{slot_of, slot_in, is_filled, Stand, OtherSlotsStay, SlotsStay, SlotPopped, IsFirstFree};
ghost use Rattle.mon_shown.specs.Answers.{IsCause};

use crate::entering::discard;
use crate::index::Index;
use crate::subscriptions::{LIMIT, Subscriptions};
use crate::views::Views;
use crate::watching::Watching;
use mon_queue::Update;
use pvd_type::{BitSet, NoMemory};
use std::alloc::Global;

/// Why a subscription didn't begin.
#[derive(Clone, Copy, Debug, PartialEq, Eq)]
pub enum NotBegun {
    /// 1,024 live.
    TooMany,
    /// The memory that it needs couldn't be had.
    NoMemory,
}

impl<C: Copy> Subscriptions<C> {
    /// None yet.
    pub fn new(alloc: Global) -> Subscriptions<C>
        ensures none { (slot : ℕ) → slot_in result slot ≡ None }
        ensures stand { (has : C → Bool) (shows : C → ChannelView) → Stand has shows result }
    {
        Subscriptions {
            slots: Vec::new(alloc),
            index: Index::new(alloc),
        }
    }

    /// Puts a subscription that begins into the least free slot. Where that fails it is let go, and nothing changes.
    pub fn add<V: Views<C>>(
        &mut self,
        alloc: Global,
        views: &V,
        watching: Watching<C>,
    ) -> Result<u32, NotBegun>
        requires stand { Stand (V.has views.now) (V.shows views.now) self.old }
        requires is_of { IsOf (V.has views.now) (V.shows views.now) watching }
        ensures least { IfOk result (IsFirstFree self.old) }
        ensures few { IfOk result (λ slot. slot < 1024) }
        ensures there { IfOk result (λ slot. slot_in self.new slot ≡ Some watching) }
        ensures others { IfOk result (λ slot. OtherSlotsStay self.old slot self.new) }
        ensures err { OnErr result (SlotsStay self.old self.new) }
        ensures cause { IfErr result (IsCause self.old) }
        ensures stand { Stand (V.has views.now) (V.shows views.now) self.new }
    {
        let slot = self.first_free();
        if slot >= LIMIT {
            return Err(NotBegun::TooMany);
        }
        match self.fill(alloc, views, slot as u16, watching) {
            Ok(()) => Ok(slot as u32),
            Err(_) => Err(NotBegun::NoMemory),
        }
    }

    /// The least free slot. It may be one behind all that were ever filled.
    fn first_free(&self) -> usize
        ensures least { IsFirstFree self.now result }
        ensures within { result ≤ length self.now.slots.items }
    {
        for slot in 0..self.slots.len() {
            if self.slots[slot].is_none() {
                return slot;
            }
        }
        self.slots.len()
    }

    /// Puts a subscription into a free slot, and lists it under the records that trigger it.
    fn fill<V: Views<C>>(
        &mut self,
        alloc: Global,
        views: &V,
        slot: u16,
        watching: Watching<C>,
    ) -> Result<(), NoMemory>
        requires stand { Stand (V.has views.now) (V.shows views.now) self.old }
        requires is_of { IsOf (V.has views.now) (V.shows views.now) watching }
        requires free { slot_in self.old slot ≡ None }
        requires within { (slot ≤ length self.old.slots.items) × (slot < 1024) }
        ensures there { OnOk result (slot_in self.new slot ≡ Some watching) }
        ensures others { OnOk result (OtherSlotsStay self.old slot self.new) }
        ensures err { OnErr result (SlotsStay self.old self.new) }
        ensures stand { Stand (V.has views.now) (V.shows views.now) self.new }
    {
        let Ok(()) = make_room(&mut self.slots, slot as usize) else {
            discard(watching);
            return Err(NoMemory);
        };
        let channel = watching.channel;
        match note(
            &mut self.index,
            alloc,
            views,
            channel,
            &watching.requested,
            slot,
        ) {
            Ok(()) => {
                put_at(&mut self.slots, slot as usize, watching);
                Ok(())
            }
            Err(no_memory) => {
                discard(watching);
                forget(&mut self.index, views, channel, slot);
                Err(no_memory)
            }
        }
    }

    /// The oldest unread update of a slot, or none. It takes no memory.
    pub fn pop(&mut self, slot: u32) -> Option<Update>
        ensures popped { SlotPopped (slot_in self.old slot) result (slot_in self.new slot) }
        ensures update { IfSome result (λ u. (x : Watching C) → slot_in self.old slot ≡ Some x → IsUpdateOf (tree_of x) u) }
        ensures others { OtherSlotsStay self.old slot self.new }
        ensures stand { (has : C → Bool) (shows : C → ChannelView) → Stand has shows self.old → Stand has shows self.new }
    {
        pop_at(&mut self.slots, slot as usize)
    }

    /// Ends the subscription of a slot. It takes no memory.
    pub fn clear<V: Views<C>>(&mut self, views: &V, slot: u32)
        requires { Stand (V.has views.now) (V.shows views.now) self.old }
        ensures there { slot_in self.new slot ≡ None }
        ensures others { OtherSlotsStay self.old slot self.new }
        ensures stand { Stand (V.has views.now) (V.shows views.now) self.new }
    {
        let Some(watching) = take_out(&mut self.slots, slot as usize) else {
            return;
        };
        let channel = watching.channel;
        discard(watching);
        forget(&mut self.index, views, channel, slot as u16);
    }
}

/// Makes a place for the slot.
fn make_room<C: Copy>(slots: &mut Vec<Option<Watching<C>>>, slot: usize) -> Result<(), NoMemory>
    requires { (slot ≤ length slots.old.items) × (slot < 1024) }
    ensures same { (s : ℕ) → slot_of slots.new.items s ≡ slot_of slots.old.items s }
    ensures few { length slots.old.items ≤ 1024 → length slots.new.items ≤ 1024 }
    ensures there { OnOk result (slot < length slots.new.items) }
{
    if slot < slots.len() {
        return Ok(());
    }
    slots.push(None)?;
    Ok(())
}

/// Fills a place.
fn put_at<C: Copy>(slots: &mut Vec<Option<Watching<C>>>, at: usize, watching: Watching<C>)
    requires { at < length slots.old.items }
    ensures there { slot_of slots.new.items at ≡ Some watching }
    ensures others { (s : ℕ) → s ≢ at → slot_of slots.new.items s ≡ slot_of slots.old.items s }
    ensures count { length slots.new.items ≡ length slots.old.items }
{
    put(&mut slots[at], watching);
}

fn put<C: Copy>(slot: &mut Option<Watching<C>>, watching: Watching<C>)
    ensures { slot.new ≡ Some watching }
{
    discard(std::mem::replace(slot, Some(watching)));
}

/// Empties a place.
fn take_out<C: Copy>(slots: &mut Vec<Option<Watching<C>>>, at: usize) -> Option<Watching<C>>
    ensures was { result ≡ slot_of slots.old.items at }
    ensures within { IfSome result (λ x. at < length slots.old.items) }
    ensures there { slot_of slots.new.items at ≡ None }
    ensures others { (s : ℕ) → s ≢ at → slot_of slots.new.items s ≡ slot_of slots.old.items s }
    ensures count { length slots.new.items ≡ length slots.old.items }
{
    if at >= slots.len() {
        return None;
    }
    std::mem::replace(&mut slots[at], None)
}

/// Lists a slot under the records that trigger some of these leaves of a channel. Without memory it may be listed under some.
fn note<C: Copy, V: Views<C>>(
    index: &mut Index,
    alloc: Global,
    views: &V,
    channel: C,
    requested: &BitSet,
    slot: u16,
) -> Result<(), NoMemory>
    requires there { V.has views.now channel ≡ true }
    requires free { (rec : ℕ) → names index.old rec slot ≡ false }
    ensures others { OthersStay index.old slot index.new }
    ensures ok { OnOk result ((rec : ℕ) → names index.new rec slot ≡ wants (V.shows views.now channel) requested.now rec) }
    ensures within { (rec : ℕ) → (V.shows views.now channel).triggers rec ≡ empty → names index.new rec slot ≡ false }
{
    let recs = views.triggering(channel);
    for rec in recs {
        let wanted = views.triggers(channel, *rec).meets(requested);
        add_if(index, alloc, *rec, slot, wanted)?;
    }
    Ok(())
}

/// Lists a slot under a record where that is wanted.
fn add_if(
    index: &mut Index,
    alloc: Global,
    rec: u32,
    slot: u16,
    wanted: bool,
) -> Result<(), NoMemory>
    ensures ok { OnOk result ((r s : ℕ) → names index.new r s ≡ (names index.old r s || (wanted && ((r == rec) && (s == slot))))) }
    ensures err { OnErr result ((r s : ℕ) → names index.new r s ≡ names index.old r s) }
{
    if wanted {
        return index.add(alloc, rec, slot);
    }
    Ok(())
}

/// Takes a slot from the lists of the records that trigger leaves of a channel.
fn forget<C: Copy, V: Views<C>>(index: &mut Index, views: &V, channel: C, slot: u16)
    requires there { V.has views.now channel ≡ true }
    requires within { (rec : ℕ) → (V.shows views.now channel).triggers rec ≡ empty → names index.old rec slot ≡ false }
    ensures others { OthersStay index.old slot index.new }
    ensures gone { (rec : ℕ) → names index.new rec slot ≡ false }
{
    let recs = views.triggering(channel);
    for rec in recs {
        index.remove(*rec, slot);
    }
}

/// Pops the subscription at a place.
fn pop_at<C: Copy>(slots: &mut Vec<Option<Watching<C>>>, at: usize) -> Option<Update>
    ensures popped { SlotPopped (slot_of slots.old.items at) result (slot_of slots.new.items at) }
    ensures update { IfSome result (λ u. (x : Watching C) → slot_of slots.old.items at ≡ Some x → IsUpdateOf (tree_of x) u) }
    ensures others { (s : ℕ) → s ≢ at → slot_of slots.new.items s ≡ slot_of slots.old.items s }
    ensures count { length slots.new.items ≡ length slots.old.items }
{
    if at >= slots.len() {
        return None;
    }
    pop_slot(&mut slots[at])
}

fn pop_slot<C: Copy>(slot: &mut Option<Watching<C>>) -> Option<Update>
    ensures popped { SlotPopped slot.old result slot.new }
    ensures update { IfSome result (λ u. (x : Watching C) → slot.old ≡ Some x → IsUpdateOf (tree_of x) u) }
{
    match slot {
        Some(watching) => watching.pop(),
        None => None,
    }
}
