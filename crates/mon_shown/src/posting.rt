// Entries, posted to all subscriptions that they concern.
ghost use Rattle.std.specs.Prelude.{◌≡◌, ◌≢◌, ◌<◌, ◌≤◌, ◌^◌, ℕ, Bool, true, false, None, Some, length, IfOk, IfSome, IsNone, OnOk};
ghost use Rattle.std.specs.FinSet.{contains};
ghost use Rattle.mon_shown.specs.Channels.{ChannelView};
ghost use Rattle.mon_shown.specs.Keeping.{channel_of, IsOf, anew_of};
ghost use Rattle.mon_shown.specs.Readies.{found_for};
ghost use Rattle.mon_shown.specs.Viewing.{AreViews};
ghost use Rattle.mon_shown.specs.Slots.{slot_of, slot_in, Stand, SlotMay, SlotReady, SlotTook, AreReady, MayTakeAll, TookAll};

use crate::entering::discard;
use crate::subscriptions::{Readied, Subscriptions};
use crate::viewed::Viewed;
use crate::views::Views;
use crate::watching::{Ready, Watching};
use journal_core::Entry;
use pvd_type::{BitSet, NoMemory};
use rec_kinds::RecState;
use std::alloc::Global;

impl<C: Copy> Subscriptions<C> {
    /// What an entry will change, where these are the states after it. All memory of its posts is taken here, and nothing is
    /// changed. Only those subscriptions are looked at of which a written record triggers a requested leaf, and those that are shown the same
    /// share one value.
    pub fn ready_all<V: Views<C>>(
        &self,
        alloc: Global,
        views: &V,
        entry: &Entry,
        states: &[RecState],
    ) -> Result<Readied, NoMemory>
        requires stand { Stand (V.has views.now) (V.shows views.now) self.now }
        requires ready { (slot : ℕ) (x : Watching C) → slot_in self.now slot ≡ Some x → V.ready views.now (channel_of x) (anew_of (V.shows views.now) x entry.now) states.now }
        ensures { IfOk result (AreReady (V.shows views.now) states.now entry.now self.now) }
    {
        let mut viewed = Viewed::new(alloc);
        let made = self.ready_each(alloc, views, entry, states, &mut viewed);
        discard(viewed);
        made
    }

    /// What an entry will change, one subscription after the other.
    fn ready_each<V: Views<C>>(
        &self,
        alloc: Global,
        views: &V,
        entry: &Entry,
        states: &[RecState],
        viewed: &mut Viewed<C>,
    ) -> Result<Readied, NoMemory>
        requires stand { Stand (V.has views.now) (V.shows views.now) self.now }
        requires ready { (slot : ℕ) (x : Watching C) → slot_in self.now slot ≡ Some x → V.ready views.now (channel_of x) (anew_of (V.shows views.now) x entry.now) states.now }
        requires viewed { AreViews (V.shows views.now) states.now viewed.old.views.items }
        ensures { IfOk result (AreReady (V.shows views.now) states.now entry.now self.now) }
    {
        let concerned = self.index.concerned(alloc, entry.writes.as_slice())?;
        let mut made = Readied {
            readies: Vec::new(alloc),
        };
        let mut start = 0u32;
        for _turn in 0..self.slots.len() {
            let Some(slot) = self.next_of(&concerned, start) else {
                return Ok(made);
            };
            let ready = self.ready_at(alloc, views, slot, entry, states, viewed)?;
            add_some(&mut made, slot, ready)?;
            start = slot + 1;
        }
        Ok(made)
    }

    /// The least slot of the set from a start on, where a subscription may be.
    fn next_of(&self, concerned: &BitSet, start: u32) -> Option<u32>
        ensures some { IfSome result (λ n. (start ≤ n) × (n < length self.now.slots.items) × (n < 1024)) }
        ensures between { IfSome result (λ n. (q : ℕ) → start ≤ q → q < n → contains concerned.now q ≡ false) }
        ensures none { IsNone result → (q : ℕ) → start ≤ q → q < length self.now.slots.items → contains concerned.now q ≡ false }
    {
        let slot = concerned.first_from(start)?;
        if (slot as usize) < self.slots.len() {
            return Some(slot);
        }
        None
    }

    /// What an entry will change of the subscription of a slot.
    fn ready_at<V: Views<C>>(
        &self,
        alloc: Global,
        views: &V,
        slot: u32,
        entry: &Entry,
        states: &[RecState],
        viewed: &mut Viewed<C>,
    ) -> Result<Option<Ready>, NoMemory>
        requires within { slot < length self.now.slots.items }
        requires stand { Stand (V.has views.now) (V.shows views.now) self.now }
        requires ready { (slot : ℕ) (x : Watching C) → slot_in self.now slot ≡ Some x → V.ready views.now (channel_of x) (anew_of (V.shows views.now) x entry.now) states.now }
        requires viewed { AreViews (V.shows views.now) states.now viewed.old.views.items }
        ensures ready { IfOk result (SlotReady (V.shows views.now) states.now entry.now (slot_in self.now slot)) }
        ensures viewed { AreViews (V.shows views.now) states.now viewed.new.views.items }
    {
        let place = &self.slots[slot as usize];
        ready_slot(alloc, views, place, entry, states, viewed)
    }

    /// Takes in all that was made ready for the subscriptions as they are. It takes no memory.
    pub fn take_all(&mut self, ready: Readied)
        requires { MayTakeAll self.old ready }
        ensures took { TookAll self.old ready self.new }
        ensures stand { (has : C → Bool) (shows : C → ChannelView) → Stand has shows self.old → Stand has shows self.new }
    {
        let mut readies = ready.readies;
        while let Some((slot, one)) = readies.pop() {
            take_at(&mut self.slots, slot as usize, one);
        }
    }
}

/// What an entry will change of one slot.
fn ready_slot<C: Copy, V: Views<C>>(
    alloc: Global,
    views: &V,
    slot: &Option<Watching<C>>,
    entry: &Entry,
    states: &[RecState],
    viewed: &mut Viewed<C>,
) -> Result<Option<Ready>, NoMemory>
    requires is_of { (x : Watching C) → slot.now ≡ Some x → IsOf (V.has views.now) (V.shows views.now) x }
    requires ready { (x : Watching C) → slot.now ≡ Some x → V.ready views.now (channel_of x) (anew_of (V.shows views.now) x entry.now) states.now }
    requires viewed { AreViews (V.shows views.now) states.now viewed.old.views.items }
    ensures ready { IfOk result (SlotReady (V.shows views.now) states.now entry.now slot.now) }
    ensures viewed { AreViews (V.shows views.now) states.now viewed.new.views.items }
{
    match slot {
        Some(watching) => watching.ready(alloc, views, entry, states, viewed),
        None => Ok(None),
    }
}

/// Adds what was made ready for a slot that isn't there.
fn add(made: &mut Readied, slot: u32, ready: Ready) -> Result<(), NoMemory>
    requires { found_for slot made.old.readies.items ≡ None }
    ensures others { OnOk result ((s : ℕ) → s ≢ slot → found_for s made.new.readies.items ≡ found_for s made.old.readies.items) }
    ensures own { OnOk result (found_for slot made.new.readies.items ≡ Some ready) }
{
    made.readies.push((slot, ready))?;
    Ok(())
}

/// Adds what was made ready, if anything was.
fn add_some(made: &mut Readied, slot: u32, ready: Option<Ready>) -> Result<(), NoMemory>
    requires { found_for slot made.old.readies.items ≡ None }
    ensures others { OnOk result ((s : ℕ) → s ≢ slot → found_for s made.new.readies.items ≡ found_for s made.old.readies.items) }
    ensures own { OnOk result (found_for slot made.new.readies.items ≡ ready) }
{
    match ready {
        Some(ready) => add(made, slot, ready),
        None => Ok(()),
    }
}

/// Takes in what was made ready for one slot.
fn take_at<C: Copy>(slots: &mut Vec<Option<Watching<C>>>, at: usize, ready: Ready)
    requires { SlotMay (slot_of slots.old.items at) (Some ready) }
    ensures own { SlotTook (slot_of slots.old.items at) (Some ready) (slot_of slots.new.items at) }
    ensures others { (s : ℕ) → s ≢ at → slot_of slots.new.items s ≡ slot_of slots.old.items s }
    ensures count { length slots.new.items ≡ length slots.old.items }
{
    if at >= slots.len() {
        discard(ready);
        return;
    }
    take_slot(&mut slots[at], ready);
}

/// Takes in what was made ready for the subscription of a slot, if there is one.
fn take_slot<C: Copy>(slot: &mut Option<Watching<C>>, ready: Ready)
    requires { SlotMay slot.old (Some ready) }
    ensures { SlotTook slot.old (Some ready) slot.new }
{
    match slot {
        Some(watching) => watching.take(ready),
        None => discard(ready),
    }
}
