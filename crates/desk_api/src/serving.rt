// What gets and puts of a channel read and do, as every desk needs it.
ghost use Rattle.std.specs.Prelude.{◌≡◌, ◌<◌, ◌≤◌, ◌||◌, ◌∷◌, [], ℕ, true, IfErr, IfOk, IsTrue, OnOk, Ok, Some, drop, length, slice_get, take};
ghost use Rattle.std.specs.List.{AllByRecursion};
ghost use Rattle.std.specs.List.Sorted.{IsStrictlyIncreasing};
ghost use Rattle.desk_api.specs.Grouping.{is_among};
ghost use Rattle.desk_api.specs.Puts.{IsRefusal, IsRefusedBy, actions_of, footprint_by, footprint_with, is_held_with, to_configured};
ghost use Rattle.desk_api.specs.Sites as sites;
ghost use Rattle.desk_api.specs.Sites.{AreOver, footprint_of, is_channel};
ghost use Rattle.desk_api.specs.Types.{group_type, type_of, type_shown};
ghost use Rattle.desk_api.specs.Views.{shown_or_blank, value_of};
ghost use Rattle.group_view.specs.Puts.{MayBeDoneBy};
ghost use Rattle.journal_core.specs.Legality.{AreValid};
ghost use Rattle.pvd_value.specs.Fits.{fits_of};
ghost use Rattle.pvd_value.specs.Blank.{blank_of};
ghost use Rattle.pvd_value.specs.View.{view};

use crate::channel::{Channel, ChannelKind};
use crate::site::Site;
use pvd_type::{BitSet, NoMemory};
use pvd_value::PvValue;
use rec_fields::{FieldAnswer, action_of, desc_view, view};
use rec_kinds::{Action, PutRefusal, RecState};
use std::alloc::Global;

/// One of these numbers, as a list.
fn one_of(numbers: &[u32], at: usize) -> &[u32]
    requires { at < length numbers.now }
    ensures { result.now ≡ take 1 (drop at numbers.now) }
{
    &numbers[at..at + 1]
}

/// The state of a record, by its number.
pub(crate) fn state_of(states: &[RecState], rec: usize) -> &RecState
    requires { rec < length states.now }
    ensures { slice_get states.now rec ≡ Some result.now }
{
    &states[rec]
}

/// Nothing is done. It tells that the groups of a site are over its records.
fn are_over(site: &Site)
    ensures { AreOver site.now }
{
    let _ = site.groups();
}

/// Sorts numbers, and keeps of equal ones one.
fn in_rising_order(numbers: &mut Vec<u32>)
    ensures rises { IsStrictlyIncreasing numbers.new.items }
    ensures same { (n : ℕ) → is_among numbers.new.items n ≡ is_among numbers.old.items n }
{
    numbers.sort_unstable();
    numbers.dedup();
}

/// One action, as a list.
fn one_action(alloc: Global, rec: u32, action: Action) -> Result<Vec<(u32, Action)>, NoMemory>
    ensures { IfOk result (λ actions. actions.items ≡ (rec, action) ∷ []) }
{
    Ok(vec![in alloc; (rec, action)]?)
}

/// A structure without members.
fn no_members(alloc: Global) -> PvValue
    ensures { view result ≡ blank_of (group_type None) }
{
    PvValue::Struct(Vec::new(alloc))
}

impl Site {
    /// What the channel shows where the records have these states, one for each record. It reads those of
    /// [`Site::footprint_of`] alone.
    pub fn view(
        &self,
        alloc: Global,
        channel: Channel,
        states: &[RecState],
    ) -> Result<PvValue, NoMemory>
        requires channel { IsTrue (is_channel self.now channel) }
        requires valid { AreValid self.now.configs states.now }
        ensures shown { IfOk result (λ v. view v ≡ value_of self.now channel states.now) }
        ensures fits { IfOk result (λ v. fits_of 16 (view v) (type_of self.now channel) ≡ true) }
    {
        let number = channel.number as usize;
        match channel.kind {
            ChannelKind::Rec => self.record_view(alloc, number, states),
            ChannelKind::Desc => desc_view(alloc, self.config(number)),
            ChannelKind::Group => self.group(number).view(alloc, states),
            ChannelKind::Service => Ok(no_members(alloc)),
        }
    }

    /// What a record shows.
    fn record_view(
        &self,
        alloc: Global,
        rec: usize,
        states: &[RecState],
    ) -> Result<PvValue, NoMemory>
        requires record { rec < length self.now.names }
        requires valid { AreValid self.now.configs states.now }
        ensures shown { IfOk result (λ v. view v ≡ shown_or_blank (slice_get self.now.configs rec) (slice_get states.now rec)) }
        ensures fits { IfOk result (λ v. fits_of 16 (view v) (type_shown (slice_get self.now.configs rec)) ≡ true) }
    {
        view(alloc, self.config(rec), state_of(states, rec))
    }

    /// The actions that a put of the marked leaves of a value asks for, in put order, each with its record: at least one and at
    /// most 256. Whether the channel takes them is decided before anything is done: a description can't be written, a record
    /// tells by [`rec_fields::action_of`], and a group by its first member in put order that doesn't take the put.
    pub fn actions(
        &self,
        alloc: Global,
        channel: Channel,
        value: &PvValue,
        mask: &BitSet,
    ) -> Result<Vec<(u32, Action)>, FieldAnswer>
        requires channel { IsTrue (is_channel self.now channel) }
        requires fits { fits_of 16 (view value.now) (type_of self.now channel) ≡ true }
        ensures actions { IfOk result (λ actions. actions_of self.now channel mask.now (view value.now) ≡ Ok actions.items) }
        ensures refusal { IfErr result (IsRefusal self.now channel mask.now (view value.now)) }
        ensures may { IfOk result (λ actions. AllByRecursion (MayBeDoneBy self.now.configs) actions.items) }
        ensures within { IfOk result (λ actions. AllByRecursion (λ a. a.0 < length self.now.configs) actions.items) }
        ensures some { IfOk result (λ actions. 0 < length actions.items) }
        ensures few { IfOk result (λ actions. length actions.items ≤ 256) }
    {
        match channel.kind {
            ChannelKind::Rec => self.record_actions(alloc, channel.number, value, mask),
            ChannelKind::Desc | ChannelKind::Service => {
                Err(FieldAnswer::Refused(PutRefusal::NothingWritable))
            }
            ChannelKind::Group => {
                let number = channel.number as usize;
                self.group(number).actions(alloc, value, mask)
            }
        }
    }

    /// The action that a put asks of a record, as a list.
    fn record_actions(
        &self,
        alloc: Global,
        rec: u32,
        value: &PvValue,
        mask: &BitSet,
    ) -> Result<Vec<(u32, Action)>, FieldAnswer>
        requires record { rec < length self.now.names }
        requires fits { fits_of 16 (view value.now) (type_shown (slice_get self.now.configs rec)) ≡ true }
        ensures actions { IfOk result (λ actions. to_configured rec mask.now (view value.now) (slice_get self.now.configs rec) ≡ Ok actions.items) }
        ensures refusal { IfErr result (IsRefusedBy (to_configured rec mask.now (view value.now) (slice_get self.now.configs rec))) }
        ensures may { IfOk result (λ actions. AllByRecursion (MayBeDoneBy self.now.configs) actions.items) }
        ensures some { IfOk result (λ actions. 0 < length actions.items) }
        ensures few { IfOk result (λ actions. length actions.items ≤ 256) }
    {
        let action = action_of(alloc, self.config(rec as usize), value, mask)?;
        Ok(one_action(alloc, rec, action)?)
    }

    /// The records that a get of the channel reads, in rising order: one, none for a description, or those of a group; and all
    /// for the service, which tells of all.
    pub fn footprint_of(&self, channel: Channel) -> &[u32]
        requires { IsTrue (is_channel self.now channel) }
        ensures { result.now ≡ footprint_of self.now channel }
    {
        let number = channel.number as usize;
        match channel.kind {
            ChannelKind::Rec => one_of(self.numbers.as_slice(), number),
            ChannelKind::Desc => &self.numbers[..0],
            ChannelKind::Group => self.group(number).members(),
            ChannelKind::Service => self.numbers.as_slice(),
        }
    }

    /// The records that an entry of a put with these actions holds, in rising order, each once: those that it writes, and those that
    /// groups read for the leaves that they post then. Its time grows with these records and with the groups of the written ones
    /// alone.
    pub fn footprint_by(
        &self,
        alloc: Global,
        actions: &[(u32, Action)],
    ) -> Result<Vec<u32>, NoMemory>
        requires { AllByRecursion (λ a. a.0 < length self.now.configs) actions.now }
        ensures { IfOk result (λ recs. recs.items ≡ footprint_by self.now actions.now) }
    {
        self.footprint_with(alloc, actions, &[])
    }

    /// The records that the entry of a put-get holds, in rising order, each once: those of a put with these actions, and those that
    /// the get looks at. Its time grows with these records and with the groups of the written ones alone.
    pub fn footprint_with(
        &self,
        alloc: Global,
        actions: &[(u32, Action)],
        looked: &[u32],
    ) -> Result<Vec<u32>, NoMemory>
        requires within { AllByRecursion (λ a. a.0 < length self.now.configs) actions.now }
        requires below { AllByRecursion (λ rec. rec < length self.now.configs) looked.now }
        ensures { IfOk result (λ recs. recs.items ≡ footprint_with self.now actions.now looked.now) }
    {
        are_over(self);
        // two for each action, since a record that a group shows is read for the group too
        let mut found = Vec::with_capacity(alloc, 2 * actions.len() + looked.len())?;
        for (rec, _) in actions {
            self.add_held(*rec, &mut found)?;
        }
        found.extend_from_slice(looked)?;
        in_rising_order(&mut found);
        Ok(found)
    }

    /// Adds the records that are held with one that is written.
    fn add_held(&self, rec: u32, found: &mut Vec<u32>) -> Result<(), NoMemory>
        ensures { OnOk result ((r : ℕ) → is_among found.new.items r ≡ (is_among found.old.items r || is_held_with self.now r rec)) }
    {
        found.push(rec)?;
        self.groups.add_footprints(rec, found)
    }

    /// Whether gets and puts of the channel are atomic: those of a group as is wanted, or else as its flag says; those of other
    /// channels always (QSRV manual, "Group PV definitions", `+atomic`).
    pub fn is_atomic(&self, channel: Channel, wanted: Option<bool>) -> bool
        requires { IsTrue (is_channel self.now channel) }
        ensures { result ≡ sites.is_atomic self.now channel wanted }
    {
        match channel.kind {
            ChannelKind::Rec | ChannelKind::Desc | ChannelKind::Service => true,
            ChannelKind::Group => match wanted {
                Some(wanted) => wanted,
                None => self.group(channel.number as usize).is_atomic(),
            },
        }
    }
}
