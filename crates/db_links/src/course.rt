// How far a chain is: which records are marked done, the states after the steps so far, and what is left to do.
ghost use Rattle.std.specs.Prelude.{◌≡◌, ◌<◌, ◌||◌, ℕ, List, Some, length, slice_get, IfOk, OnOk, IfSome};
ghost use Rattle.std.specs.Option.{option_and_then};
ghost use Rattle.rec_kinds.specs.declared.state.RecState.{RecState};
ghost use Rattle.db_links.specs.Chains.{MayBeStep, AreValid, state_after, moved, open_link, roots};
ghost use Rattle.db_links.specs.Courses.{IsSite, site_of, scene_of, stage_of, with_mark, with_step, begun, at_start};
ghost use Rattle.db_links.specs.Reaching.{is_among};
ghost use Rattle.db_links.specs.Walks.{has};
ghost use Rattle.db_links.specs.declared.course.Records.{Records};

use crate::converting::convert;
use crate::link::{Link, RecordLinks};
use pvd_type::NoMemory;
use rec_kinds::{Action, Datum, Moment, RecConfig, RecState, process};
use std::alloc::Global;
use std::collections::{BTreeMap, BTreeSet};

/// The records of a chain as they are before it.
#[derive(Clone, Copy)]
pub(crate) struct Records<'a> {
    pub(crate) links: &'a [RecordLinks],
    pub(crate) configs: &'a [RecConfig],
    pub(crate) states: &'a [RecState],
    pub(crate) moment: Moment,
}

impl Records<'_> {
    /// The live link INP of a record.
    pub(crate) fn inp(&self, rec: u32) -> Option<Link>
        ensures { result ≡ option_and_then (λ l. l.inp) (slice_get self.now.links.now rec) }
    {
        self.links.get(rec as usize)?.inp
    }

    /// The live link OUT of a record.
    pub(crate) fn out(&self, rec: u32) -> Option<Link>
        ensures { result ≡ option_and_then (λ l. l.out) (slice_get self.now.links.now rec) }
    {
        self.links.get(rec as usize)?.out
    }

    /// The live link FLNK of a record.
    pub(crate) fn flnk(&self, rec: u32) -> Option<Link>
        ensures { result ≡ option_and_then (λ l. l.flnk) (slice_get self.now.links.now rec) }
    {
        self.links.get(rec as usize)?.flnk
    }
}

/// What is left to do of an action on a record that is marked done.
#[derive(Drop)]
pub(crate) enum Task {
    /// All of it, beginning with INP.
    Fetch(u32, Action),
    /// Its step, and what follows that.
    MakeStep(u32, Action),
    /// What FLNK asks for.
    Forward(u32),
}

/// How far a chain is.
#[derive(Drop)]
pub(crate) struct Course {
    /// The records that are marked done.
    pub(crate) done: BTreeSet<u32>,
    /// The states of the records that had a step.
    pub(crate) states: BTreeMap<u32, RecState>,
    /// What is left to do. What is to be done next stands last.
    pub(crate) tasks: Vec<Task>,
    /// The steps so far.
    pub(crate) steps: Vec<(u32, Action)>,
}

impl Course {
    /// The course of a chain of these actions: their records are marked done, and nothing else is made.
    pub(crate) fn of(alloc: Global, actions: &[(u32, Action)]) -> Result<Course, NoMemory>
        ensures { IfOk result (λ course. (r : Records) → stage_of r course ≡ at_start r actions.now) }
    {
        let mut course = Course {
            done: BTreeSet::new(alloc),
            states: BTreeMap::new(alloc),
            tasks: Vec::new(alloc),
            steps: Vec::new(alloc),
        };
        mark_roots(&mut course.done, actions)?;
        Ok(course)
    }

    /// The link, if its record isn't marked done.
    pub(crate) fn open(&self, link: Option<Link>) -> Option<Link>
        ensures { (before : List RecState) → result ≡ option_and_then (open_link (scene_of before self.now)) link }
    {
        let link = link?;
        if self.done.contains(&link.target) {
            return None;
        }
        Some(link)
    }

    /// The state of a record after the steps so far.
    pub(crate) fn state<'a>(&'a self, records: &Records<'a>, rec: u32) -> &'a RecState
        requires within { rec < length records.now.states.now }
        ensures { (scene_of records.now.states.now self.now).states rec ≡ Some result.now }
    {
        match self.states.get(&rec) {
            Some(state) => state,
            None => &records.states[rec as usize],
        }
    }

    /// What moves from one record into another.
    pub(crate) fn moved(
        &self,
        alloc: Global,
        records: &Records,
        from: u32,
        to: u32,
    ) -> Result<Option<Datum>, NoMemory>
        requires site { IsSite records.now }
        requires from { from < length records.now.links.now }
        requires to { to < length records.now.links.now }
        ensures moved { IfOk result (λ datum. datum ≡ moved (site_of records.now) (scene_of records.now.states.now self.now) from to) }
        ensures allowed { IfOk result (λ datum. IfSome datum (λ d. MayBeStep records.now.configs.now (to, Action.Put d))) }
    {
        convert(
            alloc,
            &records.configs[to as usize],
            &self.state(records, from).datum,
        )
    }

    /// Marks a record done.
    pub(crate) fn mark(&mut self, rec: u32) -> Result<(), NoMemory>
        ensures { OnOk result ((r : Records) → stage_of r self.new ≡ with_mark rec (stage_of r self.old)) }
    {
        self.done.insert(rec)?;
        Ok(())
    }

    /// Begins an action on a record.
    pub(crate) fn begin(&mut self, rec: u32, action: Action) -> Result<(), NoMemory>
        ensures { OnOk result ((r : Records) → stage_of r self.new ≡ begun rec action (stage_of r self.old)) }
    {
        self.mark(rec)?;
        self.tasks.push(Task::Fetch(rec, action))?;
        Ok(())
    }

    /// The state of a record after an action.
    fn next_state(
        &self,
        alloc: Global,
        records: &Records,
        rec: u32,
        action: &Action,
    ) -> Result<RecState, NoMemory>
        requires site { IsSite records.now }
        requires within { rec < length records.now.links.now }
        requires valid { AreValid records.now.configs.now (scene_of records.now.states.now self.now).states }
        requires may { MayBeStep records.now.configs.now (rec, action.now) }
        ensures { IfOk result (λ state. Some state ≡ state_after records.now.moment action.now (slice_get records.now.configs.now rec) ((scene_of records.now.states.now self.now).states rec)) }
    {
        let config = &records.configs[rec as usize];
        process(
            alloc,
            config,
            self.state(records, rec),
            action,
            records.moment,
            true,
        )
    }

    /// Makes the step of an action on a record.
    pub(crate) fn make_step(
        &mut self,
        alloc: Global,
        records: &Records,
        rec: u32,
        action: Action,
    ) -> Result<(), NoMemory>
        requires site { IsSite records.now }
        requires within { rec < length records.now.links.now }
        requires valid { AreValid records.now.configs.now (scene_of records.now.states.now self.old).states }
        requires may { MayBeStep records.now.configs.now (rec, action) }
        ensures { OnOk result (stage_of records.now self.new ≡ with_step (site_of records.now) rec action (stage_of records.now self.old)) }
    {
        let state = self.next_state(alloc, records, rec, &action)?;
        self.states.insert(rec, state)?;
        self.steps.push((rec, action))?;
        Ok(())
    }
}

/// Marks the records done that have an action of their own.
fn mark_roots(done: &mut BTreeSet<u32>, actions: &[(u32, Action)]) -> Result<(), NoMemory>
    ensures { OnOk result ((q : ℕ) → has done.new q ≡ (is_among q (roots actions.now) || has done.old q)) }
{
    for step in actions {
        done.insert(step.0)?;
    }
    Ok(())
}
