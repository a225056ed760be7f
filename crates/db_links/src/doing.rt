// Doing what is left of a chain, one thing after another.
ghost use Rattle.std.specs.Prelude.{◌≡◌, ◌<◌, [], length, IfOk, OnOk};
ghost use Rattle.std.specs.Option.{option_and_then};
ghost use Rattle.db_links.specs.Chains.{MayBeStep, pp_target, source_of, fetched, written_of, forward_of};
ghost use Rattle.db_links.specs.declared.course.Records.{Records};
ghost use Rattle.db_links.specs.Courses.{IsSite, IsSound, site_of, scene_of, stage_of, asked, written, wrote, turned, with_task};
ghost use Rattle.db_links.specs.Leading.{Leads};

use crate::course::{Course, Records, Task};
use crate::link::Link;
use pvd_type::NoMemory;
use rec_kinds::Action;
use std::alloc::Global;

impl Course {
    /// The source that INP asks to be processed before an action on a record.
    fn source_of(&self, records: &Records, rec: u32, action: &Action) -> Option<u32>
        ensures { result ≡ source_of (site_of records.now) rec action.now (scene_of records.now.states.now self.now) }
    {
        match action {
            Action::Put(_) => None,
            Action::Process => pp_target(self.open(records.inp(rec))),
        }
    }

    /// An action on a record after INP: a put of what the source holds, where that moves.
    fn fetched(
        &self,
        alloc: Global,
        records: &Records,
        rec: u32,
        action: Action,
    ) -> Result<Action, NoMemory>
        requires site { IsSite records.now }
        requires within { rec < length records.now.links.now }
        requires may { MayBeStep records.now.configs.now (rec, action) }
        ensures same { IfOk result (λ found. found ≡ fetched (site_of records.now) rec action (scene_of records.now.states.now self.now)) }
        ensures may { IfOk result (λ found. MayBeStep records.now.configs.now (rec, found)) }
    {
        match action {
            Action::Put(datum) => Ok(Action::Put(datum)),
            Action::Process => self.fetched_by(alloc, records, rec),
        }
    }

    /// What is done to a record that is processed.
    fn fetched_by(&self, alloc: Global, records: &Records, rec: u32) -> Result<Action, NoMemory>
        requires site { IsSite records.now }
        requires within { rec < length records.now.links.now }
        ensures same { IfOk result (λ found. found ≡ fetched (site_of records.now) rec Action.Process (scene_of records.now.states.now self.now)) }
        ensures may { IfOk result (λ found. MayBeStep records.now.configs.now (rec, found)) }
    {
        let Some(link) = records.inp(rec) else {
            return Ok(Action::Process);
        };
        match self.moved(alloc, records, link.target, rec)? {
            Some(datum) => Ok(Action::Put(datum)),
            None => Ok(Action::Process),
        }
    }

    /// Begins to process a record, if one is asked for.
    fn ask(&mut self, rec: Option<u32>) -> Result<(), NoMemory>
        ensures { OnOk result ((r : Records) → stage_of r self.new ≡ asked rec (stage_of r self.old)) }
    {
        match rec {
            Some(rec) => self.begin(rec, Action::Process),
            None => Ok(()),
        }
    }

    /// INP: the source is processed first, where that is asked for. The step of the record comes after it.
    fn fetch(&mut self, records: &Records, rec: u32, action: Action) -> Result<(), NoMemory>
        ensures { OnOk result (stage_of records.now self.new ≡ turned (site_of records.now) (Task.Fetch rec action) (stage_of records.now self.old)) }
    {
        let source = self.source_of(records, rec, &action);
        self.tasks.push(Task::MakeStep(rec, action))?;
        self.ask(source)
    }

    /// The step of a record, and OUT behind it. FLNK comes after that.
    fn step(
        &mut self,
        alloc: Global,
        records: &Records,
        rec: u32,
        action: Action,
    ) -> Result<(), NoMemory>
        requires site { IsSite records.now }
        requires sound { IsSound records.now (with_task (Task.MakeStep rec action) (stage_of records.now self.old)) }
        ensures { OnOk result (stage_of records.now self.new ≡ turned (site_of records.now) (Task.MakeStep rec action) (stage_of records.now self.old)) }
    {
        let action = self.fetched(alloc, records, rec, action)?;
        self.make_step(alloc, records, rec, action)?;
        self.tasks.push(Task::Forward(rec))?;
        self.write(alloc, records, rec)
    }

    /// OUT: what a record writes, where anything moves.
    fn write(&mut self, alloc: Global, records: &Records, rec: u32) -> Result<(), NoMemory>
        requires site { IsSite records.now }
        requires within { rec < length records.now.links.now }
        requires sound { IsSound records.now (stage_of records.now self.old) }
        ensures { OnOk result (stage_of records.now self.new ≡ wrote (site_of records.now) (written_of (site_of records.now) rec (scene_of records.now.states.now self.old)) (stage_of records.now self.old)) }
    {
        let Some(link) = self.open(records.out(rec)) else {
            return Ok(());
        };
        match self.moved(alloc, records, rec, link.target)? {
            Some(datum) => self.write_to(alloc, records, link, Action::Put(datum)),
            None => Ok(()),
        }
    }

    /// Writes to the record of a link: a PP link begins an action on it, and another makes one step of it.
    fn write_to(
        &mut self,
        alloc: Global,
        records: &Records,
        link: Link,
        action: Action,
    ) -> Result<(), NoMemory>
        requires site { IsSite records.now }
        requires within { link.target < length records.now.links.now }
        requires sound { IsSound records.now (stage_of records.now self.old) }
        requires may { MayBeStep records.now.configs.now (link.target, action) }
        ensures { OnOk result (stage_of records.now self.new ≡ written (site_of records.now) link action (stage_of records.now self.old)) }
    {
        if link.processes {
            return self.begin(link.target, action);
        }
        self.mark(link.target)?;
        self.make_step(alloc, records, link.target, action)
    }

    /// FLNK: the next record is processed.
    fn forward(&mut self, records: &Records, rec: u32) -> Result<(), NoMemory>
        ensures { OnOk result (stage_of records.now self.new ≡ turned (site_of records.now) (Task.Forward rec) (stage_of records.now self.old)) }
    {
        match self.open(records.flnk(rec)) {
            Some(link) => self.begin(link.target, Action::Process),
            None => Ok(()),
        }
    }

    /// Does all that is left.
    pub(crate) fn run(&mut self, alloc: Global, records: &Records) -> Result<(), NoMemory>
        requires site { IsSite records.now }
        requires sound { IsSound records.now (stage_of records.now self.old) }
        ensures none { OnOk result (self.new.tasks.items ≡ []) }
        ensures sound { OnOk result (IsSound records.now (stage_of records.now self.new)) }
        ensures leads { OnOk result (Leads (site_of records.now) (stage_of records.now self.old) (stage_of records.now self.new)) }
    {
        while let Some(task) = self.tasks.pop() {
            self.turn(alloc, records, task)?;
        }
        Ok(())
    }

    /// Does a task.
    fn turn(&mut self, alloc: Global, records: &Records, task: Task) -> Result<(), NoMemory>
        requires site { IsSite records.now }
        requires sound { IsSound records.now (with_task task (stage_of records.now self.old)) }
        ensures { OnOk result (stage_of records.now self.new ≡ turned (site_of records.now) task (stage_of records.now self.old)) }
    {
        match task {
            Task::Fetch(rec, action) => self.fetch(records, rec, action),
            Task::MakeStep(rec, action) => self.step(alloc, records, rec, action),
            Task::Forward(rec) => self.forward(records, rec),
        }
    }
}

/// The record of a PP link.
fn pp_target(link: Option<Link>) -> Option<u32>
    ensures { result ≡ option_and_then pp_target link }
{
    let link = link?;
    if link.processes {
        Some(link.target)
    } else {
        None
    }
}
