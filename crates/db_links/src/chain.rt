// The steps that the actions of an entry come to.
ghost use Rattle.std.specs.Prelude.{◌≡◌, ◌<◌, [], length, slice_get, IfOk, OnOk};
ghost use Rattle.db_links.specs.Chains.{IsChain, AreValid, MayBeStep, MayBeAsked};
ghost use Rattle.db_links.specs.Courses.{IsSite, IsSound, site_of, scene_of, stage_of};
ghost use Rattle.db_links.specs.Leading.{Goes, Took};

use crate::course::{Course, Records};
use crate::link::Links;
use pvd_type::NoMemory;
use rec_kinds::{Action, Moment, RecConfig, RecState};
use std::alloc::Global;

impl Links {
    /// The steps that the actions of an entry come to by live links, in order, where the records have these configurations
    /// and states (EPICS record reference, "Scan, Link and Lock"). It takes time and memory for its steps, and no
    /// recursion.
    pub fn chain(
        &self,
        alloc: Global,
        configs: &[RecConfig],
        states: &[RecState],
        actions: &[(u32, Action)],
        moment: Moment,
    ) -> Result<Vec<(u32, Action)>, NoMemory>
        requires configs { length configs.now ≡ length self.now }
        requires states { length states.now ≡ length self.now }
        requires valid { AreValid configs.now (slice_get states.now) }
        requires may { MayBeAsked configs.now (length self.now) actions.now }
        ensures { IfOk result (λ steps. IsChain (record { links = self.now; configs = configs.now; moment = moment }) states.now actions.now steps.items) }
    {
        let records = Records {
            links: self.by_record.as_slice(),
            configs,
            states,
            moment,
        };
        let mut course = Course::of(alloc, actions)?;
        course.do_all(alloc, &records, actions)?;
        Ok(course.steps)
    }
}

impl Course {
    /// Does these actions one after another.
    fn do_all(
        &mut self,
        alloc: Global,
        records: &Records,
        actions: &[(u32, Action)],
    ) -> Result<(), NoMemory>
        requires site { IsSite records.now }
        requires sound { IsSound records.now (stage_of records.now self.old) }
        requires none { self.old.tasks.items ≡ [] }
        requires may { MayBeAsked records.now.configs.now (length records.now.links.now) actions.now }
        ensures { OnOk result (Took (site_of records.now) actions.now (stage_of records.now self.old) self.new.steps.items (scene_of records.now.states.now self.new)) }
    {
        for step in actions {
            self.do_root(alloc, records, step)?;
        }
        Ok(())
    }

    /// Does an action on a record, and all that follows from it.
    fn do_root(
        &mut self,
        alloc: Global,
        records: &Records,
        step: &(u32, Action),
    ) -> Result<(), NoMemory>
        requires site { IsSite records.now }
        requires sound { IsSound records.now (stage_of records.now self.old) }
        requires none { self.old.tasks.items ≡ [] }
        requires within { step.now.0 < length records.now.links.now }
        requires may { MayBeStep records.now.configs.now step.now }
        ensures none { OnOk result (self.new.tasks.items ≡ []) }
        ensures sound { OnOk result (IsSound records.now (stage_of records.now self.new)) }
        ensures goes { OnOk result (Goes (site_of records.now) step.now (stage_of records.now self.old) (stage_of records.now self.new)) }
    {
        let action = copied(alloc, &step.1)?;
        self.begin(step.0, action)?;
        self.run(alloc, records)?;
        Ok(())
    }
}

/// A copy of an action, which shares its text or list.
fn copied(alloc: Global, action: &Action) -> Result<Action, NoMemory>
    ensures { IfOk result (λ copy. copy ≡ action.now) }
{
    match action {
        Action::Put(datum) => Ok(Action::Put(datum.clone_in(alloc)?)),
        Action::Process => Ok(Action::Process),
    }
}
