// What a put to a group does.
ghost use Rattle.std.specs.Prelude.{◌≡◌, ◌≤◌, ◌++◌, length, OnOk, Ok, Some, true, IfOk, IfErr, IfSome, List, slice_get};
ghost use Rattle.std.specs.List.{AllByRecursion};
ghost use Rattle.pvd_type.specs.Numbers.{numbered};
ghost use Rattle.pvd_value.specs.Fits.{fits_of};
ghost use Rattle.pvd_value.specs.View.{view};
ghost use Rattle.rec_kinds.specs.Configs.{Config};
ghost use Rattle.rec_kinds.specs.Validity.{MayBeDone};
ghost use Rattle.rec_fields.specs.Plain.{plain_tree};
ghost use Rattle.group_view.specs.Groups.{IsLinkOf, IsOver};
ghost use Rattle.group_view.specs.Puts.{IsWritten, MayBeDoneBy, done_by, done_by_all, actions_for, listed, Refuses, IsRefusal};
ghost use Rattle.group_view.specs.Types.{group_tree};
ghost use Rattle.group_view.specs.declared.writer.Writing.TheVariants.{Writes};

use crate::group::Group;
use crate::link::Linked;
use crate::writer::{Writer, Writing};
use pvd_type::{BitSet, NoMemory, PvType};
use pvd_value::{PvValue, leaf};
use rec_fields::{FieldAnswer, leaf_action};
use rec_kinds::{Action, PutRefusal};
use std::alloc::Global;

impl Group {
    /// The actions of a put of a value with these marked leaves, each with the number of its record, in rising put order. A
    /// `scalar` is put where its `value` is marked, of an enum its `value.index`, and a `plain` where its leaf is; each `proc`
    /// with a put order processes its record, whatever is marked, also where that record refuses puts. All puts are checked
    /// in this order: the first that its record refuses is the answer. `NothingWritable` is the answer where there is no
    /// action. There is at most one for each member (QSRV manual, "Group PV definitions").
    pub fn actions(
        &self,
        alloc: Global,
        value: &PvValue,
        mask: &BitSet,
    ) -> Result<Vec<(u32, Action)>, FieldAnswer>
        requires { fits_of 16 (view value.now) (group_tree self.now) ≡ true }
        ensures actions { IfOk result (λ actions. actions_for self.now (view value.now) mask.now ≡ Ok actions.items) }
        ensures may { IfOk result (λ actions. (configs : List Config) → IsOver configs self.now → AllByRecursion (MayBeDoneBy configs) actions.items) }
        ensures few { IfOk result (λ actions. length actions.items ≤ 256) }
        ensures refusal { IfErr result (IsRefusal self.now (view value.now) mask.now) }
    {
        let actions = match actions_of(alloc, self.writers(), self.type_of(), value, mask) {
            Ok(actions) => actions,
            Err(answer) => return Err(answer),
        };
        if actions.is_empty() {
            return Err(FieldAnswer::Refused(PutRefusal::NothingWritable));
        }
        Ok(actions)
    }
}

/// The actions of writable members, or the first refusal among them.
fn actions_of(
    alloc: Global,
    writers: &[Writer],
    ty: &PvType,
    value: &PvValue,
    mask: &BitSet,
) -> Result<Vec<(u32, Action)>, FieldAnswer>
    requires fits { fits_of 16 (view value.now) ty.now ≡ true }
    requires leaves { AllByRecursion (λ w. IsWritten ty.now w.link w.writing) writers.now }
    ensures actions { IfOk result (λ actions. done_by_all ty.now (view value.now) mask.now writers.now ≡ Ok actions.items) }
    ensures may { IfOk result (λ actions. (configs : List Config) → AllByRecursion (λ w. IsLinkOf configs w.link) writers.now → AllByRecursion (MayBeDoneBy configs) actions.items) }
    ensures refusal { IfErr result (Refuses (done_by_all ty.now (view value.now) mask.now writers.now)) }
{
    let mut actions = Vec::new(alloc);
    for writer in writers {
        match action_of(alloc, writer, ty, value, mask) {
            Ok(action) => add_action(&mut actions, writer.link.rec(), action)?,
            Err(answer) => return Err(answer),
        }
    }
    Ok(actions)
}

/// Adds an action of a record, if there is one.
fn add_action(
    actions: &mut Vec<(u32, Action)>,
    rec: u32,
    action: Option<Action>,
) -> Result<(), NoMemory>
    ensures { OnOk result (actions.new.items ≡ actions.old.items ++ listed rec action) }
{
    if let Some(action) = action {
        actions.push((rec, action))?;
    }
    Ok(())
}

/// The action of a writable member; none where its leaf isn't marked.
fn action_of(
    alloc: Global,
    writer: &Writer,
    ty: &PvType,
    value: &PvValue,
    mask: &BitSet,
) -> Result<Option<Action>, FieldAnswer>
    requires fits { fits_of 16 (view value.now) ty.now ≡ true }
    requires leaf { IsWritten ty.now writer.now.link writer.now.writing }
    ensures action { IfOk result (λ action. done_by ty.now (view value.now) mask.now writer.now.link writer.now.writing ≡ Ok (listed writer.now.link.rec action)) }
    ensures may { IfOk result (λ action. IfSome action (MayBeDone writer.now.link.config)) }
    ensures refusal { IfErr result (Refuses (done_by ty.now (view value.now) mask.now writer.now.link writer.now.writing)) }
{
    match writer.writing {
        Writing::Writes(number) => put_of(alloc, &writer.link, number, ty, value, mask),
        Writing::Processes => Ok(Some(Action::Process)),
    }
}

/// The put of a leaf to a record; none where the leaf isn't marked.
fn put_of(
    alloc: Global,
    link: &Linked,
    number: u32,
    ty: &PvType,
    value: &PvValue,
    mask: &BitSet,
) -> Result<Option<Action>, FieldAnswer>
    requires fits { fits_of 16 (view value.now) ty.now ≡ true }
    requires leaf { slice_get (numbered ty.now) number ≡ Some (plain_tree link.now.config) }
    ensures action { IfOk result (λ action. done_by ty.now (view value.now) mask.now link.now (Writes number) ≡ Ok (listed link.now.rec action)) }
    ensures may { IfOk result (λ action. IfSome action (MayBeDone link.now.config)) }
    ensures refusal { IfErr result (Refuses (done_by ty.now (view value.now) mask.now link.now (Writes number))) }
{
    if !mask.contains(number) {
        return Ok(None);
    }
    let Some(leaf) = leaf(value, ty, number) else {
        return Ok(None);
    };
    match leaf_action(alloc, link.config(), leaf) {
        Ok(action) => Ok(Some(action)),
        Err(answer) => Err(answer),
    }
}
