// Groups of records.
ghost use Rattle.std.specs.Prelude.{◌≡◌, ◌≤◌, ◌<◌, ℕ, true, false, None, List, length, IfOk, IfErr, OnOk};
ghost use Rattle.std.specs.FinSet as set;
ghost use Rattle.std.specs.List.{AllByRecursion};
ghost use Rattle.pvd_value.specs.Fits.{fits_of};
ghost use Rattle.pvd_value.specs.Leaves.{leaf_at};
ghost use Rattle.pvd_value.specs.Merge.{merged};
ghost use Rattle.pvd_value.specs.View.{view};
ghost use Rattle.group_defs.specs.Sound.{IsGroup};
ghost use Rattle.group_view.specs.Faults.{group_fault, IsGroupFault, is_misplaced, is_doubled};
ghost use Rattle.group_view.specs.Groups.{group_of, IsLinkOf, IsOver, AreReady};
ghost use Rattle.group_view.specs.Leaves.{triggered, footprint, records_of};
ghost use Rattle.rec_kinds.specs.Configs.{Config};
ghost use Rattle.group_view.specs.Puts.{writers, IsWritten};
ghost use Rattle.group_view.specs.Seen.{configs_seen};
ghost use Rattle.group_view.specs.Types.{group_tree};
ghost use Rattle.group_view.specs.Views.{group_shown, IsReadyFor};

use crate::building::{checked, reaches_of};
use crate::entry::entries_of;
use crate::faults::{is_doubled, is_misplaced};
use crate::member::{Member, members_of};
use crate::parts::write_level;
use crate::reach::{Reach, own_leaves, records_of};
use crate::shapes::structure_of;
use crate::slots::{LEVELS, Named, slots_of};
use crate::views::values_of;
use crate::writer::{Writer, writers_of};
use group_defs::{GroupDef, GroupFault};
use pvd_type::{BitSet, Name, NoMemory, PvType};
use pvd_value::PvValue;
use rec_kinds::{Items, RecConfig, RecState};
use std::alloc::Global;
use std::collections::BTreeMap;
use std::marker::Model;
use std::sync::Arc;

/// A group of records as a channel: its type, what it shows of the states of all records, and what a put to it does (QSRV
/// manual, "Group PV definitions"). It shares the configurations of its records.
#[derive(Drop)]
pub struct Group {
    name: Name,
    id: Name,
    atomic: bool,
    members: Items<Member>,
    ty: PvType,
    // what stands in its structure, level by level in the order of the names
    slots: Vec<Named>,
    // its records in rising order
    records: Vec<u32>,
    // what each of them triggers
    reaches: BTreeMap<u32, Reach>,
    // the writable members in put order
    writers: Vec<Writer>,
    // what any other record triggers: nothing
    nothing: BitSet,
}

impl Model for Group {
    ghost use Rattle.std.specs.Prelude.{◌≡◌};
    ghost use Rattle.std.specs.BTreeMap.{get_by};
    ghost use Rattle.std.specs.FinSet as set;
    ghost use Rattle.std.specs.Ordering.{nat_cmp};
    ghost use Rattle.group_view.specs.Groups.{GroupData};
    ghost use Rattle.group_view.specs.Built.{IsBuilt};
    ghost use Rattle.rec_kinds.specs.Configs.{Config};
    ghost use Rattle.group_view.specs.Puts.{writers, IsWritten};
    ghost use Rattle.group_view.specs.Seen.{slots_seen};

    ghost Value = { GroupData };

    ghost view = { λ g. record { name = g.name; id = g.id; atomic = g.atomic; members = g.members } };

    ghost invariant = { λ g. IsBuilt (record { name = g.name; id = g.id; atomic = g.atomic; members = g.members }) g.ty (slots_seen g.slots.items) g.records.items (λ rec. get_by (nat_cmp rec) g.reaches) g.writers.items × (g.nothing ≡ set.empty) };
}

impl Group {
    /// The group of a definition, over records that are so configured. The first fault of these is answered:
    /// `BadMember`, a member stands below one that is no `structure`; `SameMember`, a member other than a `proc` stands at or
    /// below the alarm or the time stamp that the empty name places at the top; `Shape`, the members make no type. The first two name the group.
    pub fn build(
        alloc: Global,
        def: GroupDef,
        configs: &[Arc<RecConfig>],
    ) -> Result<Group, GroupFault>
        requires { IsGroup (length configs.now) def }
        ensures group { IfOk result (λ g. g ≡ group_of (configs_seen configs.now) def) }
        ensures faultless { IfOk result (λ g. group_fault g ≡ None) }
        ensures over { IfOk result (IsOver (configs_seen configs.now)) }
        ensures fault { IfErr result (IsGroupFault (group_of (configs_seen configs.now) def)) }
    {
        let GroupDef {
            name,
            id,
            atomic,
            members,
        } = def;
        let members = members_of(alloc, members.into_vec(), configs)?;
        if is_misplaced(alloc, &members)? {
            return Err(GroupFault::BadMember(name));
        }
        if is_doubled(&members) {
            return Err(GroupFault::SameMember(name));
        }
        Group::of_members(alloc, name, id, atomic, members)
    }

    /// The group of these members, none of which stands at a place of another.
    fn of_members(
        alloc: Global,
        name: Name,
        id: Name,
        atomic: bool,
        members: Vec<Member>,
    ) -> Result<Group, GroupFault>
        requires few { length members.items ≤ 256 }
        requires within { AllByRecursion (λ m. AllByRecursion (λ n. n < length members.items) m.def.trigger) members.items }
        requires placed { is_misplaced members.items ≡ false }
        requires single { is_doubled members.items ≡ false }
        ensures group { IfOk result (λ g. g ≡ record { name = name; id = id; atomic = atomic; members = members.items }) }
        ensures faultless { IfOk result (λ g. group_fault g ≡ None) }
        ensures fault { IfErr result (IsGroupFault (record { name = name; id = id; atomic = atomic; members = members.items })) }
    {
        let slots = slots_of(alloc, entries_of(alloc, &members)?, LEVELS)?;
        let mut shown = Vec::new(alloc);
        let shape = structure_of(&id, &slots, &mut shown, alloc)?;
        let ty = match checked(alloc, shape) {
            Ok(ty) => ty,
            Err(fault) => return Err(fault),
        };
        let own = own_leaves(alloc, &shown, members.len())?;
        let records = records_of(alloc, &members)?;
        let reaches = reaches_of(alloc, &members, &own, &records)?;
        let writers = writers_of(alloc, &members, &own)?;
        Ok(Group {
            name,
            id,
            atomic,
            members: Items::from_vec(members),
            ty,
            slots,
            records,
            reaches,
            writers,
            nothing: BitSet::new(alloc),
        })
    }

    /// The name.
    pub fn name(&self) -> &str
        ensures { result.now ≡ self.now.name }
    {
        self.name.as_str()
    }

    /// Whether gets and puts are atomic unless a request says otherwise.
    pub fn is_atomic(&self) -> bool
        ensures { result ≡ self.now.atomic }
    {
        self.atomic
    }

    /// The type: a structure with the group's id, in which each level is sorted by the bytes of the names.
    pub fn type_of(&self) -> &PvType
        ensures { result.now ≡ group_tree self.now }
    {
        &self.ty
    }

    /// What the group shows where the records have these states. It fits [`Group::type_of`].
    pub fn view(&self, alloc: Global, states: &[RecState]) -> Result<PvValue, NoMemory>
        requires { AreReady states.now self.now }
        ensures shown { IfOk result (λ v. view v ≡ group_shown self.now states.now) }
        ensures fits { IfOk result (λ v. fits_of 16 (view v) (group_tree self.now) ≡ true) }
    {
        Ok(PvValue::Struct(values_of(&self.slots, states, alloc)?))
    }

    /// Writes the leaves of a mask, as the group shows them where the records have these states, into a value that the caller
    /// keeps. Structures without a marked leaf are passed over, and only the records are read that are shown under a number of
    /// the mask. Where memory runs out, some of the marked leaves may be written; the others are as they were.
    pub fn view_into(
        &self,
        alloc: Global,
        states: &[RecState],
        mask: &BitSet,
        value: &mut PvValue,
    ) -> Result<(), NoMemory>
        requires fits { fits_of 16 (view value.old) (group_tree self.now) ≡ true }
        requires ready { IsReadyFor mask.now states.now self.now }
        ensures shown { OnOk result (view value.new ≡ merged (set.contains mask.now) 0 (group_tree self.now) (view value.old) (group_shown self.now states.now)) }
        ensures kept { (k : ℕ) → set.contains mask.now k ≡ false → leaf_at k (group_tree self.now) (view value.new) ≡ leaf_at k (group_tree self.now) (view value.old) }
        ensures still { fits_of 16 (view value.new) (group_tree self.now) ≡ true }
    {
        write_level(&self.slots, self.ty.sizes(), 0, mask, states, value, alloc)
    }

    /// The writable members in put order.
    pub(crate) fn writers(&self) -> &[Writer]
        ensures writers { result.now ≡ writers self.now }
        ensures leaves { AllByRecursion (λ w. IsWritten (group_tree self.now) w.link w.writing) result.now }
        ensures over { (configs : List Config) → IsOver configs self.now → AllByRecursion (λ w. IsLinkOf configs w.link) result.now }
        ensures few { length result.now ≤ 256 }
    {
        &self.writers
    }

    /// The records of the group, in rising order, each once.
    pub fn members(&self) -> &[u32]
        ensures { result.now ≡ records_of self.now.members }
    {
        &self.records
    }

    /// The leaves that a record triggers, none where it is no record of the group.
    pub fn triggered(&self, rec: u32) -> &BitSet
        ensures { result.now ≡ triggered self.now rec }
    {
        match self.reaches.get(&rec) {
            Some(reach) => &reach.triggered,
            None => &self.nothing,
        }
    }

    /// The records that these leaves read, in rising order, each once.
    pub fn footprint(&self, rec: u32) -> &[u32]
        ensures { result.now ≡ footprint self.now rec }
    {
        match self.reaches.get(&rec) {
            Some(reach) => reach.footprint.as_slice(),
            None => &[],
        }
    }
}
