// The groups of a site, by number, by name and by record.
ghost use Rattle.std.specs.Prelude.{◌≡◌, ◌<◌, ◌≤◌, ◌++◌, ◌∷◌, [], false, IfOk, IfErr, OnOk, Ok, Some, length, map, replicate, slice_get, string_bytes};
ghost use Rattle.std.specs.List.{AllByRecursion, IsDistinct};
ghost use Rattle.std.specs.Str.{bytes_eq};
ghost use Rattle.desk_api.specs.Grouping as grouping;
ghost use Rattle.desk_api.specs.Loading.{built_over, groups_of};
ghost use Rattle.desk_api.specs.Sites.{configs_of, first_named, group_names_from};
ghost use Rattle.group_defs.specs.Checking.{defined};
ghost use Rattle.group_defs.specs.Sound.{AreGroups};
ghost use Rattle.group_view.specs.Seen.{configs_seen};

use crate::channel::{Channel, ChannelKind};
use crate::fault::SiteFault;
use group_defs::{GroupDef, GroupFault, read_groups};
use group_view::Group;
use indexmap::IndexSet;
use pvd_type::NoMemory;
use rec_kinds::{RecConfig, RecText};
use std::alloc::Global;
use std::marker::Model;
use std::sync::Arc;

/// The fault of a site whose groups have this fault.
fn ungrouped(fault: GroupFault) -> SiteFault
    ensures { result ≡ grouping.ungrouped fault }
{
    match fault {
        GroupFault::NoMemory => SiteFault::NoMemory,
        fault => SiteFault::Group(fault),
    }
}

/// The groups that the records' texts define.
fn read(alloc: Global, texts: &[RecText]) -> Result<Vec<GroupDef>, SiteFault>
    ensures ok { IfOk result (λ defs. defined texts.now ≡ Ok defs.items) }
    ensures sound { IfOk result (λ defs. AreGroups (length texts.now) defs.items) }
    ensures fault { IfErr result (grouping.IsFaultOfGroups texts.now) }
{
    match read_groups(alloc, texts) {
        Ok(defs) => Ok(defs),
        Err(fault) => Err(ungrouped(fault)),
    }
}

/// The groups of these definitions, up to the first that can't be built.
fn build_each(
    alloc: Global,
    defs: Vec<GroupDef>,
    configs: &[Arc<RecConfig>],
) -> Result<Vec<Group>, SiteFault>
    requires { AreGroups (length configs.now) defs.items }
    ensures ok { IfOk result (λ groups. built_over (configs_seen configs.now) defs.items ≡ Ok groups.items) }
    ensures fault { IfErr result (grouping.IsFaultOver (configs_seen configs.now) defs.items) }
{
    let mut groups = Vec::with_capacity(alloc, defs.len())?;
    for def in defs {
        match Group::build(alloc, def, configs) {
            Ok(group) => groups.push(group)?,
            Err(fault) => return Err(ungrouped(fault)),
        }
    }
    Ok(groups)
}

/// Groups, numbered from 0 in the order in which their definitions are first named.
#[derive(Drop)]
pub(crate) struct Groups {
    groups: Vec<Group>,
    /// Their names, in the same order.
    names: IndexSet<String>,
    /// For each record, the numbers of the groups that are about it.
    of_record: Vec<Vec<u32>>,
}

impl Model for Groups {
    ghost use Rattle.std.specs.Prelude.{◌≡◌, ◌≤◌, List, length, map, string_bytes};
    ghost use Rattle.desk_api.specs.Grouping.{AreNoted};
    ghost use Rattle.group_view.specs.Groups.{GroupData};

    ghost Value = { List GroupData };

    ghost view = { λ g. g.groups.items };

    ghost invariant = { λ g. (length g.groups.items ≤ 1024) × (map string_bytes g.names.keys ≡ map (λ x. x.name) g.groups.items) × AreNoted (map (λ v. v.items) g.of_record.items) g.groups.items };
}

/// Adds a name that isn't there.
fn add_name(alloc: Global, names: &mut IndexSet<String>, name: &str) -> Result<(), NoMemory>
    requires { grouping.is_one_of (map string_bytes names.old.keys) name.now ≡ false }
    ensures { OnOk result (map string_bytes names.new.keys ≡ map string_bytes names.old.keys ++ name.now ∷ []) }
{
    let name = String::from_str(alloc, name)?;
    names.insert(name)?;
    Ok(())
}

/// The names of groups.
fn names_of(alloc: Global, groups: &[Group]) -> Result<IndexSet<String>, NoMemory>
    requires { IsDistinct bytes_eq (map (λ g. g.name) groups.now) }
    ensures { IfOk result (λ names. map string_bytes names.keys ≡ map (λ g. g.name) groups.now) }
{
    let mut names = IndexSet::new(alloc);
    for group in groups {
        add_name(alloc, &mut names, group.name())?;
    }
    Ok(names)
}

/// So many empty lists.
fn empty_lists(alloc: Global, count: usize) -> Result<Vec<Vec<u32>>, NoMemory>
    ensures { IfOk result (λ lists. map (λ v. v.items) lists.items ≡ replicate count []) }
{
    let mut lists = Vec::with_capacity(alloc, count)?;
    for _rec in 0..count {
        lists.push(Vec::new(alloc))?;
    }
    Ok(lists)
}

/// Notes the number of a group for a record.
fn note(index: &mut Vec<Vec<u32>>, rec: usize, number: u32) -> Result<(), NoMemory>
    requires { rec < length index.old.items }
    ensures noted { OnOk result (grouping.IsNotedFor (rec ∷ []) number (map (λ v. v.items) index.old.items) (map (λ v. v.items) index.new.items)) }
    ensures count { length index.new.items ≡ length index.old.items }
{
    index[rec].push(number)?;
    Ok(())
}

/// Notes the number of a group for each of its records.
fn note_each(index: &mut Vec<Vec<u32>>, recs: &[u32], number: u32) -> Result<(), NoMemory>
    requires { AllByRecursion (λ rec. rec < length index.old.items) recs.now }
    ensures noted { OnOk result (grouping.IsNotedFor recs.now number (map (λ v. v.items) index.old.items) (map (λ v. v.items) index.new.items)) }
    ensures count { length index.new.items ≡ length index.old.items }
{
    for rec in recs {
        note(index, *rec as usize, number)?;
    }
    Ok(())
}

/// For each of so many records, the numbers of the groups that are about it.
fn index_of(alloc: Global, groups: &[Group], count: usize) -> Result<Vec<Vec<u32>>, NoMemory>
    requires few { length groups.now ≤ 1024 }
    requires within { grouping.AreBelow count groups.now }
    ensures { IfOk result (λ index. grouping.AreNoted (map (λ v. v.items) index.items) groups.now) }
{
    let mut index = empty_lists(alloc, count)?;
    for number in 0..groups.len() {
        note_each(&mut index, groups[number].members(), number as u32)?;
    }
    Ok(index)
}

impl Groups {
    /// No groups.
    pub(crate) fn none(alloc: Global) -> Groups
        ensures { result ≡ [] }
    {
        Groups {
            groups: Vec::new(alloc),
            names: IndexSet::new(alloc),
            of_record: Vec::new(alloc),
        }
    }

    /// The groups that the records' texts define, built over the records that are so configured.
    pub(crate) fn of_texts(
        alloc: Global,
        texts: &[RecText],
        configs: &[Arc<RecConfig>],
    ) -> Result<Groups, SiteFault>
        requires { configs_seen configs.now ≡ configs_of texts.now }
        ensures ok { IfOk result (λ groups. groups_of texts.now ≡ Ok groups) }
        ensures fault { IfErr result (grouping.IsFaultOfGroups texts.now) }
    {
        let defs = read(alloc, texts)?;
        let groups = build_each(alloc, defs, configs)?;
        Ok(Groups::of_built(alloc, groups, texts.len())?)
    }

    /// Groups that are built, over so many records.
    fn of_built(alloc: Global, groups: Vec<Group>, count: usize) -> Result<Groups, NoMemory>
        requires few { length groups.items ≤ 1024 }
        requires distinct { IsDistinct bytes_eq (map (λ g. g.name) groups.items) }
        requires within { grouping.AreBelow count groups.items }
        ensures { IfOk result (λ g. g ≡ groups.items) }
    {
        let names = names_of(alloc, groups.as_slice())?;
        let of_record = index_of(alloc, groups.as_slice(), count)?;
        Ok(Groups {
            groups,
            names,
            of_record,
        })
    }

    /// The number of groups.
    pub(crate) fn len(&self) -> usize
        ensures count { result ≡ length self.now }
        ensures few { result ≤ 1024 }
    {
        self.groups.len()
    }

    /// A group, by its number.
    pub(crate) fn at(&self, number: usize) -> &Group
        requires { number < length self.now }
        ensures { slice_get self.now number ≡ Some result.now }
    {
        &self.groups[number]
    }

    /// The channel of the group of this name. None exactly where no group has it.
    pub(crate) fn find(&self, name: &str) -> Option<Channel>
        ensures { result ≡ first_named name.now (group_names_from 0 self.now) }
    {
        match self.names.get_index_of(name) {
            Some(number) => Some(Channel {
                kind: ChannelKind::Group,
                number: number as u32,
            }),
            None => None,
        }
    }

    /// Adds the records that groups read for the leaves that they post when this record changes.
    pub(crate) fn add_footprints(&self, rec: u32, found: &mut Vec<u32>) -> Result<(), NoMemory>
        ensures { OnOk result (grouping.AreRead self.now rec found.old.items found.new.items) }
    {
        let Some(numbers) = self.of_record.get(rec as usize) else {
            return Ok(());
        };
        for number in numbers {
            let read = self.at(*number as usize).footprint(rec);
            found.extend_from_slice(read)?;
        }
        Ok(())
    }
}
