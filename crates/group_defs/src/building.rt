ghost use Rattle.std.specs.Prelude.{◌≡◌, ◌<◌, ◌≤◌, ◌^◌, length, map, IfOk, is_some};
ghost use Rattle.std.specs.List.{list_any, AllByRecursion, IsDistinct};
ghost use Rattle.std.specs.Str.{bytes_eq};
ghost use Rattle.group_defs.specs.Named.{names_seen};
ghost use Rattle.group_defs.specs.Checking.{names_of, has_trigger, triggered, member_def, member_defs, group_def};

use crate::checking::names_of;
use crate::def::{GroupDef, MemberDef};
use crate::listed::{Group, Member};
use crate::triggers::{numbers_in, trigger_of};
use indexmap::IndexSet;
use pvd_type::NoMemory;
use rec_kinds::Items;
use std::alloc::Global;

/// Whether a member has a trigger.
fn has_trigger(members: &[Member]) -> bool
    ensures { result ≡ has_trigger members.now }
{
    members.iter().any(|member| member.text.trigger.is_some())
}

/// The numbers of the members that the member of this number triggers, where some member has a trigger or none has.
fn triggered(
    alloc: Global,
    names: &IndexSet<&[u8]>,
    some: bool,
    number: u32,
    member: &Member,
) -> Result<Vec<u32>, NoMemory>
    requires { length (names_seen names.now) < 2 ^ 32 }
    ensures { IfOk result (λ numbers. numbers.items
        ≡ triggered (names_seen names.now) some number member.now.text.trigger) }
{
    match &member.text.trigger {
        Some(text) => {
            let trigger = trigger_of(alloc, text.as_str())?;
            numbers_in(alloc, names, &trigger)
        }
        None => {
            let mut numbers = Vec::new(alloc);
            if !some {
                numbers.push(number)?;
            }
            Ok(numbers)
        }
    }
}

/// The definition of the member of this number.
fn member_def(
    alloc: Global,
    names: &IndexSet<&[u8]>,
    some: bool,
    number: u32,
    member: &Member,
) -> Result<MemberDef, NoMemory>
    requires { length (names_seen names.now) < 2 ^ 32 }
    ensures { IfOk result (λ def. def ≡ member_def (names_seen names.now) some number member.now) }
{
    Ok(MemberDef {
        name: member.name.clone_in(alloc)?,
        kind: member.text.kind,
        rec: member.text.rec,
        id: member.text.id.clone_in(alloc)?,
        order: member.text.order,
        trigger: Items::from_vec(triggered(alloc, names, some, number, member)?),
    })
}

/// The definitions of members with these names, where some member has a trigger or none has.
#[tactic(auto, using(crate::proofs::Passing::placed_more))]
fn numbered_defs(
    alloc: Global,
    names: &IndexSet<&[u8]>,
    some: bool,
    members: &[Member],
) -> Result<Vec<MemberDef>, NoMemory>
    requires names_fit { length (names_seen names.now) < 2 ^ 32 }
    requires members_fit { length members.now < 2 ^ 32 }
    ensures { IfOk result (λ defs. defs.items ≡ member_defs (names_seen names.now) some members.now) }
{
    let mut defs = Vec::new(alloc);
    for (number, member) in members.iter().enumerate() {
        defs.push(member_def(alloc, names, some, number as u32, member)?)?;
    }
    Ok(defs)
}

/// The definitions of members.
fn member_defs(alloc: Global, members: &[Member]) -> Result<Vec<MemberDef>, NoMemory>
    requires fits { length members.now < 2 ^ 32 }
    requires distinct { IsDistinct bytes_eq (names_of members.now) }
    ensures { IfOk result (λ defs. defs.items
        ≡ member_defs (names_of members.now) (has_trigger members.now) members.now) }
{
    let names = names_of(alloc, members)?;
    let some = has_trigger(members);
    numbered_defs(alloc, &names, some, members)
}

/// The definition of a group.
fn group_def(alloc: Global, group: &Group) -> Result<GroupDef, NoMemory>
    requires fits { length group.now.members < 2 ^ 32 }
    requires distinct { IsDistinct bytes_eq (names_of group.now.members) }
    ensures { IfOk result (λ def. def ≡ group_def group.now) }
{
    Ok(GroupDef {
        name: group.name.clone_in(alloc)?,
        id: group.id.clone_in(alloc)?,
        atomic: group.atomic,
        members: Items::from_vec(member_defs(alloc, group.members.as_slice())?),
    })
}

/// The definitions of groups.
#[tactic(auto, using(crate::proofs::Passing::mapped_more))]
pub(crate) fn group_defs(alloc: Global, groups: &[Group]) -> Result<Vec<GroupDef>, NoMemory>
    requires few { AllByRecursion (λ g. length g.members ≤ 256) groups.now }
    requires distinct { AllByRecursion (λ g. IsDistinct bytes_eq (names_of g.members)) groups.now }
    ensures { IfOk result (λ defs. defs.items ≡ map group_def groups.now) }
{
    let mut defs = Vec::new(alloc);
    for group in groups {
        defs.push(group_def(alloc, group)?)?;
    }
    Ok(defs)
}
