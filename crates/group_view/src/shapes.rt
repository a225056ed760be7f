// The type of a group, and which member shows which of its leaves.
ghost use Rattle.std.specs.Prelude.{◌≡◌, ◌++◌, map, IfOk, OnOk};
ghost use Rattle.pvd_type.specs.Numbers.{numbered, numbered_fields};
ghost use Rattle.pvd_type.specs.View.{shape_view, members_view};
ghost use Rattle.group_view.specs.Leaves.{sources, sources_among, member_in, shown_at};
ghost use Rattle.group_view.specs.Seen.{branch_seen, slots_seen};
ghost use Rattle.group_view.specs.Slots.{level};
ghost use Rattle.group_view.specs.Types.{slot_tree, slot_fields};

use crate::slots::{Branch, Named};
use pvd_type::{Member, Name, NoMemory, Node, Shape};
use std::alloc::Global;

/// The type of a group with this id. Adds, under each of its numbers, which member shows the leaf.
#[cycle(shapes)]
pub(crate) fn structure_of(
    id: &Name,
    slots: &[Named],
    shown: &mut Vec<Option<u32>>,
    alloc: Global,
) -> Result<Shape, NoMemory>
    ensures shape { IfOk result (λ shape. shape_view shape ≡ slot_tree (level id.now (slots_seen slots.now))) }
    ensures shown { OnOk result (shown.new.items ≡ shown.old.items ++ map member_in (sources (level id.now (slots_seen slots.now)))) }
{
    let id = id.clone_in(alloc)?;
    shown.push(None)?;
    let members = members_of(slots, shown, alloc)?;
    Ok(Shape::Struct(Node::of(alloc, id, members)?))
}

/// The type of what stands under a name. Adds, under each of its numbers, which member shows the leaf.
#[cycle(shapes)]
fn shape_of(branch: &Branch, shown: &mut Vec<Option<u32>>, alloc: Global) -> Result<Shape, NoMemory>
    ensures shape { IfOk result (λ shape. shape_view shape ≡ slot_tree (branch_seen branch.now)) }
    ensures shown { OnOk result (shown.new.items ≡ shown.old.items ++ map member_in (sources (branch_seen branch.now))) }
{
    match branch {
        Branch::Shows(source) => {
            let shape = source.ty().shape();
            add_nodes(shape, source.member(), shown)?;
            shape.clone_in(alloc)
        }
        Branch::Level(id, slots) => structure_of(id, slots, shown, alloc),
    }
}

/// The members that slots make. Adds, under each of their numbers, which member of the group shows the leaf.
#[cycle(shapes)]
fn members_of(
    slots: &[Named],
    shown: &mut Vec<Option<u32>>,
    alloc: Global,
) -> Result<Vec<Member>, NoMemory>
    ensures members { IfOk result (λ members. members_view members.items ≡ slot_fields (slots_seen slots.now)) }
    ensures shown { OnOk result (shown.new.items ≡ shown.old.items ++ map member_in (sources_among (slots_seen slots.now))) }
{
    let mut members = Vec::with_capacity(alloc, slots.len())?;
    for named in slots {
        let shape = shape_of(&named.branch, shown, alloc)?;
        let name = named.name.clone_in(alloc)?;
        members.push(Member { name, shape })?;
    }
    Ok(members)
}

/// Adds that a member shows the leaves of a node, under its numbers.
#[cycle(nodes)]
fn add_nodes(shape: &Shape, member: u32, shown: &mut Vec<Option<u32>>) -> Result<(), NoMemory>
    ensures { OnOk result (shown.new.items ≡ shown.old.items ++ map (shown_at member) (numbered (shape_view shape.now))) }
{
    match shape {
        Shape::Struct(node) => {
            shown.push(None)?;
            add_members(&node.members, member, shown)
        }
        _ => {
            shown.push(Some(member))?;
            Ok(())
        }
    }
}

#[cycle(nodes)]
fn add_members(
    members: &[Member],
    member: u32,
    shown: &mut Vec<Option<u32>>,
) -> Result<(), NoMemory>
    ensures { OnOk result (shown.new.items ≡ shown.old.items ++ map (shown_at member) (numbered_fields (members_view members.now))) }
{
    for part in members {
        add_nodes(&part.shape, member, shown)?;
    }
    Ok(())
}
