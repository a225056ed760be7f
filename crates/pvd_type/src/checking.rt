ghost use Rattle.std.specs.Prelude.{◌≡◌, ◌≤◌, IfOk, IfErr, OnOk, Some, None, []};
ghost use Rattle.pvd_type.specs.View.{shape_view, node_view, members_view, names_of};
ghost use Rattle.pvd_type.specs.Check.{below, visits, fault_at, contains, Checks};

use crate::name::Name;
use crate::shape::{Member, Node, Shape};
use crate::siblings::{Siblings, is_name};
use std::alloc::Global;

/// Why a shape is no type.
#[derive(Clone, Copy, Debug, PartialEq, Eq)]
pub enum TypeFault {
    /// A node stands on level 33, the root being on level 1.
    TooDeep,
    /// There are more than 4,096 nodes.
    TooMany,
    /// A member's name is empty.
    EmptyName,
    /// A member has the name of one before it in the same node.
    SameName,
    /// The memory that the check needed couldn't be had.
    NoMemory,
}

/// Checks one node that has a name, with `seen` nodes before it. `twice` says whether a member before it has the name.
fn check_label(
    level: u32,
    seen: u32,
    name: &Name,
    twice: bool,
    before: &[Member],
) -> Result<(), TypeFault>
    requires { twice ≡ contains name.now (names_of before.now) }
    ensures ok { OnOk result (fault_at seen (record { level = level; label = Some (record { name = name.now; before = names_of before.now }) }) ≡ None) }
    ensures fault { IfErr result (λ f. fault_at seen (record { level = level; label = Some (record { name = name.now; before = names_of before.now }) }) ≡ Some f) }
{
    if level > 32 {
        return Err(TypeFault::TooDeep);
    }
    if seen > 4095 {
        return Err(TypeFault::TooMany);
    }
    if name.as_str().is_empty() {
        return Err(TypeFault::EmptyName);
    }
    if twice {
        return Err(TypeFault::SameName);
    }
    Ok(())
}

/// Whether a member has this name.
pub fn is_among(name: &Name, before: &[Member]) -> bool
    ensures { result ≡ contains name.now (names_of before.now) }
{
    is_name(name.as_str().as_bytes(), before)
}

/// Checks the nodes below a node on this level, with `seen` nodes before them, and says how many nodes there are with them.
#[cycle(check)]
pub fn check_below(shape: &Shape, level: u32, seen: u32) -> Result<u32, TypeFault>
    requires level { level ≤ 32 }
    requires seen { seen ≤ 4096 }
    ensures checks { Checks seen (below level (shape_view shape.now)) result }
    ensures few { IfOk result (λ n. n ≤ 4096) }
{
    match shape {
        Shape::Struct(node) => check_node(node, level + 1, seen),
        Shape::Union(node) => check_node(node, level + 1, seen),
        Shape::StructList(node) => check_node(node, level + 1, seen),
        Shape::UnionList(node) => check_node(node, level + 1, seen),
        _ => Ok(seen),
    }
}

#[cycle(check)]
fn check_node(node: &Node, level: u32, seen: u32) -> Result<u32, TypeFault>
    requires seen { seen ≤ 4096 }
    ensures checks { Checks seen (visits level [] (node_view node.now).1) result }
    ensures few { IfOk result (λ n. n ≤ 4096) }
{
    check_members(&node.members, *node.members.allocator(), level, seen)
}

#[cycle(check)]
fn check_members(members: &[Member], alloc: Global, level: u32, seen: u32) -> Result<u32, TypeFault>
    requires seen { seen ≤ 4096 }
    ensures checks { Checks seen (visits level [] (members_view members.now)) result }
    ensures few { IfOk result (λ n. n ≤ 4096) }
{
    let mut count = seen;
    let mut siblings = Siblings::new(alloc);
    for i in 0..members.len() {
        let member = &members[i];
        let before = &members[..i];
        let twice = siblings.add(member.name.as_str().as_bytes(), before);
        check_label(level, count, &member.name, twice, before)?;
        count = check_below(&member.shape, level, count + 1)?;
    }
    Ok(count)
}
