ghost use Rattle.std.specs.Prelude.{◌≡◌, ◌∷◌, ◌≤◌, ◌<◌, ◌+◌, ◌-◌, ◌++◌, [], IfOk, OnOk, Some};
ghost use Rattle.pvd_type.specs.Tree.{node};
ghost use Rattle.pvd_type.specs.View.{shape_view, member_view, members_view, names_of};
ghost use Rattle.pvd_type.specs.Check.{below, first_fault, label_fault, IsType};
ghost use Rattle.pvd_type.specs.Numbers.{nodes};
ghost use Rattle.pvd_type.specs.Siblings.{knows};
ghost use Rattle.pvd_desc.specs.declared.fault.DescCause.TheVariants.{UnknownCode};
ghost use Rattle.pvd_desc.specs.Types.{laid};
ghost use Rattle.pvd_desc.specs.Code.{element};
ghost use Rattle.pvd_desc.specs.Reading.{Gives, here_at, unless, wants, cached_at, members_at, coded_element_at, element_of, element_at, coded_at, parts_at, member_with, fields_with, fields_below, node_at, desc_at};

use crate::chain::{chain_at, defined, known};
use crate::code::{Code, Element, is_element, list_tree, takes};
use crate::fault::{DescCause, DescStop};
use crate::items::{bound_at, cached, code_at, first_byte, id_at, member_count_at, null, str_at};
use crate::registry::{Definitions, Registry};
use crate::standing::stand_below;
use pva_wire::Order;
use pvd_type::{Budget, Extent, Member, Name, NoMemory, Node, PvType, Shape, Siblings, TypeFault};
use std::alloc::Global;

/// How many bytes of memory any read may take, whatever few bytes it has.
pub const READ_ROOM: u64 = 16_777_216;

// What a description costs is counted before it is taken, but for the nodes themselves, which are at most 4,096 and are
// counted once they were read.

/// How many bytes a node of a type counts for: its place in the list of the node above it, its name, and
/// the time to test it.
const NODE: u64 = 256;

/// How many bytes a structure or a union that is described counts for beside that: a count of its owners,
/// the lists of its id and its members, and the time to make them and to let them go.
const BRANCH: u64 = 192;

/// How many bytes a description counts for that is a type under an id: the time to share it.
const SHARE: u64 = 32;

/// Tests a node on this level that has `seen` nodes before it and whose name has the fault given; its
/// code had `left` bytes from it on.
fn check_here(level: u32, seen: u32, named: Option<TypeFault>, left: usize) -> Result<(), DescStop>
    ensures value { Gives (λ u. u) result (here_at level seen named left) }
    ensures room { OnOk result ((level ≤ 32) × (seen ≤ 4095)) }
{
    if level > 32 {
        return Err(DescStop::Fault(DescCause::Shape(TypeFault::TooDeep), left));
    }
    if seen > 4095 {
        return Err(DescStop::Fault(DescCause::Shape(TypeFault::TooMany), left));
    }
    match named {
        None => Ok(()),
        Some(fault) => Err(DescStop::Fault(DescCause::Shape(fault), left)),
    }
}

/// The fault of a member's name, which goes to the names of the siblings before it.
fn named<'a>(name: &'a str, before: &[Member], siblings: &mut Siblings<'a>) -> Option<TypeFault>
    requires { knows siblings.old (names_of before.now) }
    ensures fault { result ≡ label_fault (Some (record { name = name.now; before = names_of before.now })) }
    ensures known { knows siblings.new (names_of before.now ++ name.now ∷ []) }
{
    let twice = siblings.add(name.as_bytes(), before);
    if name.is_empty() {
        return Some(TypeFault::EmptyName);
    }
    if twice {
        return Some(TypeFault::SameName);
    }
    None
}

/// The type under the id that stands here. Its code had `left` bytes from it on. Where an element of a
/// list is wanted, a type of another kind is UnknownCode of the byte `first`, which is the first one of
/// the element and had `first_left` bytes from it on.
#[tactic(auto, unfolding(crate::specs::Reading::cached_at))]
fn cached_at<'a>(
    alloc: Global,
    order: Order,
    base: &Registry,
    changed: &Definitions,
    wanted: Option<Element>,
    first: u8,
    first_left: usize,
    level: u32,
    seen: u32,
    left: usize,
    bytes: &'a [u8],
) -> Result<(Shape, u32, &'a [u8]), DescStop>
    requires level { level ≤ 32 }
    requires seen { seen ≤ 4095 }
    ensures value { Gives (λ x. (shape_view x.0, x.1, x.2.now, laid base.now changed.now)) result (cached_at order wanted (UnknownCode first, first_left) level seen left (laid base.now changed.now) bytes.now) }
    ensures few { IfOk result (λ x. x.1 ≤ 4096) }
{
    let (id, rest) = id_at(order, bytes)?;
    let Some(ty) = known(base, changed, id) else {
        return Err(DescStop::Fault(DescCause::UnknownId(id), bytes.len()));
    };
    let shape = ty.shape();
    if !wants(wanted, shape) {
        return Err(DescStop::Fault(DescCause::UnknownCode(first), first_left));
    }
    let seen = below_at(shape, level, seen, left)?;
    Ok((shape.clone_in(alloc)?, seen, rest))
}

/// Whether a cached type may stand where it was found.
fn wants(wanted: Option<Element>, shape: &Shape) -> bool
    ensures { result ≡ wants wanted (shape_view shape.now) }
{
    match wanted {
        None => true,
        Some(element) => is_element(element, shape),
    }
}

/// Counts the nodes of a cached type, and tests the levels of those below its root.
fn below_at(shape: &Shape, level: u32, seen: u32, left: usize) -> Result<u32, DescStop>
    requires level { level ≤ 32 }
    requires seen { seen ≤ 4095 }
    requires checked { IsType (shape_view shape.now) }
    ensures value { Gives (λ n. n) result (unless (first_fault (seen + 1) (below level (shape_view shape.now))) left (seen + nodes (shape_view shape.now))) }
    ensures few { IfOk result (λ n. n ≤ 4096) }
{
    match stand_below(shape, level, seen + 1) {
        Ok(count) => Ok(count),
        Err(fault) => Err(DescStop::Fault(DescCause::Shape(fault), left)),
    }
}

/// An empty list with places for so many members, or for as many as a type may have after `seen` nodes.
fn list_for(alloc: Global, count: u32, seen: u32) -> Result<Vec<Member>, NoMemory>
    requires { seen ≤ 4096 }
    ensures { IfOk result (λ ms. ms.items ≡ []) }
{
    Ok(Vec::with_capacity(alloc, count.min(4096 - seen) as usize)?)
}

/// A structure or a union of this id and these members.
fn branch_of(
    alloc: Global,
    kind: Element,
    id: &str,
    members: Vec<Member>,
) -> Result<Shape, NoMemory>
    ensures { IfOk result (λ s. shape_view s ≡ node (element kind) id.now (members_view members.items)) }
{
    let id = Name::of(alloc, id)?;
    let node = Node::of(alloc, id, members)?;
    match kind {
        Element::Struct => Ok(Shape::Struct(node)),
        Element::Union => Ok(Shape::Union(node)),
    }
}

// The functions of the cycle below pass `room`, the 33 levels less that of the node, in place of the
// level: each step down takes one from it, so the recursion ends, and the last one finds no room.
// `seen` counts the nodes before this one; a node's own fault stands at its code byte.

/// What stands in a structure or a union after its code: the id, and as many members as the count says.
#[cycle(node)]
#[tactic(auto, unfolding(crate::specs::Reading::inside_at))]
fn branch_at<'a>(
    alloc: Global,
    order: Order,
    base: &Registry,
    changed: &mut Definitions,
    budget: &mut Budget,
    room: u32,
    kind: Element,
    seen: u32,
    bytes: &'a [u8],
) -> Result<(Shape, u32, &'a [u8]), DescStop>
    requires room { (0 < room) × (room ≤ 33) }
    requires seen { seen ≤ 4095 }
    ensures value { Gives (λ x. (shape_view x.0, x.1, x.2.now, laid base.now changed.new)) result (members_at order (33 - room) (fields_below order room) (element kind) seen (laid base.now changed.old) bytes.now) }
    ensures few { IfOk result (λ x. x.1 ≤ 4096) }
{
    budget.spend(BRANCH)?;
    let (id, rest) = str_at(order, bytes)?;
    let (count, rest) = member_count_at(order, rest)?;
    let (members, seen, rest) = fields_at(
        alloc,
        order,
        base,
        changed,
        budget,
        room - 1,
        count,
        seen + 1,
        rest,
    )?;
    Ok((branch_of(alloc, kind, id, members)?, seen, rest))
}

/// So many members, where `room` levels are left for what stands below them.
#[cycle(node)]
fn fields_at<'a>(
    alloc: Global,
    order: Order,
    base: &Registry,
    changed: &mut Definitions,
    budget: &mut Budget,
    room: u32,
    count: u32,
    seen: u32,
    bytes: &'a [u8],
) -> Result<(Vec<Member>, u32, &'a [u8]), DescStop>
    requires room { room < 33 }
    requires seen { seen ≤ 4096 }
    ensures value { Gives (λ x. (members_view x.0.items, x.1, x.2.now, laid base.now changed.new)) result (fields_with order (node_at order room) [] count seen (laid base.now changed.old) bytes.now) }
    ensures few { IfOk result (λ x. x.1 ≤ 4096) }
{
    let mut members = list_for(alloc, count, seen)?;
    let mut siblings = Siblings::new(alloc);
    let mut seen = seen;
    let mut rest = bytes;
    for _ in 0..count {
        let (member, more, after) = member_at(
            alloc,
            order,
            base,
            changed,
            budget,
            room,
            seen,
            &members,
            &mut siblings,
            rest,
        )?;
        members.push(member)?;
        seen = more;
        rest = after;
    }
    Ok((members, seen, rest))
}

/// A member that stands after the members `before` of its node, whose names are the siblings'.
#[cycle(node)]
#[tactic(auto, unfolding(crate::specs::Reading::member_with))]
fn member_at<'a>(
    alloc: Global,
    order: Order,
    base: &Registry,
    changed: &mut Definitions,
    budget: &mut Budget,
    room: u32,
    seen: u32,
    before: &[Member],
    siblings: &mut Siblings<'a>,
    bytes: &'a [u8],
) -> Result<(Member, u32, &'a [u8]), DescStop>
    requires room { room < 33 }
    requires seen { seen ≤ 4096 }
    requires known { knows siblings.old (names_of before.now) }
    ensures value { Gives (λ x. (member_view x.0, x.1, x.2.now, laid base.now changed.new)) result (member_with order (node_at order room) seen (names_of before.now) (laid base.now changed.old) bytes.now) }
    ensures few { IfOk result (λ x. x.1 ≤ 4096) }
    ensures known { IfOk result (λ x. knows siblings.new (names_of before.now ++ x.0.name ∷ [])) }
{
    let (text, rest) = str_at(order, bytes)?;
    let fault = named(text, before, siblings);
    let (shape, seen, rest) = node_at(
        alloc, order, base, changed, budget, room, seen, fault, rest,
    )?;
    let name = Name::of(alloc, text)?;
    Ok((Member { name, shape }, seen, rest))
}

/// A node that has `seen` nodes before it and whose name has the fault given, with the definitions that
/// stand before it.
#[cycle(node)]
#[tactic(auto, unfolding(crate::specs::Reading::node_on))]
fn node_at<'a>(
    alloc: Global,
    order: Order,
    base: &Registry,
    changed: &mut Definitions,
    budget: &mut Budget,
    room: u32,
    seen: u32,
    named: Option<TypeFault>,
    bytes: &'a [u8],
) -> Result<(Shape, u32, &'a [u8]), DescStop>
    requires room { room < 33 }
    requires seen { seen ≤ 4096 }
    ensures value { Gives (λ x. (shape_view x.0, x.1, x.2.now, laid base.now changed.new)) result (node_at order room seen named (laid base.now changed.old) bytes.now) }
    ensures few { IfOk result (λ x. x.1 ≤ 4096) }
{
    let (ids, rest) = chain_at(alloc, order, bytes)?;
    coded_at(
        alloc, order, base, changed, budget, room, &ids, seen, named, rest,
    )
}

/// A node from its code on, which is defined under the ids.
#[cycle(node)]
fn coded_at<'a>(
    alloc: Global,
    order: Order,
    base: &Registry,
    changed: &mut Definitions,
    budget: &mut Budget,
    room: u32,
    ids: &[u16],
    seen: u32,
    named: Option<TypeFault>,
    bytes: &'a [u8],
) -> Result<(Shape, u32, &'a [u8]), DescStop>
    requires room { room < 33 }
    requires seen { seen ≤ 4096 }
    ensures value { Gives (λ x. (shape_view x.0, x.1, x.2.now, laid base.now changed.new)) result (coded_at order (33 - room) (fields_below order room) ids.now seen named (laid base.now changed.old) bytes.now) }
    ensures few { IfOk result (λ x. x.1 ≤ 4096) }
{
    let left = bytes.len();
    let (code, rest) = code_at(bytes)?;
    check_here(33 - room, seen, named, left)?;
    let (shape, total, rest) = parts_at(
        alloc, order, base, changed, budget, room, code, left, seen, rest,
    )?;
    let nodes = total.saturating_sub(seen);
    Ok((
        defined(alloc, changed, budget, ids, shape, nodes)?,
        total,
        rest,
    ))
}

/// What follows a node's code, which had `left` bytes from it on.
#[cycle(node)]
#[tactic(auto, unfolding(crate::specs::Reading::parts_at, crate::specs::Reading::sized_at))]
fn parts_at<'a>(
    alloc: Global,
    order: Order,
    base: &Registry,
    changed: &mut Definitions,
    budget: &mut Budget,
    room: u32,
    code: Code,
    left: usize,
    seen: u32,
    bytes: &'a [u8],
) -> Result<(Shape, u32, &'a [u8]), DescStop>
    requires room { (0 < room) × (room < 33) }
    requires seen { seen ≤ 4095 }
    ensures value { Gives (λ x. (shape_view x.0, x.1, x.2.now, laid base.now changed.new)) result (parts_at order (33 - room) (fields_below order room) code left seen (laid base.now changed.old) bytes.now) }
    ensures few { IfOk result (λ x. x.1 ≤ 4096) }
{
    match code {
        Code::Plain(scalar) => Ok((Shape::Plain(scalar), seen + 1, bytes)),
        Code::List(scalar) => Ok((Shape::List(scalar, Extent::Variable), seen + 1, bytes)),
        Code::Bounded(scalar) => {
            let (size, rest) = bound_at(order, bytes)?;
            Ok((Shape::List(scalar, Extent::Bounded(size)), seen + 1, rest))
        }
        Code::Fixed(scalar) => {
            let (size, rest) = bound_at(order, bytes)?;
            Ok((Shape::List(scalar, Extent::Fixed(size)), seen + 1, rest))
        }
        Code::BoundText => {
            let (size, rest) = bound_at(order, bytes)?;
            Ok((Shape::BoundText(size), seen + 1, rest))
        }
        Code::Variant => Ok((Shape::Variant, seen + 1, bytes)),
        Code::VariantList => Ok((Shape::VariantList, seen + 1, bytes)),
        Code::Struct => branch_at(
            alloc,
            order,
            base,
            changed,
            budget,
            room,
            Element::Struct,
            seen,
            bytes,
        ),
        Code::Union => branch_at(
            alloc,
            order,
            base,
            changed,
            budget,
            room,
            Element::Union,
            seen,
            bytes,
        ),
        Code::StructList => element_at(
            alloc,
            order,
            base,
            changed,
            budget,
            room,
            Element::Struct,
            seen,
            bytes,
        ),
        Code::UnionList => element_at(
            alloc,
            order,
            base,
            changed,
            budget,
            room,
            Element::Union,
            seen,
            bytes,
        ),
        Code::Cached => cached_at(
            alloc,
            order,
            base,
            changed,
            None,
            254,
            left,
            33 - room,
            seen,
            left,
            bytes,
        ),
        Code::Unknown => Err(DescStop::Fault(DescCause::UnknownCode(0), left)),
    }
}

/// A list of structures or unions, after its code: the element's own description, which is no node.
#[cycle(node)]
#[tactic(auto, unfolding(crate::specs::Reading::element_at))]
fn element_at<'a>(
    alloc: Global,
    order: Order,
    base: &Registry,
    changed: &mut Definitions,
    budget: &mut Budget,
    room: u32,
    element: Element,
    seen: u32,
    bytes: &'a [u8],
) -> Result<(Shape, u32, &'a [u8]), DescStop>
    requires room { (0 < room) × (room < 33) }
    requires seen { seen ≤ 4095 }
    ensures value { Gives (λ x. (shape_view x.0, x.1, x.2.now, laid base.now changed.new)) result (element_at order (33 - room) (fields_below order room) element seen (laid base.now changed.old) bytes.now) }
    ensures few { IfOk result (λ x. x.1 ≤ 4096) }
{
    let (ids, rest) = chain_at(alloc, order, bytes)?;
    let first = first_byte(bytes);
    coded_element_at(
        alloc,
        order,
        base,
        changed,
        budget,
        room,
        element,
        &ids,
        first,
        bytes.len(),
        seen,
        rest,
    )
}

/// The element of a list from its code on, which is defined under the ids. A code of another kind is
/// UnknownCode of the byte `first`, which had `first_left` bytes from it on.
#[cycle(node)]
fn coded_element_at<'a>(
    alloc: Global,
    order: Order,
    base: &Registry,
    changed: &mut Definitions,
    budget: &mut Budget,
    room: u32,
    element: Element,
    ids: &[u16],
    first: u8,
    first_left: usize,
    seen: u32,
    bytes: &'a [u8],
) -> Result<(Shape, u32, &'a [u8]), DescStop>
    requires room { (0 < room) × (room < 33) }
    requires seen { seen ≤ 4095 }
    ensures value { Gives (λ x. (shape_view x.0, x.1, x.2.now, laid base.now changed.new)) result (coded_element_at order (33 - room) (fields_below order room) ids.now element (UnknownCode first, first_left) seen (laid base.now changed.old) bytes.now) }
    ensures few { IfOk result (λ x. x.1 ≤ 4096) }
{
    let left = bytes.len();
    let (code, rest) = code_at(bytes)?;
    let (shape, total, rest) = element_of(
        alloc, order, base, changed, budget, room, element, first, first_left, left, seen, code,
        rest,
    )?;
    let nodes = total.saturating_sub(seen);
    let listed = defined(alloc, changed, budget, ids, shape, nodes)?;
    Ok((list_tree(listed), total, rest))
}

/// The element of a list, after its code, which had `left` bytes from it on. A code of another kind is
/// UnknownCode of the byte `first`, which had `first_left` bytes from it on.
#[cycle(node)]
#[tactic(auto, unfolding(crate::specs::Reading::element_of))]
fn element_of<'a>(
    alloc: Global,
    order: Order,
    base: &Registry,
    changed: &mut Definitions,
    budget: &mut Budget,
    room: u32,
    element: Element,
    first: u8,
    first_left: usize,
    left: usize,
    seen: u32,
    code: Code,
    bytes: &'a [u8],
) -> Result<(Shape, u32, &'a [u8]), DescStop>
    requires room { (0 < room) × (room < 33) }
    requires seen { seen ≤ 4095 }
    ensures value { Gives (λ x. (shape_view x.0, x.1, x.2.now, laid base.now changed.new)) result (element_of order (33 - room) (fields_below order room) element (UnknownCode first, first_left) left seen (laid base.now changed.old) code bytes.now) }
    ensures few { IfOk result (λ x. x.1 ≤ 4096) }
{
    if let Code::Cached = code {
        return cached_at(
            alloc,
            order,
            base,
            changed,
            Some(element),
            first,
            first_left,
            33 - room,
            seen,
            left,
            bytes,
        );
    }
    if !takes(element, code) {
        return Err(DescStop::Fault(DescCause::UnknownCode(first), first_left));
    }
    branch_at(
        alloc, order, base, changed, budget, room, element, seen, bytes,
    )
}

/// The type under the id that stands here, where a cached type is the whole description. It was tested
/// when it was defined, and is shared.
fn alone_at<'a>(
    alloc: Global,
    order: Order,
    base: &Registry,
    changed: &Definitions,
    bytes: &'a [u8],
) -> Result<(Option<PvType>, &'a [u8]), DescStop>
    ensures { Gives (λ x. (x.0, x.1.now, laid base.now changed.now)) result (desc_at order (laid base.now changed.now) (0xFE ∷ bytes.now)) }
{
    let (id, rest) = id_at(order, bytes)?;
    match known(base, changed, id) {
        None => Err(DescStop::Fault(DescCause::UnknownId(id), bytes.len())),
        Some(ty) => {
            let _tested = ty.shape();
            Ok((Some(ty.clone_in(alloc)?), rest))
        }
    }
}

/// A description and what follows it; None is the null description. What it defines goes into
/// `changed`, which hides the types of `base`. After a refusal `changed` may hold a part of that.
///
/// Want of memory is answered too where its nodes and definitions would take more than 16 MiB.
pub fn desc_at<'a>(
    alloc: Global,
    order: Order,
    base: &Registry,
    changed: &mut Definitions,
    bytes: &'a [u8],
) -> Result<(Option<PvType>, &'a [u8]), DescStop>
    ensures { Gives (λ x. (x.0, x.1.now, laid base.now changed.new)) result (desc_at order (laid base.now changed.old) bytes.now) }
{
    let mut budget = Budget::of(READ_ROOM);
    desc_within(alloc, order, base, changed, &mut budget, bytes)
}

/// A description and what follows it, as [`desc_at`] reads it, whose nodes and definitions count against
/// a budget: want of memory is answered where it has too little left.
#[tactic(auto, unfolding(crate::specs::Reading::desc_at))]
pub fn desc_within<'a>(
    alloc: Global,
    order: Order,
    base: &Registry,
    changed: &mut Definitions,
    budget: &mut Budget,
    bytes: &'a [u8],
) -> Result<(Option<PvType>, &'a [u8]), DescStop>
    ensures { Gives (λ x. (x.0, x.1.now, laid base.now changed.new)) result (desc_at order (laid base.now changed.old) bytes.now) }
{
    if let Some(rest) = null(bytes) {
        return Ok((None, rest));
    }
    if let Some(rest) = cached(bytes) {
        budget.spend(SHARE)?;
        return alone_at(alloc, order, base, changed, rest);
    }
    let (shape, nodes, rest) = node_at(alloc, order, base, changed, budget, 32, 0, None, bytes)?;
    budget.spend(NODE * nodes as u64)?;
    Ok((Some(PvType::of_checked(alloc, shape)?), rest))
}
