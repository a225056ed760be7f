ghost use Rattle.std.specs.Prelude.{◌≡◌, ◌≤◌, ◌<◌, map, option_map};
ghost use Rattle.pvd_type.specs.View.{shape_view, members_view};
ghost use Rattle.pvd_type.specs.Numbers.{nodes, nodes_in};
ghost use Rattle.pvd_value.specs.View.{view, row_view, boxed_view, parcel_view};
ghost use Rattle.pvd_desc.specs.Types.{laid};
ghost use Rattle.pvd_codec.specs.Reading.{Gives, items_at, flagged, listed, value_at, row_at, union_at, element_with, element_at, variant_with, pair_view, parcel_at};

use crate::fault::{ValueCause, ValueStop};
use crate::lists::{list_at, list_room};
use crate::scalars::{bool_at, bound_text_at, scalar_at};
use pva_wire::{Order, counted_at, size_at};
use pvd_desc::{Definitions, Registry, desc_within};
use pvd_type::{Budget, Member, PvType, Shape};
use pvd_value::{PvValue, member_shape};
use std::alloc::Global;

// The functions of the cycle below are given how many variants may stand inside one another. A variant
// takes one from that; all else goes down in the type.

/// How many variants may stand inside one another.
pub const DEPTH: u32 = 16;

/// What stands in a list of structures or unions.
#[derive(Clone, Copy)]
pub enum Element {
    Struct,
    Union,
}

// A read counts the memory that it takes, before it takes it: few bytes of a hostile payload could stand
// for any number of values. A value counts 64 bytes, a list that isn't empty 48 more (src/lists.rt), its
// element in a list of structures, unions or variants 16 more, a text 48 more (src/scalars.rt) and 72 in
// a list of texts, and a type in a variant what pvd_desc counts. The numbers of a list and the letters of
// a text take no more memory than bytes, and count nothing.

/// How many bytes of memory a value counts for, whatever stands in it: its place among the members of a
/// structure, or the memory of its own where it stands in a union, a variant or a list.
const VALUE: u64 = 64;

/// How many bytes of memory an element of a list of structures, unions or variants takes in the list
/// itself, null or not.
const SLOT: u32 = 16;

/// A value of a shape. What its variants define goes into `changed`, which hides the types of `base`.
/// After a refusal `changed` may hold a part of that. The value counts against the memory that the read
/// may take, since values without bytes, as empty structures, could be any number.
#[cycle(value)]
pub fn value_at<'a>(
    alloc: Global,
    order: Order,
    base: &Registry,
    changed: &mut Definitions,
    budget: &mut Budget,
    shape: &Shape,
    left: u32,
    bytes: &'a [u8],
) -> Result<(PvValue, &'a [u8]), ValueStop>
    requires { nodes (shape_view shape.now) ≤ 4096 }
    ensures { Gives (λ x. (view x.0, (x.1.now, laid base.now changed.new))) result (value_at left order (shape_view shape.now) (bytes.now, laid base.now changed.old)) }
{
    budget.spend(VALUE)?;
    shaped_at(alloc, order, base, changed, budget, shape, left, bytes)
}

/// A value of a shape, which is counted.
#[cycle(value)]
#[tactic(auto, unfolding(crate::specs::Reading::value_with))]
fn shaped_at<'a>(
    alloc: Global,
    order: Order,
    base: &Registry,
    changed: &mut Definitions,
    budget: &mut Budget,
    shape: &Shape,
    left: u32,
    bytes: &'a [u8],
) -> Result<(PvValue, &'a [u8]), ValueStop>
    requires { nodes (shape_view shape.now) ≤ 4096 }
    ensures { Gives (λ x. (view x.0, (x.1.now, laid base.now changed.new))) result (value_at left order (shape_view shape.now) (bytes.now, laid base.now changed.old)) }
{
    match shape {
        Shape::Plain(scalar) => {
            let (value, rest) = scalar_at(alloc, order, budget, *scalar, bytes)?;
            Ok((value, rest))
        }
        Shape::BoundText(bound) => {
            let (value, rest) = bound_text_at(alloc, order, budget, *bound, bytes)?;
            Ok((value, rest))
        }
        Shape::List(scalar, extent) => {
            let (value, rest) = list_at(alloc, order, budget, *scalar, *extent, bytes)?;
            Ok((value, rest))
        }
        Shape::Struct(node) => {
            let (values, rest) = row_at(
                alloc,
                order,
                base,
                changed,
                budget,
                &node.members,
                left,
                bytes,
            )?;
            Ok((PvValue::Struct(values), rest))
        }
        Shape::Union(node) => {
            let (value, rest) = union_at(
                alloc,
                order,
                base,
                changed,
                budget,
                &node.members,
                left,
                bytes,
            )?;
            Ok((value, rest))
        }
        Shape::StructList(node) => {
            let (values, rest) = listed_at(
                alloc,
                order,
                base,
                changed,
                budget,
                Element::Struct,
                &node.members,
                left,
                bytes,
            )?;
            Ok((PvValue::StructList(values), rest))
        }
        Shape::UnionList(node) => {
            let (values, rest) = listed_at(
                alloc,
                order,
                base,
                changed,
                budget,
                Element::Union,
                &node.members,
                left,
                bytes,
            )?;
            Ok((PvValue::UnionList(values), rest))
        }
        Shape::Variant => {
            let (value, rest) = variant_at(alloc, order, base, changed, budget, left, bytes)?;
            Ok((value, rest))
        }
        Shape::VariantList => {
            let (values, rest) = variants_at(alloc, order, base, changed, budget, left, bytes)?;
            Ok((PvValue::VariantList(values), rest))
        }
    }
}

/// The values of a structure's members, in order.
#[cycle(value)]
fn row_at<'a>(
    alloc: Global,
    order: Order,
    base: &Registry,
    changed: &mut Definitions,
    budget: &mut Budget,
    members: &[Member],
    left: u32,
    bytes: &'a [u8],
) -> Result<(Vec<PvValue>, &'a [u8]), ValueStop>
    requires { nodes_in (members_view members.now) < 4096 }
    ensures { Gives (λ x. (row_view x.0.items, (x.1.now, laid base.now changed.new))) result (row_at left order (members_view members.now) (bytes.now, laid base.now changed.old)) }
{
    let mut values = Vec::with_capacity(alloc, members.len())?;
    let mut rest = bytes;
    for member in members {
        let (value, after) = value_at(
            alloc,
            order,
            base,
            changed,
            budget,
            &member.shape,
            left,
            rest,
        )?;
        values.push(value)?;
        rest = after;
    }
    Ok((values, rest))
}

/// A union: the selector, which is null for none, and the value of the member that it selects.
#[cycle(value)]
fn union_at<'a>(
    alloc: Global,
    order: Order,
    base: &Registry,
    changed: &mut Definitions,
    budget: &mut Budget,
    members: &[Member],
    left: u32,
    bytes: &'a [u8],
) -> Result<(PvValue, &'a [u8]), ValueStop>
    requires { nodes_in (members_view members.now) < 4096 }
    ensures { Gives (λ x. (view x.0, (x.1.now, laid base.now changed.new))) result (union_at left order (members_view members.now) (bytes.now, laid base.now changed.old)) }
{
    let (size, rest) = size_at(order, bytes)?;
    let Some(selector) = size else {
        return Ok((PvValue::Union(None), rest));
    };
    match member_shape(members, selector) {
        None => Err(ValueStop::Fault(ValueCause::BadSelector(selector), bytes.len())),
        Some(shape) => {
            let (value, rest) = value_at(alloc, order, base, changed, budget, shape, left, rest)?;
            let value = Box::new(alloc, value)?;
            Ok((PvValue::Union(Some((selector, value))), rest))
        }
    }
}

/// A list of structures or unions with these members: a count, and so many elements, each of which may
/// be null.
#[cycle(value)]
#[tactic(auto, unfolding(crate::specs::Reading::listed))]
fn listed_at<'a>(
    alloc: Global,
    order: Order,
    base: &Registry,
    changed: &mut Definitions,
    budget: &mut Budget,
    element: Element,
    members: &[Member],
    left: u32,
    bytes: &'a [u8],
) -> Result<(Vec<Option<Box<PvValue>>>, &'a [u8]), ValueStop>
    requires { nodes_in (members_view members.now) < 4096 }
    ensures { Gives (λ x. (map (option_map boxed_view) x.0.items, (x.1.now, laid base.now changed.new))) result (listed order (element_with order (parcel_at left order) element (members_view members.now)) (bytes.now, laid base.now changed.old)) }
{
    let (count, rest) = counted_at(order, 1, bytes)?;
    budget.spend(list_room(count, SLOT))?;
    let (values, rest) = elements_at(
        alloc, order, base, changed, budget, element, members, left, count, rest,
    )?;
    Ok((values, rest))
}

/// So many elements.
#[cycle(value)]
fn elements_at<'a>(
    alloc: Global,
    order: Order,
    base: &Registry,
    changed: &mut Definitions,
    budget: &mut Budget,
    element: Element,
    members: &[Member],
    left: u32,
    count: u32,
    bytes: &'a [u8],
) -> Result<(Vec<Option<Box<PvValue>>>, &'a [u8]), ValueStop>
    requires { nodes_in (members_view members.now) < 4096 }
    ensures { Gives (λ x. (map (option_map boxed_view) x.0.items, (x.1.now, laid base.now changed.new))) result (items_at (element_at left order element (members_view members.now)) count (bytes.now, laid base.now changed.old)) }
{
    let mut values = Vec::with_capacity(alloc, count as usize)?;
    let mut rest = bytes;
    for _ in 0..count {
        let (value, after) = element_at(
            alloc, order, base, changed, budget, element, members, left, rest,
        )?;
        values.push(value)?;
        rest = after;
    }
    Ok((values, rest))
}

/// An element that may be null: a flag and, where it is 1, the element.
#[cycle(value)]
#[tactic(auto, unfolding(crate::specs::Reading::flagged))]
fn element_at<'a>(
    alloc: Global,
    order: Order,
    base: &Registry,
    changed: &mut Definitions,
    budget: &mut Budget,
    element: Element,
    members: &[Member],
    left: u32,
    bytes: &'a [u8],
) -> Result<(Option<Box<PvValue>>, &'a [u8]), ValueStop>
    requires { nodes_in (members_view members.now) < 4096 }
    ensures { Gives (λ x. (option_map boxed_view x.0, (x.1.now, laid base.now changed.new))) result (element_at left order element (members_view members.now) (bytes.now, laid base.now changed.old)) }
{
    let (present, rest) = bool_at(bytes)?;
    if !present {
        return Ok((None, rest));
    }
    budget.spend(VALUE)?;
    match element {
        Element::Struct => {
            let (values, rest) = row_at(alloc, order, base, changed, budget, members, left, rest)?;
            let value = Box::new(alloc, PvValue::Struct(values))?;
            Ok((Some(value), rest))
        }
        Element::Union => {
            let (value, rest) = union_at(alloc, order, base, changed, budget, members, left, rest)?;
            Ok((Some(Box::new(alloc, value)?), rest))
        }
    }
}

/// A variant: a description and, unless that is null, a value of the type.
#[cycle(value)]
fn variant_at<'a>(
    alloc: Global,
    order: Order,
    base: &Registry,
    changed: &mut Definitions,
    budget: &mut Budget,
    left: u32,
    bytes: &'a [u8],
) -> Result<(PvValue, &'a [u8]), ValueStop>
    ensures { Gives (λ x. (view x.0, (x.1.now, laid base.now changed.new))) result (variant_with (parcel_at left order) (bytes.now, laid base.now changed.old)) }
{
    let (parcel, rest) = parcel_at(alloc, order, base, changed, budget, left, bytes)?;
    let Some((ty, value)) = parcel else {
        return Ok((PvValue::Variant(None), rest));
    };
    let value = Box::new(alloc, value)?;
    Ok((PvValue::Variant(Some((ty, value))), rest))
}

/// What stands in a variant: a type and a value of it, or null. TooNested, at the description, where no
/// more variants may stand here.
#[cycle(value)]
fn parcel_at<'a>(
    alloc: Global,
    order: Order,
    base: &Registry,
    changed: &mut Definitions,
    budget: &mut Budget,
    left: u32,
    bytes: &'a [u8],
) -> Result<(Option<(PvType, PvValue)>, &'a [u8]), ValueStop>
    ensures { Gives (λ x. (option_map pair_view x.0, (x.1.now, laid base.now changed.new))) result (parcel_at left order (bytes.now, laid base.now changed.old)) }
{
    if left == 0 {
        return Err(ValueStop::Fault(ValueCause::TooNested, bytes.len()));
    }
    let (ty, rest) = desc_within(alloc, order, base, changed, budget, bytes)?;
    let Some(ty) = ty else {
        return Ok((None, rest));
    };
    let (value, rest) = value_at(
        alloc,
        order,
        base,
        changed,
        budget,
        ty.shape(),
        left - 1,
        rest,
    )?;
    Ok((Some((ty, value)), rest))
}

/// A list of variants: a count, and so many elements, each of which may be null.
#[cycle(value)]
#[tactic(auto, unfolding(crate::specs::Reading::listed))]
fn variants_at<'a>(
    alloc: Global,
    order: Order,
    base: &Registry,
    changed: &mut Definitions,
    budget: &mut Budget,
    left: u32,
    bytes: &'a [u8],
) -> Result<(Vec<Option<Box<(PvType, PvValue)>>>, &'a [u8]), ValueStop>
    ensures { Gives (λ x. (map (option_map parcel_view) x.0.items, (x.1.now, laid base.now changed.new))) result (listed order (parcel_at left order) (bytes.now, laid base.now changed.old)) }
{
    let (count, rest) = counted_at(order, 1, bytes)?;
    budget.spend(list_room(count, SLOT))?;
    let (values, rest) = parcels_at(alloc, order, base, changed, budget, left, count, rest)?;
    Ok((values, rest))
}

/// So many elements of a list of variants.
#[cycle(value)]
fn parcels_at<'a>(
    alloc: Global,
    order: Order,
    base: &Registry,
    changed: &mut Definitions,
    budget: &mut Budget,
    left: u32,
    count: u32,
    bytes: &'a [u8],
) -> Result<(Vec<Option<Box<(PvType, PvValue)>>>, &'a [u8]), ValueStop>
    ensures { Gives (λ x. (map (option_map parcel_view) x.0.items, (x.1.now, laid base.now changed.new))) result (items_at (flagged (parcel_at left order)) count (bytes.now, laid base.now changed.old)) }
{
    let mut values = Vec::with_capacity(alloc, count as usize)?;
    let mut rest = bytes;
    for _ in 0..count {
        let (value, after) = flagged_at(alloc, order, base, changed, budget, left, rest)?;
        values.push(value)?;
        rest = after;
    }
    Ok((values, rest))
}

/// A flag and, where it is 1, what stands in a variant. A null description is the null element.
#[cycle(value)]
#[tactic(auto, unfolding(crate::specs::Reading::flagged))]
fn flagged_at<'a>(
    alloc: Global,
    order: Order,
    base: &Registry,
    changed: &mut Definitions,
    budget: &mut Budget,
    left: u32,
    bytes: &'a [u8],
) -> Result<(Option<Box<(PvType, PvValue)>>, &'a [u8]), ValueStop>
    ensures { Gives (λ x. (option_map parcel_view x.0, (x.1.now, laid base.now changed.new))) result (flagged (parcel_at left order) (bytes.now, laid base.now changed.old)) }
{
    let (present, rest) = bool_at(bytes)?;
    if !present {
        return Ok((None, rest));
    }
    budget.spend(VALUE)?;
    let (parcel, rest) = parcel_at(alloc, order, base, changed, budget, left, rest)?;
    match parcel {
        None => Ok((None, rest)),
        Some(pair) => Ok((Some(Box::new(alloc, pair)?), rest)),
    }
}
