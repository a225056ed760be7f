ghost use Rattle.std.specs.Prelude.{◌≡◌, ◌+◌, ◌≤◌, ◌<◌, ◌++◌, [], ◌∷◌, ℕ, true, length, map, drop, IfOk, OnOk, OnErr, if◌then◌else◌};
ghost use Rattle.std.specs.FinSet as set;
ghost use Rattle.std.specs.Vec.Iter.{into_iter_items};
ghost use Rattle.pvd_type.specs.View.{shape_view, members_view};
ghost use Rattle.pvd_type.specs.Numbers.{numbered, numbered_fields, IsMeasured};
ghost use Rattle.pvd_value.specs.View.{view, row_view};
ghost use Rattle.pvd_value.specs.Fits.{fits_of, row_fits};
ghost use Rattle.pvd_value.specs.Leaves.{leaf_at};
ghost use Rattle.pvd_value.specs.Merge.{merged, picked, picked_row, first_or, left_by, left_by_row, placed, placed_row};

use crate::marked::misses;
use crate::value::PvValue;
use pvd_type::{BitSet, Member, NoMemory, PvType, Shape, split_size};
use std::alloc::Global;
use std::vec::IntoIter;

/// Takes the leaves of `from` that the mask has, and keeps the others. Without memory nothing is changed.
///
/// The marked leaves are copied first and then moved to their places; nothing else is copied.
pub fn merge(
    alloc: Global,
    ty: &PvType,
    into: &mut PvValue,
    mask: &BitSet,
    from: &PvValue,
) -> Result<(), NoMemory>
    requires into { fits_of 16 (view into.old) ty.now ≡ true }
    requires from { fits_of 16 (view from.now) ty.now ≡ true }
    ensures ok { OnOk result (view into.new ≡ merged (set.contains mask.now) 0 ty.now (view into.old) (view from.now)) }
    ensures leaves { OnOk result ((k : ℕ) → leaf_at k ty.now (view into.new) ≡ (if set.contains mask.now k then leaf_at k ty.now (view from.now) else leaf_at k ty.now (view into.old))) }
    ensures fits { fits_of 16 (view into.new) ty.now ≡ true }
    ensures err { OnErr result (view into.new ≡ view into.old) }
{
    let mut copies = copies_of(alloc, ty, mask, from)?.into_iter();
    place(ty.shape(), ty.sizes(), 0, into, mask, &mut copies);
    Ok(())
}

/// Copies of the leaves that the mask has, in the order of their numbers.
fn copies_of(
    alloc: Global,
    ty: &PvType,
    mask: &BitSet,
    from: &PvValue,
) -> Result<Vec<PvValue>, NoMemory>
    requires { fits_of 16 (view from.now) ty.now ≡ true }
    ensures { IfOk result (λ v. map view v.items ≡ picked (set.contains mask.now) 0 ty.now (view from.now)) }
{
    let mut copies = Vec::new(alloc);
    pick(ty.shape(), ty.sizes(), 0, from, mask, &mut copies, alloc)?;
    Ok(copies)
}

/// Adds copies of the marked leaves of a node with this number. The sizes are those from this node on.
#[cycle(pick)]
fn pick(
    shape: &Shape,
    sizes: &[u32],
    number: u32,
    from: &PvValue,
    mask: &BitSet,
    copies: &mut Vec<PvValue>,
    alloc: Global,
) -> Result<(), NoMemory>
    requires from { fits_of 16 (view from.now) (shape_view shape.now) ≡ true }
    requires sizes { IsMeasured sizes.now (numbered (shape_view shape.now)) }
    requires few { number + length (numbered (shape_view shape.now)) ≤ 4096 }
    ensures { OnOk result (map view copies.new.items ≡ map view copies.old.items ++ picked (set.contains mask.now) number (shape_view shape.now) (view from.now)) }
{
    match shape {
        Shape::Struct(node) => {
            if misses(mask, number, sizes[0]) {
                return Ok(());
            }
            let values = from.members();
            pick_row(
                &node.members,
                &sizes[1..],
                number + 1,
                values,
                mask,
                copies,
                alloc,
            )
        }
        _ => pick_leaf(number, from, mask, copies, alloc),
    }
}

/// Adds a copy of a leaf where it is marked.
fn pick_leaf(
    number: u32,
    from: &PvValue,
    mask: &BitSet,
    copies: &mut Vec<PvValue>,
    alloc: Global,
) -> Result<(), NoMemory>
    ensures { OnOk result (map view copies.new.items ≡ map view copies.old.items ++ (if set.contains mask.now number then view from.now ∷ [] else [])) }
{
    if !mask.contains(number) {
        return Ok(());
    }
    copies.push(from.clone_in(alloc)?)?;
    Ok(())
}

#[cycle(pick)]
fn pick_row(
    members: &[Member],
    sizes: &[u32],
    number: u32,
    from: &[PvValue],
    mask: &BitSet,
    copies: &mut Vec<PvValue>,
    alloc: Global,
) -> Result<(), NoMemory>
    requires from { row_fits 16 (row_view from.now) (members_view members.now) ≡ true }
    requires sizes { IsMeasured sizes.now (numbered_fields (members_view members.now)) }
    requires few { number + length (numbered_fields (members_view members.now)) ≤ 4096 }
    ensures { OnOk result (map view copies.new.items ≡ map view copies.old.items ++ picked_row (set.contains mask.now) number (members_view members.now) (row_view from.now)) }
{
    let mut sizes = sizes;
    let mut next = number;
    for i in 0..members.len() {
        let member = &members[i];
        let (size, after) = split_size(sizes);
        pick(&member.shape, sizes, next, &from[i], mask, copies, alloc)?;
        next += size;
        sizes = after;
    }
    Ok(())
}

/// Moves the next of these values to each marked leaf of a node with this number. The sizes are those from this node on.
#[cycle(place)]
fn place(
    shape: &Shape,
    sizes: &[u32],
    number: u32,
    into: &mut PvValue,
    mask: &BitSet,
    copies: &mut IntoIter<PvValue>,
)
    requires into { fits_of 16 (view into.old) (shape_view shape.now) ≡ true }
    requires sizes { IsMeasured sizes.now (numbered (shape_view shape.now)) }
    requires few { number + length (numbered (shape_view shape.now)) ≤ 4096 }
    ensures value { view into.new ≡ placed (set.contains mask.now) number (shape_view shape.now) (view into.old) (map view (into_iter_items copies.old)) }
    ensures rest { map view (into_iter_items copies.new) ≡ left_by (set.contains mask.now) number (shape_view shape.now) (map view (into_iter_items copies.old)) }
{
    match shape {
        Shape::Struct(node) => {
            if misses(mask, number, sizes[0]) {
                return;
            }
            if let PvValue::Struct(values) = into {
                place_row(&node.members, &sizes[1..], number + 1, values, mask, copies);
            }
        }
        _ => place_leaf(number, into, mask, copies),
    }
}

/// Moves the next of these values to a leaf that is marked.
fn place_leaf(number: u32, into: &mut PvValue, mask: &BitSet, copies: &mut IntoIter<PvValue>)
    ensures value { view into.new ≡ (if set.contains mask.now number then first_or (view into.old) (map view (into_iter_items copies.old)) else view into.old) }
    ensures rest { map view (into_iter_items copies.new) ≡ (if set.contains mask.now number then drop 1 (map view (into_iter_items copies.old)) else map view (into_iter_items copies.old)) }
{
    if mask.contains(number) {
        if let Some(copied) = copies.next() {
            *into = copied;
        }
    }
}

#[cycle(place)]
fn place_row(
    members: &[Member],
    sizes: &[u32],
    number: u32,
    into: &mut Vec<PvValue>,
    mask: &BitSet,
    copies: &mut IntoIter<PvValue>,
)
    requires into { row_fits 16 (row_view into.old.items) (members_view members.now) ≡ true }
    requires sizes { IsMeasured sizes.now (numbered_fields (members_view members.now)) }
    requires few { number + length (numbered_fields (members_view members.now)) ≤ 4096 }
    ensures values { row_view into.new.items ≡ placed_row (set.contains mask.now) number (members_view members.now) (row_view into.old.items) (map view (into_iter_items copies.old)) }
    ensures rest { map view (into_iter_items copies.new) ≡ left_by_row (set.contains mask.now) number (members_view members.now) (map view (into_iter_items copies.old)) }
{
    let mut sizes = sizes;
    let mut next = number;
    for i in 0..members.len() {
        let member = &members[i];
        let (size, after) = split_size(sizes);
        place(&member.shape, sizes, next, &mut into[i], mask, copies);
        next += size;
        sizes = after;
    }
}
