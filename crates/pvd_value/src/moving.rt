ghost use Rattle.std.specs.Prelude.{◌≡◌, ◌+◌, ◌≤◌, ℕ, true, length, if◌then◌else◌};
ghost use Rattle.std.specs.FinSet as set;
ghost use Rattle.pvd_type.specs.View.{shape_view, members_view};
ghost use Rattle.pvd_type.specs.Numbers.{numbered, numbered_fields, IsMeasured};
ghost use Rattle.pvd_value.specs.View.{view, row_view};
ghost use Rattle.pvd_value.specs.Fits.{fits_of, row_fits};
ghost use Rattle.pvd_value.specs.Leaves.{leaf_at};
ghost use Rattle.pvd_value.specs.Merge.{merged, merged_row};

use crate::marked::misses;
use crate::value::PvValue;
use pvd_type::{BitSet, Member, PvType, Shape, split_size};

/// Takes the leaves of `from` that the mask has, and keeps the others; `from` gets those that were in their places. The leaves
/// are moved, so no memory is taken, and members without a marked leaf are passed over.
#[inline(always)]
pub fn take_leaves(ty: &PvType, into: &mut PvValue, mask: &BitSet, from: &mut PvValue)
    requires into { fits_of 16 (view into.old) ty.now ≡ true }
    requires from { fits_of 16 (view from.old) ty.now ≡ true }
    ensures value { view into.new ≡ merged (set.contains mask.now) 0 ty.now (view into.old) (view from.old) }
    ensures leaves { (k : ℕ) → leaf_at k ty.now (view into.new) ≡ (if set.contains mask.now k then leaf_at k ty.now (view from.old) else leaf_at k ty.now (view into.old)) }
    ensures fits { fits_of 16 (view into.new) ty.now ≡ true }
    ensures rest { view from.new ≡ merged (set.contains mask.now) 0 ty.now (view from.old) (view into.old) }
    ensures rest_fits { fits_of 16 (view from.new) ty.now ≡ true }
{
    swap(ty.shape(), ty.sizes(), 0, into, from, mask);
}

/// Exchanges the leaves that the mask has of two values of a node with this number. The sizes are those from this node on.
#[cycle(swap)]
#[inline(always)]
fn swap(
    shape: &Shape,
    sizes: &[u32],
    number: u32,
    into: &mut PvValue,
    from: &mut PvValue,
    mask: &BitSet,
)
    requires into { fits_of 16 (view into.old) (shape_view shape.now) ≡ true }
    requires from { fits_of 16 (view from.old) (shape_view shape.now) ≡ true }
    requires sizes { IsMeasured sizes.now (numbered (shape_view shape.now)) }
    requires few { number + length (numbered (shape_view shape.now)) ≤ 4096 }
    ensures value { view into.new ≡ merged (set.contains mask.now) number (shape_view shape.now) (view into.old) (view from.old) }
    ensures rest { view from.new ≡ merged (set.contains mask.now) number (shape_view shape.now) (view from.old) (view into.old) }
{
    match shape {
        Shape::Struct(node) => {
            if let PvValue::Struct(old) = into {
                if let PvValue::Struct(new) = from {
                    swap_row(&node.members, &sizes[1..], number + 1, old, new, mask);
                }
            }
        }
        _ => {
            if mask.contains(number) {
                std::mem::swap(into, from);
            }
        }
    }
}

/// The same of a member with so many numbers, if one of them is marked.
#[cycle(swap)]
#[inline(always)]
fn swap_member(
    shape: &Shape,
    sizes: &[u32],
    number: u32,
    count: u32,
    into: &mut PvValue,
    from: &mut PvValue,
    mask: &BitSet,
)
    requires into { fits_of 16 (view into.old) (shape_view shape.now) ≡ true }
    requires from { fits_of 16 (view from.old) (shape_view shape.now) ≡ true }
    requires sizes { IsMeasured sizes.now (numbered (shape_view shape.now)) }
    requires count { count ≡ length (numbered (shape_view shape.now)) }
    requires few { number + length (numbered (shape_view shape.now)) ≤ 4096 }
    ensures value { view into.new ≡ merged (set.contains mask.now) number (shape_view shape.now) (view into.old) (view from.old) }
    ensures rest { view from.new ≡ merged (set.contains mask.now) number (shape_view shape.now) (view from.old) (view into.old) }
{
    if count > 1 && misses(mask, number, count) {
        return;
    }
    swap(shape, sizes, number, into, from, mask);
}

#[cycle(swap)]
#[inline(never)]
fn swap_row(
    members: &[Member],
    sizes: &[u32],
    number: u32,
    old: &mut Vec<PvValue>,
    new: &mut Vec<PvValue>,
    mask: &BitSet,
)
    requires old { row_fits 16 (row_view old.old.items) (members_view members.now) ≡ true }
    requires new { row_fits 16 (row_view new.old.items) (members_view members.now) ≡ true }
    requires sizes { IsMeasured sizes.now (numbered_fields (members_view members.now)) }
    requires few { number + length (numbered_fields (members_view members.now)) ≤ 4096 }
    ensures values { row_view old.new.items ≡ merged_row (set.contains mask.now) number (members_view members.now) (row_view old.old.items) (row_view new.old.items) }
    ensures rest { row_view new.new.items ≡ merged_row (set.contains mask.now) number (members_view members.now) (row_view new.old.items) (row_view old.old.items) }
{
    let mut sizes = sizes;
    let mut next = number;
    for i in 0..members.len() {
        let member = &members[i];
        let (size, after) = split_size(sizes);
        swap_member(
            &member.shape,
            sizes,
            next,
            size,
            &mut old[i],
            &mut new[i],
            mask,
        );
        next += size;
        sizes = after;
    }
}
