ghost use Rattle.std.specs.Prelude.{◌≡◌, ◌+◌, ◌≤◌, ◌<◌, ℕ, List, Some, [], ◌∷◌, true, false, length, fold, IfOk, OnOk};
ghost use Rattle.std.specs.List.{filter};
ghost use Rattle.std.specs.FinSet as set;
ghost use Rattle.pvd_type.specs.View.{shape_view, members_view};
ghost use Rattle.pvd_type.specs.Numbers.{numbered, numbered_fields, IsMeasured};
ghost use Rattle.pvd_value.specs.View.{view, row_view};
ghost use Rattle.pvd_value.specs.Fits.{fits_of, row_fits};
ghost use Rattle.pvd_value.specs.Leaves.{slots, row_slots};
ghost use Rattle.pvd_value.specs.LeafValues.{leaf_values, differing_in};
ghost use Rattle.pvd_value.specs.Same.{differing};

use crate::same::same_value;
use crate::value::PvValue;
use pvd_type::{BitSet, Member, NoMemory, PvType, Shape, split_size};
use std::alloc::Global;

/// The numbers of the mask under which two values of one type have different leaves. Members without a marked leaf are passed
/// over.
pub fn differs_in(
    alloc: Global,
    ty: &PvType,
    mask: &BitSet,
    a: &PvValue,
    b: &PvValue,
) -> Result<BitSet, NoMemory>
    requires a { fits_of 16 (view a.now) ty.now ≡ true }
    requires b { fits_of 16 (view b.now) ty.now ≡ true }
    ensures { IfOk result (λ s. s ≡ differing_in mask.now (leaf_values ty.now (view a.now)) (leaf_values ty.now (view b.now))) }
{
    let mut found = BitSet::new(alloc);
    compare(ty.shape(), ty.sizes(), 0, a, b, mask, &mut found)?;
    Ok(found)
}

/// Adds the marked numbers of the leaves that differ, of values of a node with this number. The sizes are those from this node on.
#[cycle(compare)]
#[inline(always)]
fn compare(
    shape: &Shape,
    sizes: &[u32],
    number: u32,
    a: &PvValue,
    b: &PvValue,
    mask: &BitSet,
    found: &mut BitSet,
) -> Result<(), NoMemory>
    requires a { fits_of 16 (view a.now) (shape_view shape.now) ≡ true }
    requires b { fits_of 16 (view b.now) (shape_view shape.now) ≡ true }
    requires sizes { IsMeasured sizes.now (numbered (shape_view shape.now)) }
    requires few { number + length (numbered (shape_view shape.now)) ≤ 4096 }
    ensures { OnOk result (found.new ≡ fold set.insert found.old (filter (set.contains mask.now) (differing number (slots (shape_view shape.now) (view a.now)) (slots (shape_view shape.now) (view b.now))))) }
{
    match shape {
        Shape::Struct(node) => {
            let (old, new) = (a.members(), b.members());
            compare_rows(
                &node.members,
                &sizes[1..],
                number + 1,
                old,
                new,
                mask,
                found,
            )
        }
        _ => compare_leaf(number, a, b, mask, found),
    }
}

/// Adds the number of a leaf where it is marked and the values differ.
fn compare_leaf(
    number: u32,
    a: &PvValue,
    b: &PvValue,
    mask: &BitSet,
    found: &mut BitSet,
) -> Result<(), NoMemory>
    requires { number < 4096 }
    ensures { OnOk result (found.new ≡ fold set.insert found.old (filter (set.contains mask.now) (differing number (Some (view a.now) ∷ []) (Some (view b.now) ∷ [])))) }
{
    if !mask.contains(number) {
        return Ok(());
    }
    if same_value(a, b) {
        return Ok(());
    }
    found.insert(number)
}

/// The same of a member with so many numbers, if one of them is marked.
#[cycle(compare)]
#[inline(always)]
fn compare_member(
    shape: &Shape,
    sizes: &[u32],
    number: u32,
    count: u32,
    a: &PvValue,
    b: &PvValue,
    mask: &BitSet,
    found: &mut BitSet,
) -> Result<(), NoMemory>
    requires a { fits_of 16 (view a.now) (shape_view shape.now) ≡ true }
    requires b { fits_of 16 (view b.now) (shape_view shape.now) ≡ true }
    requires sizes { IsMeasured sizes.now (numbered (shape_view shape.now)) }
    requires count { count ≡ length (numbered (shape_view shape.now)) }
    requires few { number + length (numbered (shape_view shape.now)) ≤ 4096 }
    ensures { OnOk result (found.new ≡ fold set.insert found.old (filter (set.contains mask.now) (differing number (slots (shape_view shape.now) (view a.now)) (slots (shape_view shape.now) (view b.now))))) }
{
    if count > 1 && misses(mask, number, count) {
        return Ok(());
    }
    compare(shape, sizes, number, a, b, mask, found)
}

#[cycle(compare)]
#[inline(never)]
fn compare_rows(
    members: &[Member],
    sizes: &[u32],
    number: u32,
    a: &[PvValue],
    b: &[PvValue],
    mask: &BitSet,
    found: &mut BitSet,
) -> Result<(), NoMemory>
    requires a { row_fits 16 (row_view a.now) (members_view members.now) ≡ true }
    requires b { row_fits 16 (row_view b.now) (members_view members.now) ≡ true }
    requires sizes { IsMeasured sizes.now (numbered_fields (members_view members.now)) }
    requires few { number + length (numbered_fields (members_view members.now)) ≤ 4096 }
    ensures { OnOk result (found.new ≡ fold set.insert found.old (filter (set.contains mask.now) (differing number (row_slots (members_view members.now) (row_view a.now)) (row_slots (members_view members.now) (row_view b.now))))) }
{
    let mut sizes = sizes;
    let mut next = number;
    for i in 0..members.len() {
        let member = &members[i];
        let (size, after) = split_size(sizes);
        compare_member(&member.shape, sizes, next, size, &a[i], &b[i], mask, found)?;
        next += size;
        sizes = after;
    }
    Ok(())
}

/// Whether a set has none of so many numbers from `start` on.
pub fn misses(mask: &BitSet, start: u32, count: u32) -> bool
    requires { start + count ≤ 4096 }
    ensures none { result ≡ true → (k : ℕ) → start ≤ k → k < start + count → set.contains mask.now k ≡ false }
    ensures some { result ≡ false → (k : ℕ) × (start ≤ k) × (k < start + count) × (set.contains mask.now k ≡ true) }
{
    match mask.first_from(start) {
        Some(first) => first >= start + count,
        None => true,
    }
}
