ghost use Rattle.std.specs.Prelude.{◌≡◌, ◌≢◌, ◌+◌, ◌≤◌, ◌<◌, ◌↔◌, ℕ, true, Some, [], ◌∷◌, IsTrue, length, fold, IfOk, OnOk};
ghost use Rattle.std.specs.FinSet as set;
ghost use Rattle.pvd_type.specs.View.{shape_view, members_view};
ghost use Rattle.pvd_type.specs.Numbers.{numbered, numbered_fields};
ghost use Rattle.pvd_value.specs.View.{view, row_view};
ghost use Rattle.pvd_value.specs.Fits.{fits_of, row_fits};
ghost use Rattle.pvd_value.specs.Leaves.{slots, row_slots, leaf_at};
ghost use Rattle.pvd_value.specs.Same.{differing};

use crate::same::same_value;
use crate::value::PvValue;
use pvd_type::{BitSet, Member, NoMemory, PvType, Shape};
use std::alloc::Global;

/// The numbers of the leaves in which two values of one type differ.
pub fn differs(alloc: Global, ty: &PvType, a: &PvValue, b: &PvValue) -> Result<BitSet, NoMemory>
    requires a { fits_of 16 (view a.now) ty.now ≡ true }
    requires b { fits_of 16 (view b.now) ty.now ≡ true }
    ensures { IfOk result (λ s. (k : ℕ) → IsTrue (set.contains s k) ↔ (leaf_at k ty.now (view a.now) ≢ leaf_at k ty.now (view b.now))) }
{
    let mut found = BitSet::new(alloc);
    compare(ty.shape(), 0, a, b, &mut found)?;
    Ok(found)
}

/// Adds the numbers of the leaves that differ, of values of a node with this number, and says which number follows it.
#[cycle(compare)]
fn compare(
    shape: &Shape,
    number: u32,
    a: &PvValue,
    b: &PvValue,
    found: &mut BitSet,
) -> Result<u32, NoMemory>
    requires a { fits_of 16 (view a.now) (shape_view shape.now) ≡ true }
    requires b { fits_of 16 (view b.now) (shape_view shape.now) ≡ true }
    requires few { number + length (numbered (shape_view shape.now)) ≤ 4096 }
    ensures leaves { OnOk result (found.new ≡ fold set.insert found.old (differing number (slots (shape_view shape.now) (view a.now)) (slots (shape_view shape.now) (view b.now)))) }
    ensures next { IfOk result (λ n. n ≡ number + length (numbered (shape_view shape.now))) }
{
    match shape {
        Shape::Struct(node) => {
            compare_rows(&node.members, number + 1, a.members(), b.members(), found)
        }
        _ => compare_leaf(number, a, b, found),
    }
}

/// Adds the number of a leaf whose values differ, and says which number follows it.
fn compare_leaf(number: u32, a: &PvValue, b: &PvValue, found: &mut BitSet) -> Result<u32, NoMemory>
    requires { number < 65536 }
    ensures leaves { OnOk result (found.new ≡ fold set.insert found.old (differing number (Some (view a.now) ∷ []) (Some (view b.now) ∷ []))) }
    ensures next { IfOk result (λ n. n ≡ number + 1) }
{
    if !same_value(a, b) {
        found.insert(number)?;
    }
    Ok(number + 1)
}

#[cycle(compare)]
fn compare_rows(
    members: &[Member],
    number: u32,
    a: &[PvValue],
    b: &[PvValue],
    found: &mut BitSet,
) -> Result<u32, NoMemory>
    requires a { row_fits 16 (row_view a.now) (members_view members.now) ≡ true }
    requires b { row_fits 16 (row_view b.now) (members_view members.now) ≡ true }
    requires few { number + length (numbered_fields (members_view members.now)) ≤ 4096 }
    ensures leaves { OnOk result (found.new ≡ fold set.insert found.old (differing number (row_slots (members_view members.now) (row_view a.now)) (row_slots (members_view members.now) (row_view b.now)))) }
    ensures next { IfOk result (λ n. n ≡ number + length (numbered_fields (members_view members.now))) }
{
    let mut next = number;
    for i in 0..members.len() {
        let member = &members[i];
        next = compare(&member.shape, next, &a[i], &b[i], found)?;
    }
    Ok(next)
}
