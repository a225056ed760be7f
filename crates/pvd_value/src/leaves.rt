ghost use Rattle.std.specs.Prelude.{◌≡◌, ◌+◌, ◌≤◌, ◌<◌, ℕ, true, false, [], ◌∷◌, length, fold, is_some, option_map, slice_get, IfOk, IfErr, OnOk, ◌||◌, if◌then◌else◌};
ghost use Rattle.std.specs.FinSet as set;
ghost use Rattle.pvd_type.specs.View.{shape_view, members_view};
ghost use Rattle.pvd_type.specs.Sets.{IsFirstFrom};
ghost use Rattle.pvd_type.specs.Numbers.{leaves, numbered, numbered_fields, IsMeasured};
ghost use Rattle.pvd_value.specs.declared.leaves.ValueBits.TheVariants.{NoMemory};
ghost use Rattle.pvd_value.specs.View.{view, row_view};
ghost use Rattle.pvd_value.specs.Fits.{fits_of, row_fits};
ghost use Rattle.pvd_value.specs.Leaves.{known, slots, row_slots, leaf_at, leaves_under, leaves_among, marked_leaves, IsOutside};

use crate::marked::misses;
use crate::value::PvValue;
use pvd_type::{BitSet, Member, NoMemory, PvType, Shape, split_size};
use std::alloc::Global;

/// Why a set of bits marks no leaves of a type.
#[derive(Clone, Copy, Debug, PartialEq, Eq)]
pub enum ValueBits {
    /// A bit at or above the count of the type's nodes: the least one.
    Outside(u32),
    /// The memory that the call needed couldn't be had.
    NoMemory,
}

impl From<NoMemory> for ValueBits {
    ghost from_gives = { λ _ e. e ≡ NoMemory };

    fn from(_: NoMemory) -> ValueBits {
        ValueBits::NoMemory
    }
}

/// The leaf under a number of the type that the value fits; none where the number is no leaf's.
pub fn leaf<'a>(value: &'a PvValue, ty: &PvType, number: u32) -> Option<&'a PvValue>
    requires { fits_of 16 (view value.now) ty.now ≡ true }
    ensures leaf { option_map (λ v. view v.now) result ≡ leaf_at number ty.now (view value.now) }
    ensures some { is_some result ≡ set.contains (leaves ty.now) number }
{
    leaf_below(ty.shape(), value, ty.sizes(), number)
}

/// The leaf under a number, counted from this node. The sizes are those from this node on.
#[cycle(leaf)]
fn leaf_below<'a>(
    shape: &Shape,
    value: &'a PvValue,
    sizes: &[u32],
    number: u32,
) -> Option<&'a PvValue>
    requires fits { fits_of 16 (view value.now) (shape_view shape.now) ≡ true }
    requires sizes { IsMeasured sizes.now (numbered (shape_view shape.now)) }
    ensures { option_map (λ v. view v.now) result ≡ leaf_at number (shape_view shape.now) (view value.now) }
{
    match shape {
        Shape::Struct(node) if number > 0 => {
            leaf_among(&node.members, value.members(), &sizes[1..], number - 1)
        }
        Shape::Struct(_) => None,
        _ if number == 0 => Some(value),
        _ => None,
    }
}

#[cycle(leaf)]
fn leaf_among<'a>(
    members: &[Member],
    values: &'a [PvValue],
    sizes: &[u32],
    number: u32,
) -> Option<&'a PvValue>
    requires fits { row_fits 16 (row_view values.now) (members_view members.now) ≡ true }
    requires sizes { IsMeasured sizes.now (numbered_fields (members_view members.now)) }
    ensures { option_map (λ v. view v.now) result ≡ known (slice_get (row_slots (members_view members.now) (row_view values.now)) number) }
{
    let mut sizes = sizes;
    let mut left = number;
    for i in 0..members.len() {
        let member = &members[i];
        let (size, after) = split_size(sizes);
        if left < size {
            return leaf_below(&member.shape, &values[i], sizes, left);
        }
        left -= size;
        sizes = after;
    }
    None
}

/// The leaves that the bits mark, where a structure's bit stands for all leaves below it.
pub fn leaves_of(alloc: Global, ty: &PvType, bits: &BitSet) -> Result<BitSet, ValueBits>
    ensures ok { IfOk result (λ s. s ≡ marked_leaves ty.now bits.now) }
    ensures inside { OnOk result (IsFirstFrom bits.now (length (numbered ty.now)) None) }
    ensures outside { IfErr result (IsOutside ty.now bits.now) }
{
    if let Some(number) = bits.first_from(ty.node_count()) {
        return Err(ValueBits::Outside(number));
    }
    let mut found = BitSet::new(alloc);
    mark(ty.shape(), ty.sizes(), 0, false, bits, &mut found)?;
    Ok(found)
}

/// Adds the marked leaves of a node with this number. `inside` says that a structure above is marked. The sizes are those from this
/// node on.
#[cycle(mark)]
#[inline(always)]
fn mark(
    shape: &Shape,
    sizes: &[u32],
    number: u32,
    inside: bool,
    bits: &BitSet,
    found: &mut BitSet,
) -> Result<(), NoMemory>
    requires sizes { IsMeasured sizes.now (numbered (shape_view shape.now)) }
    requires few { number + length (numbered (shape_view shape.now)) ≤ 4096 }
    ensures { OnOk result (found.new ≡ fold set.insert found.old (leaves_under (set.contains bits.now) inside number (shape_view shape.now))) }
{
    let marked = inside | bits.contains(number);
    match shape {
        Shape::Struct(node) => {
            if !marked && misses(bits, number, sizes[0]) {
                return Ok(());
            }
            mark_members(&node.members, &sizes[1..], number + 1, marked, bits, found)
        }
        _ => mark_leaf(number, marked, found),
    }
}

/// Adds the number of a leaf where it is marked.
fn mark_leaf(number: u32, marked: bool, found: &mut BitSet) -> Result<(), NoMemory>
    requires { number < 65536 }
    ensures { OnOk result (found.new ≡ fold set.insert found.old (if marked then number ∷ [] else [])) }
{
    if marked {
        found.insert(number)?;
    }
    Ok(())
}

#[cycle(mark)]
#[inline(never)]
fn mark_members(
    members: &[Member],
    sizes: &[u32],
    number: u32,
    inside: bool,
    bits: &BitSet,
    found: &mut BitSet,
) -> Result<(), NoMemory>
    requires sizes { IsMeasured sizes.now (numbered_fields (members_view members.now)) }
    requires few { number + length (numbered_fields (members_view members.now)) ≤ 4096 }
    ensures { OnOk result (found.new ≡ fold set.insert found.old (leaves_among (set.contains bits.now) inside number (members_view members.now))) }
{
    let mut sizes = sizes;
    let mut next = number;
    for member in members {
        let (size, after) = split_size(sizes);
        mark(&member.shape, sizes, next, inside, bits, found)?;
        next += size;
        sizes = after;
    }
    Ok(())
}
