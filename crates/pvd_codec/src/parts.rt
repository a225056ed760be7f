ghost use Rattle.std.specs.Prelude.{◌≡◌, get_or, ◌+◌, ◌-◌, ◌*◌, ◌≤◌, ◌<◌, ◌^◌, length};
ghost use Rattle.std.specs.FinSet as set;
ghost use Rattle.pva_wire.specs.Bits.{place, byte_bit};
ghost use Rattle.pvd_type.specs.View.{shape_view, members_view};
ghost use Rattle.pvd_type.specs.Numbers.{nodes, nodes_in, numbered, numbered_fields, IsMeasured};
ghost use Rattle.pvd_value.specs.View.{view, row_view};
ghost use Rattle.pvd_desc.specs.Types.{laid};
ghost use Rattle.pvd_codec.specs.Reading.{Gives, first_marked, marks_at, slot_at, marked_with, marked_row, part_at};

use crate::fault::{ValueCause, ValueStop};
use crate::reading::{DEPTH, value_at};
use pva_wire::{Order, bits_at, counted_at};
use pvd_desc::{Definitions, Registry};
use pvd_type::{BitSet, Budget, Member, PvType, Shape, split_size};
use pvd_value::{BLANK_ROOM, PvValue, ValueBits, blank_within, leaves_of, misses};
use std::alloc::Global;

/// Which of `count` bytes of a set holds the bits from eight times `at` on.
fn byte_place(order: Order, count: u64, at: u64) -> u64
    requires { at < count }
    ensures place { result ≡ place order count at }
    ensures within { result < count }
{
    match order {
        Order::Big if at < count / 8 * 8 => at / 8 * 8 + (7 - at % 8),
        _ => at,
    }
}

/// The byte of a set that holds the bits from eight times `at` on.
fn byte_at(order: Order, body: &[u8], at: u64) -> u8
    requires { at < length body.now }
    ensures { result ≡ get_or body.now (place order (length body.now) at) 0 }
{
    body[byte_place(order, body.len() as u64, at) as usize]
}

/// Whether the bytes of a set hold a bit.
fn has_bit(order: Order, body: &[u8], bit: u64) -> bool
    requires { bit < 8 * length body.now }
    ensures { result ≡ byte_bit order body.now bit }
{
    (byte_at(order, body, bit / 8) >> (bit % 8)) & 1 == 1
}

/// The least bit at or above `start` that the bytes of a set hold. A byte of zeros is passed over at
/// once.
fn first_bit(order: Order, body: &[u8], start: u64) -> Option<u64>
    requires { length body.now < 2 ^ 32 }
    ensures { result ≡ first_marked (byte_bit order body.now) start (8 * length body.now - start) }
{
    let mut bit = start;
    'bits: while bit < body.len() as u64 * 8 {
        if byte_at(order, body, bit / 8) == 0 {
            bit = bit / 8 * 8 + 8;
            continue 'bits;
        }
        if has_bit(order, body, bit) {
            return Some(bit);
        }
        bit += 1;
    }
    None
}

/// The leaves that a set of bits marks, where a structure's bit stands for all leaves below it. A bit at
/// or above the count of the type's nodes is BitOutside, at the set, also above 65,535.
#[tactic(auto, unfolding(crate::specs::Reading::marks_at))]
fn marks_at<'a>(
    alloc: Global,
    order: Order,
    ty: &PvType,
    bytes: &'a [u8],
) -> Result<(BitSet, &'a [u8]), ValueStop>
    ensures { Gives (λ x. (x.0, x.1.now)) result (marks_at order ty.now bytes.now) }
{
    let (count, rest) = counted_at(order, 1, bytes)?;
    let body = &rest[..count as usize];
    if let Some(bit) = first_bit(order, body, ty.node_count() as u64) {
        return Err(ValueStop::Fault(ValueCause::BitOutside(bit), bytes.len()));
    }
    let (bits, rest) = bits_at(alloc, order, bytes)?;
    match leaves_of(alloc, ty, &bits) {
        Ok(mask) => Ok((mask, rest)),
        Err(ValueBits::NoMemory) => Err(ValueStop::Memory),
        Err(ValueBits::Outside(_)) => unreachable!(),
    }
}

/// What stands under a number: the value where it is marked, and else the blank one, which takes no
/// bytes. Its lists of a fixed length take their memory from `blanks`, as those of all blank values in the
/// part.
#[inline(always)]
fn slot_at<'a>(
    alloc: Global,
    order: Order,
    base: &Registry,
    changed: &mut Definitions,
    budget: &mut Budget,
    blanks: &mut Budget,
    shape: &Shape,
    marked: bool,
    bytes: &'a [u8],
) -> Result<(PvValue, &'a [u8]), ValueStop>
    requires { nodes (shape_view shape.now) ≤ 4096 }
    ensures { Gives (λ x. (view x.0, (x.1.now, laid base.now changed.new))) result (slot_at marked order (shape_view shape.now) (bytes.now, laid base.now changed.old)) }
{
    if marked {
        return value_at(alloc, order, base, changed, budget, shape, DEPTH, bytes);
    }
    Ok((blank_within(alloc, shape, blanks)?, bytes))
}

/// The marked leaves of a node that has this number. The other leaves are blank, and a structure without
/// a marked one is made as a whole. The sizes are those from this node on.
#[cycle(marked)]
#[inline(always)]
#[tactic(auto, unfolding(crate::specs::Reading::marked_with))]
fn marked_at<'a>(
    alloc: Global,
    order: Order,
    base: &Registry,
    changed: &mut Definitions,
    budget: &mut Budget,
    blanks: &mut Budget,
    shape: &Shape,
    sizes: &[u32],
    number: u32,
    mask: &BitSet,
    bytes: &'a [u8],
) -> Result<(PvValue, &'a [u8]), ValueStop>
    requires nodes { nodes (shape_view shape.now) ≤ 4096 }
    requires sizes { IsMeasured sizes.now (numbered (shape_view shape.now)) }
    requires few { number + length (numbered (shape_view shape.now)) ≤ 4096 }
    ensures { Gives (λ x. (view x.0, (x.1.now, laid base.now changed.new))) result (marked_with order (set.contains mask.now) number (shape_view shape.now) (bytes.now, laid base.now changed.old)) }
{
    match shape {
        Shape::Struct(node) => {
            if misses(mask, number, sizes[0]) {
                return Ok((blank_within(alloc, shape, blanks)?, bytes));
            }
            let (values, rest) = marked_row_at(
                alloc,
                order,
                base,
                changed,
                budget,
                blanks,
                &node.members,
                &sizes[1..],
                number + 1,
                mask,
                bytes,
            )?;
            Ok((PvValue::Struct(values), rest))
        }
        _ => {
            let (value, rest) = slot_at(
                alloc,
                order,
                base,
                changed,
                budget,
                blanks,
                shape,
                mask.contains(number),
                bytes,
            )?;
            Ok((value, rest))
        }
    }
}

/// The marked leaves of members, the first of which has this number. The sizes are those from the first on.
#[cycle(marked)]
#[inline(never)]
fn marked_row_at<'a>(
    alloc: Global,
    order: Order,
    base: &Registry,
    changed: &mut Definitions,
    budget: &mut Budget,
    blanks: &mut Budget,
    members: &[Member],
    sizes: &[u32],
    number: u32,
    mask: &BitSet,
    bytes: &'a [u8],
) -> Result<(Vec<PvValue>, &'a [u8]), ValueStop>
    requires nodes { nodes_in (members_view members.now) < 4096 }
    requires sizes { IsMeasured sizes.now (numbered_fields (members_view members.now)) }
    requires few { number + length (numbered_fields (members_view members.now)) ≤ 4096 }
    ensures { Gives (λ x. (row_view x.0.items, (x.1.now, laid base.now changed.new))) result (marked_row order (set.contains mask.now) number (members_view members.now) (bytes.now, laid base.now changed.old)) }
{
    let mut values = Vec::with_capacity(alloc, members.len())?;
    let mut sizes = sizes;
    let mut next = number;
    let mut rest = bytes;
    for member in members {
        let (size, following) = split_size(sizes);
        let (value, after) = marked_at(
            alloc,
            order,
            base,
            changed,
            budget,
            blanks,
            &member.shape,
            sizes,
            next,
            mask,
            rest,
        )?;
        values.push(value)?;
        next += size;
        sizes = following;
        rest = after;
    }
    Ok((values, rest))
}

/// A part: a set of bits, and the leaves that it marks, in the order of their numbers. The lists of a
/// fixed length among the other leaves take at most 64 MiB together, since a part of three bytes may
/// leave thousands of them unmarked.
#[tactic(auto, unfolding(crate::specs::Reading::part_at))]
pub fn part_at<'a>(
    alloc: Global,
    order: Order,
    base: &Registry,
    changed: &mut Definitions,
    budget: &mut Budget,
    ty: &PvType,
    bytes: &'a [u8],
) -> Result<(BitSet, PvValue, &'a [u8]), ValueStop>
    ensures { Gives (λ x. ((x.0, view x.1), (x.2.now, laid base.now changed.new))) result (part_at order ty.now (bytes.now, laid base.now changed.old)) }
{
    let (mask, rest) = marks_at(alloc, order, ty, bytes)?;
    let mut blanks = Budget::of(BLANK_ROOM);
    let (value, rest) = marked_at(
        alloc,
        order,
        base,
        changed,
        budget,
        &mut blanks,
        ty.shape(),
        ty.sizes(),
        0,
        &mask,
        rest,
    )?;
    Ok((mask, value, rest))
}
