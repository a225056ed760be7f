// The leaves of a mask alone, of what a group shows, written into a value.
ghost use Rattle.std.specs.Prelude.{◌≡◌, ◌≤◌, ◌<◌, ◌+◌, ◌==◌, ◌&&◌, ◌||◌, [], ℕ, true, length, nat_lt, IfOk, OnOk};
ghost use Rattle.std.specs.FinSet as set;
ghost use Rattle.pvd_type.specs.Numbers.{numbered, numbered_fields, IsMeasured};
ghost use Rattle.pvd_type.specs.Sets.{IsFirstFrom};
ghost use Rattle.pvd_type.specs.Tree.{node, struct};
ghost use Rattle.pvd_value.specs.Data.{members};
ghost use Rattle.pvd_value.specs.Fits.{fits_of, row_fits};
ghost use Rattle.pvd_value.specs.Merge.{merged, merged_row};
ghost use Rattle.pvd_value.specs.View.{view, row_view};
ghost use Rattle.group_view.specs.Groups.{HasState};
ghost use Rattle.group_view.specs.Seen.{branch_seen, slots_seen};
ghost use Rattle.group_view.specs.Types.{source_tree, slot_tree, slot_fields};
ghost use Rattle.group_view.specs.Views.{source_shown, slot_shown, slots_shown, IsKept, IsRowKept, IsReadyUnder, AreReadyUnder, IsBefore, HasNumber};

use crate::slots::{Branch, Named};
use crate::source::Source;
use pvd_type::{BitSet, NoMemory, split_size};
use pvd_value::{PvValue, take_leaves};
use rec_kinds::RecState;
use std::alloc::Global;

/// Writes the leaves of a mask, as they are shown under a name, into a value. The node has this number, and `end` is that of the
/// node which follows; the sizes are those from this node on. `first` is the first number of the mask from this node on, and that
/// from `end` on is answered. Where it isn't below `end`, nothing is looked at.
#[cycle(parts)]
fn write_slot(
    branch: &Branch,
    sizes: &[u32],
    number: u32,
    end: u32,
    first: Option<u32>,
    mask: &BitSet,
    states: &[RecState],
    into: &mut PvValue,
    alloc: Global,
) -> Result<Option<u32>, NoMemory>
    requires old_fits { fits_of 16 (view into.old) (slot_tree (branch_seen branch.now)) ≡ true }
    requires sizes { IsMeasured sizes.now (numbered (slot_tree (branch_seen branch.now))) }
    requires few { number + length (numbered (slot_tree (branch_seen branch.now))) ≤ 4096 }
    requires end { end ≡ number + length (numbered (slot_tree (branch_seen branch.now))) }
    requires first { IsFirstFrom mask.now number first }
    requires ready { IsReadyUnder mask.now states.now number (branch_seen branch.now) }
    ensures shown { OnOk result (view into.new ≡ merged (set.contains mask.now) number (slot_tree (branch_seen branch.now)) (view into.old) (slot_shown states.now (branch_seen branch.now))) }
    ensures kept { IsKept mask.now number (slot_tree (branch_seen branch.now)) (view into.old) (view into.new) }
    ensures fits { fits_of 16 (view into.new) (slot_tree (branch_seen branch.now)) ≡ true }
    ensures next { IfOk result (IsFirstFrom mask.now end) }
{
    if !comes_before(first, end) {
        return Ok(first);
    }
    write_marked(branch, sizes, number, mask, states, into, alloc)?;
    Ok(mask.first_from(end))
}

/// The same where one of the node's numbers is in the mask.
#[cycle(parts)]
fn write_marked(
    branch: &Branch,
    sizes: &[u32],
    number: u32,
    mask: &BitSet,
    states: &[RecState],
    into: &mut PvValue,
    alloc: Global,
) -> Result<(), NoMemory>
    requires old_fits { fits_of 16 (view into.old) (slot_tree (branch_seen branch.now)) ≡ true }
    requires sizes { IsMeasured sizes.now (numbered (slot_tree (branch_seen branch.now))) }
    requires few { number + length (numbered (slot_tree (branch_seen branch.now))) ≤ 4096 }
    requires marked { HasNumber mask.now number (length (numbered (slot_tree (branch_seen branch.now)))) }
    requires ready { IsReadyUnder mask.now states.now number (branch_seen branch.now) }
    ensures shown { OnOk result (view into.new ≡ merged (set.contains mask.now) number (slot_tree (branch_seen branch.now)) (view into.old) (slot_shown states.now (branch_seen branch.now))) }
    ensures kept { IsKept mask.now number (slot_tree (branch_seen branch.now)) (view into.old) (view into.new) }
    ensures fits { fits_of 16 (view into.new) (slot_tree (branch_seen branch.now)) ≡ true }
{
    match branch {
        Branch::Shows(source) => write_source(source, number, mask, states, into, alloc),
        Branch::Level(_, slots) => write_level(slots, sizes, number, mask, states, into, alloc),
    }
}

/// The same of a structure of slots, which has this number.
#[cycle(parts)]
pub(crate) fn write_level(
    slots: &[Named],
    sizes: &[u32],
    number: u32,
    mask: &BitSet,
    states: &[RecState],
    into: &mut PvValue,
    alloc: Global,
) -> Result<(), NoMemory>
    requires old_fits { fits_of 16 (view into.old) (node struct [] (slot_fields (slots_seen slots.now))) ≡ true }
    requires sizes { IsMeasured sizes.now (numbered (node struct [] (slot_fields (slots_seen slots.now)))) }
    requires few { number + length (numbered (node struct [] (slot_fields (slots_seen slots.now)))) ≤ 4096 }
    requires ready { AreReadyUnder mask.now states.now (number + 1) (slots_seen slots.now) }
    ensures shown { OnOk result (view into.new ≡ merged (set.contains mask.now) number (node struct [] (slot_fields (slots_seen slots.now))) (view into.old) (members (slots_shown states.now (slots_seen slots.now)))) }
    ensures kept { IsKept mask.now number (node struct [] (slot_fields (slots_seen slots.now))) (view into.old) (view into.new) }
    ensures fits { fits_of 16 (view into.new) (node struct [] (slot_fields (slots_seen slots.now))) ≡ true }
{
    if let PvValue::Struct(values) = into {
        write_slots(slots, &sizes[1..], number + 1, mask, states, values, alloc)?;
    }
    Ok(())
}

/// The same of slots, the first of which has this number, in their order.
#[cycle(parts)]
fn write_slots(
    slots: &[Named],
    sizes: &[u32],
    number: u32,
    mask: &BitSet,
    states: &[RecState],
    values: &mut Vec<PvValue>,
    alloc: Global,
) -> Result<(), NoMemory>
    requires old_fits { row_fits 16 (row_view values.old.items) (slot_fields (slots_seen slots.now)) ≡ true }
    requires sizes { IsMeasured sizes.now (numbered_fields (slot_fields (slots_seen slots.now))) }
    requires few { number + length (numbered_fields (slot_fields (slots_seen slots.now))) ≤ 4096 }
    requires ready { AreReadyUnder mask.now states.now number (slots_seen slots.now) }
    ensures shown { OnOk result (row_view values.new.items ≡ merged_row (set.contains mask.now) number (slot_fields (slots_seen slots.now)) (row_view values.old.items) (slots_shown states.now (slots_seen slots.now))) }
    ensures kept { IsRowKept mask.now number (slot_fields (slots_seen slots.now)) (row_view values.old.items) (row_view values.new.items) }
    ensures fits { row_fits 16 (row_view values.new.items) (slot_fields (slots_seen slots.now)) ≡ true }
{
    let mut sizes = sizes;
    let mut next = number;
    let mut first = mask.first_from(number);
    for i in 0..slots.len() {
        let slot = &slots[i];
        let (size, after) = split_size(sizes);
        let end = next + size;
        first = write_slot(
            &slot.branch,
            sizes,
            next,
            end,
            first,
            mask,
            states,
            &mut values[i],
            alloc,
        )?;
        next = end;
        sizes = after;
    }
    Ok(())
}

/// Writes the leaves of a mask, as a member shows them, into a value. The first node of what it shows has this number.
#[inline(always)]
fn write_source(
    source: &Source,
    number: u32,
    mask: &BitSet,
    states: &[RecState],
    into: &mut PvValue,
    alloc: Global,
) -> Result<(), NoMemory>
    requires old_fits { fits_of 16 (view into.old) (source_tree source.now) ≡ true }
    requires few { number + length (numbered (source_tree source.now)) ≤ 4096 }
    requires marked { HasNumber mask.now number (length (numbered (source_tree source.now))) }
    requires ready { (k : ℕ) → number ≤ k → k < number + length (numbered (source_tree source.now)) → set.contains mask.now k ≡ true → HasState states.now source.now.link }
    ensures shown { OnOk result (view into.new ≡ merged (set.contains mask.now) number (source_tree source.now) (view into.old) (source_shown states.now source.now)) }
    ensures kept { IsKept mask.now number (source_tree source.now) (view into.old) (view into.new) }
    ensures fits { fits_of 16 (view into.new) (source_tree source.now) ≡ true }
{
    let ty = source.ty();
    let count = ty.node_count();
    let marked = counted_from(alloc, mask, number, count)?;
    let mut part = source.part(alloc, states, &marked)?;
    take_leaves(ty, into, &marked, &mut part);
    Ok(())
}

/// Of a set the numbers among so many from `start` on, counted from there.
fn counted_from(alloc: Global, mask: &BitSet, start: u32, count: u32) -> Result<BitSet, NoMemory>
    requires { start + count ≤ 4096 }
    ensures { IfOk result (λ marked. (k : ℕ) → set.contains marked k ≡ (nat_lt k count && set.contains mask.now (start + k))) }
{
    let mut marked = BitSet::new(alloc);
    for k in 0..count {
        add_marked(mask, start + k, k, &mut marked)?;
    }
    Ok(marked)
}

/// Adds a number where the mask has the number `place`.
fn add_marked(mask: &BitSet, place: u32, number: u32, marked: &mut BitSet) -> Result<(), NoMemory>
    requires { number < 4096 }
    ensures { OnOk result ((q : ℕ) → set.contains marked.new q ≡ (set.contains marked.old q || (q == number && set.contains mask.now place))) }
{
    if mask.contains(place) {
        return marked.insert(number);
    }
    Ok(())
}

/// Whether there is a first number, and it is below `end`.
fn comes_before(first: Option<u32>, end: u32) -> bool
    ensures { IsBefore result first end }
{
    match first {
        Some(number) => number < end,
        None => false,
    }
}
