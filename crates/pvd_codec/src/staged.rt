ghost use Rattle.std.specs.Prelude.{◌≡◌, ◌+◌, ◌*◌, ◌-◌, ◌^◌, ℕ, true, List, ◌++◌, IfOk, length, min};
ghost use Rattle.std.specs.Ordering.{nat_cmp};
ghost use Rattle.std.specs.FinSet.{FinSet};
ghost use Rattle.pvd_value.specs.Data.{Data};
ghost use Rattle.pvd_value.specs.View.{view};
ghost use Rattle.pvd_value.specs.Fits.{fits_of};
ghost use Rattle.pvd_desc.specs.Types.{Types, laid};
ghost use Rattle.pvd_codec.specs.Grammar.{Full, Part};
ghost use Rattle.pvd_codec.specs.Reading.{State, Gives, full_at, part_at};
ghost use Rattle.pvd_codec.specs.Faults.{Finds};

use crate::fault::ValueStop;
use crate::parts;
use crate::reading::{DEPTH, value_at};
use pva_wire::Order;
use pvd_desc::{Definitions, READ_ROOM, Registry};
use pvd_type::{BitSet, Budget, PvType};
use pvd_value::PvValue;
use std::alloc::Global;

// Readers over the bytes that are left of a payload, for a payload with more than one description or
// value: the types that all of them define are kept aside and committed once, after the last one.

/// How many bytes of memory a value may take for each byte from which it is read, beside the 16 MiB that
/// any read may take. A payload of 64 MiB, the largest, makes so at most 976 MiB, below 16 times its
/// bytes.
const TIMES: u64 = 15;

/// What the reading of these bytes may take of memory.
fn budget_for(bytes: &[u8]) -> Budget
    ensures { result.left ≡ min (16777216 + min (15 * length bytes.now) (2 ^ 64 - 1)) (2 ^ 64 - 1) }
{
    Budget::of(READ_ROOM.saturating_add((bytes.len() as u64).saturating_mul(TIMES)))
}

/// Reads a whole value of a type at the front of some bytes, as `read_full` does, and answers what
/// follows it. The types that it defines go into `changed`, which hides those of `base`. After a refusal
/// `changed` may hold a part of them; `ValueStop::placed` gives the fault its place.
///
/// Want of memory is answered too where what these bytes make would take more than 16 MiB and
/// 15 bytes for each of these bytes (src/reading.rt says what counts how much).
pub fn full_at<'a>(
    alloc: Global,
    order: Order,
    base: &Registry,
    changed: &mut Definitions,
    ty: &PvType,
    bytes: &'a [u8],
) -> Result<(PvValue, &'a [u8]), ValueStop>
    ensures exact { Gives (λ x. (view x.0, (x.1.now, laid base.now changed.new))) result (full_at order ty.now (bytes.now, laid base.now changed.old)) }
    ensures spelled { IfOk result (λ x. (front : List ℕ) × Full order (laid base.now changed.old) ty.now front (view x.0) (laid base.now changed.new) × (bytes.now ≡ front ++ x.1.now)) }
    ensures found { (front rest : List ℕ) (v : Data) (after : Types) → Full order (laid base.now changed.old) ty.now front v after → bytes.now ≡ front ++ rest → Finds {Y = Data × State} (λ x. (view x.0, (x.1.now, laid base.now changed.new))) result (v, (rest, after)) }
    ensures fits { IfOk result (λ x. fits_of 16 (view x.0) ty.now ≡ true) }
{
    let mut budget = budget_for(bytes);
    value_at(
        alloc,
        order,
        base,
        changed,
        &mut budget,
        ty.shape(),
        DEPTH,
        bytes,
    )
}

/// Reads a part of a value of a type at the front of some bytes, as `read_part` does, and answers what
/// follows it. The types that it defines go into `changed`, which hides those of `base`. After a refusal
/// `changed` may hold a part of them; `ValueStop::placed` gives the fault its place.
///
/// Want of memory is answered too where what these bytes make would take more than 16 MiB and
/// 15 bytes for each of these bytes (src/reading.rt says what counts how much), and where the lists of a
/// fixed length that aren't marked take more than 64 MiB in all.
pub fn part_at<'a>(
    alloc: Global,
    order: Order,
    base: &Registry,
    changed: &mut Definitions,
    ty: &PvType,
    bytes: &'a [u8],
) -> Result<(BitSet, PvValue, &'a [u8]), ValueStop>
    ensures exact { Gives (λ x. ((x.0, view x.1), (x.2.now, laid base.now changed.new))) result (part_at order ty.now (bytes.now, laid base.now changed.old)) }
    ensures spelled { IfOk result (λ x. (front : List ℕ) × Part order (laid base.now changed.old) ty.now front x.0 (view x.1) (laid base.now changed.new) × (bytes.now ≡ front ++ x.2.now)) }
    ensures found { (front rest : List ℕ) (mask : FinSet nat_cmp) (v : Data) (after : Types) → Part order (laid base.now changed.old) ty.now front mask v after → bytes.now ≡ front ++ rest → Finds {Y = (FinSet nat_cmp × Data) × State} (λ x. ((x.0, view x.1), (x.2.now, laid base.now changed.new))) result ((mask, v), (rest, after)) }
    ensures fits { IfOk result (λ x. fits_of 16 (view x.1) ty.now ≡ true) }
{
    let mut budget = budget_for(bytes);
    parts::part_at(alloc, order, base, changed, &mut budget, ty, bytes)
}
