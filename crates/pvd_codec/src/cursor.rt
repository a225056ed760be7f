ghost use Rattle.std.specs.Prelude.{◌≡◌, ℕ, true, List, ◌++◌, IfOk};
ghost use Rattle.std.specs.Ordering.{nat_cmp};
ghost use Rattle.std.specs.FinSet.{FinSet};
ghost use Rattle.pvd_value.specs.Data.{Data};
ghost use Rattle.pvd_value.specs.View.{view};
ghost use Rattle.pvd_value.specs.Fits.{fits_of};
ghost use Rattle.pvd_desc.specs.Types.{Types};
ghost use Rattle.pvd_codec.specs.Grammar.{Full, Part};
ghost use Rattle.pvd_codec.specs.Reading.{full_at, part_at};
ghost use Rattle.pvd_codec.specs.Faults.{Answers, GivesAt, part_view};

use crate::fault::ValueFault;
use crate::staged::{full_at, part_at};
use pva_wire::Cursor;
use pvd_desc::{Definitions, Registry};
use pvd_type::{BitSet, PvType};
use pvd_value::PvValue;
use std::alloc::Global;

/// Reads a whole value of a type (pvAccess Protocol Specification, "Data Encoding"). The types that the
/// descriptions in variants define go into the registry.
///
/// The first item from the left that can't be read is told, with its place. Short stands at a number, a
/// flag or a size in which the bytes end, at the letters of a text that go past the end, and at a count
/// of elements that the bytes left can't hold; in a list of a fixed length, at its first element. A null
/// count, a bound and a selector are judged first, at the size. TooNested stands at the description of a
/// variant inside sixteen others, whatever stands there. After a refusal the cursor and the registry are
/// as before.
///
/// NoMemory is answered too where what the bytes make would take more than 16 MiB and 15 bytes for each of
/// them (src/reading.rt says what counts how much).
pub fn read_full(
    alloc: Global,
    from: &mut Cursor,
    registry: &mut Registry,
    ty: &PvType,
) -> Result<PvValue, ValueFault>
    ensures exact { GivesAt from.old from.new registry.old registry.new view result (full_at from.old.order ty.now (from.old.rest, registry.old)) }
    ensures spelled { IfOk result (λ v. (front : List ℕ) × Full from.old.order registry.old ty.now front (view v) registry.new × (from.old.rest ≡ front ++ from.new.rest)) }
    ensures found { (front rest : List ℕ) (v : Data) (after : Types) → Full from.old.order registry.old ty.now front v after → from.old.rest ≡ front ++ rest → Answers view result v }
    ensures fits { IfOk result (λ v. fits_of 16 (view v) ty.now ≡ true) }
{
    let mut defined = Definitions::new(alloc);
    let bytes = from.rest();
    match full_at(alloc, from.order(), registry, &mut defined, ty, bytes) {
        Ok((value, rest)) => {
            registry.commit(defined)?;
            from.go_to(rest);
            Ok(value)
        }
        Err(stop) => Err(stop.placed(from.length())),
    }
}

/// Reads a part of a value of a type: a set of bits, and the leaves that it marks, in the order of their
/// numbers (pvAccess Protocol Specification, "BitSets" and "Data Encoding"). The set that is answered has
/// leaves alone; the leaves outside it are blank. A bit at or above the count of the type's nodes is
/// BitOutside, before any value is read. After a refusal the cursor and the registry are as before.
///
/// NoMemory is answered too where what the bytes make would take more than 16 MiB and 15 bytes for each of
/// them (src/reading.rt says what counts how much), and where the lists of a fixed length that aren't
/// marked take more than 64 MiB in all.
pub fn read_part(
    alloc: Global,
    from: &mut Cursor,
    registry: &mut Registry,
    ty: &PvType,
) -> Result<(BitSet, PvValue), ValueFault>
    ensures exact { GivesAt from.old from.new registry.old registry.new part_view result (part_at from.old.order ty.now (from.old.rest, registry.old)) }
    ensures found { (front rest : List ℕ) (mask : FinSet nat_cmp) (v : Data) (after : Types) → Part from.old.order registry.old ty.now front mask v after → from.old.rest ≡ front ++ rest → Answers part_view result (mask, v) }
    ensures spelled { IfOk result (λ x. (front : List ℕ) × Part from.old.order registry.old ty.now front x.0 (view x.1) registry.new × (from.old.rest ≡ front ++ from.new.rest)) }
    ensures fits { IfOk result (λ x. fits_of 16 (view x.1) ty.now ≡ true) }
{
    let mut defined = Definitions::new(alloc);
    let bytes = from.rest();
    match part_at(alloc, from.order(), registry, &mut defined, ty, bytes) {
        Ok((mask, value, rest)) => {
            registry.commit(defined)?;
            from.go_to(rest);
            Ok((mask, value))
        }
        Err(stop) => Err(stop.placed(from.length())),
    }
}
