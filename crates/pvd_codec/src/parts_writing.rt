ghost use Rattle.std.specs.Prelude.{◌≡◌, ◌++◌, ◌+◌, ◌≤◌, true, length, IfOk, OnOk, OnErr};
ghost use Rattle.std.specs.FinSet as set;
ghost use Rattle.pvd_type.specs.View.{shape_view, members_view};
ghost use Rattle.pvd_type.specs.Numbers.{numbered, numbered_fields};
ghost use Rattle.pvd_value.specs.View.{view, row_view};
ghost use Rattle.pvd_value.specs.Fits.{fits_of, row_fits};
ghost use Rattle.pvd_codec.specs.Written.{Begins, HoldsLeaves, canonical_leaf, canonical_marked, canonical_marked_row, canonical_part, CanLeaf, CanMarked, CanMarkedRow};

use crate::writing::put;
use pva_wire::{Order, write_bits};
use pvd_type::{BitSet, Member, NoMemory, PvType, Shape};
use pvd_value::PvValue;

/// Appends the one spelling of a part of a value that is written: the set of the marked leaves, and
/// their values in the order of their numbers (pvAccess Protocol Specification, "BitSets" and "Data
/// Encoding"). The value fits the type, and the mask holds numbers of leaves alone. A size or a text
/// without a spelling, above 2^31-2, is NoMemory. After a refusal `out` is as before.
pub fn write_part(
    out: &mut Vec<u8>,
    order: Order,
    ty: &PvType,
    mask: &BitSet,
    value: &PvValue,
) -> Result<(), NoMemory>
    requires fits { fits_of 16 (view value.now) ty.now ≡ true }
    requires leaves { HoldsLeaves ty.now mask.now }
    ensures ok { OnOk result (out.new.items ≡ out.old.items ++ canonical_part order mask.now (view value.now) ty.now) }
    ensures spelled { OnOk result (CanMarked (set.contains mask.now) 0 (view value.now) ty.now) }
    ensures err { OnErr result (out.new.items ≡ out.old.items) }
{
    let start = out.len();
    if let Err(_) = put_part(value, ty, mask, order, out) {
        out.truncate(start);
        return Err(NoMemory);
    }
    Ok(())
}

/// Appends a part of a value.
fn put_part(
    value: &PvValue,
    ty: &PvType,
    mask: &BitSet,
    order: Order,
    out: &mut Vec<u8>,
) -> Result<(), NoMemory>
    requires fits { fits_of 16 (view value.now) ty.now ≡ true }
    ensures written { OnOk result (out.new.items ≡ out.old.items ++ canonical_part order mask.now (view value.now) ty.now) }
    ensures can { OnOk result (CanMarked (set.contains mask.now) 0 (view value.now) ty.now) }
    ensures begins { OnErr result (Begins out.old.items out.new.items) }
{
    write_bits(out, order, mask)?;
    put_marked(value, ty.shape(), 0, mask, order, out)?;
    Ok(())
}

/// Appends the marked leaves of a node with this number, and says which number follows it.
#[cycle(part)]
fn put_marked(
    value: &PvValue,
    shape: &Shape,
    number: u32,
    mask: &BitSet,
    order: Order,
    out: &mut Vec<u8>,
) -> Result<u32, NoMemory>
    requires fits { fits_of 16 (view value.now) (shape_view shape.now) ≡ true }
    requires few { number + length (numbered (shape_view shape.now)) ≤ 4096 }
    ensures written { OnOk result (out.new.items ≡ out.old.items ++ canonical_marked order (set.contains mask.now) number (view value.now) (shape_view shape.now)) }
    ensures can { OnOk result (CanMarked (set.contains mask.now) number (view value.now) (shape_view shape.now)) }
    ensures next { IfOk result (λ n. n ≡ number + length (numbered (shape_view shape.now))) }
    ensures begins { OnErr result (Begins out.old.items out.new.items) }
{
    match shape {
        Shape::Struct(node) => put_marked_row(
            value.members(),
            &node.members,
            number + 1,
            mask,
            order,
            out,
        ),
        _ => {
            put_leaf(value, shape, mask.contains(number), order, out)?;
            Ok(number + 1)
        }
    }
}

/// Appends a leaf where it is marked.
fn put_leaf(
    value: &PvValue,
    shape: &Shape,
    marked: bool,
    order: Order,
    out: &mut Vec<u8>,
) -> Result<(), NoMemory>
    ensures written { OnOk result (out.new.items ≡ out.old.items ++ canonical_leaf order marked (view value.now) (shape_view shape.now)) }
    ensures can { OnOk result (CanLeaf marked (view value.now) (shape_view shape.now)) }
    ensures begins { OnErr result (Begins out.old.items out.new.items) }
{
    if !marked {
        return Ok(());
    }
    put(value, shape, order, out)
}

/// Appends the marked leaves of a structure's members, of which the first has this number, and says
/// which number follows the last.
#[cycle(part)]
fn put_marked_row(
    values: &[PvValue],
    members: &[Member],
    number: u32,
    mask: &BitSet,
    order: Order,
    out: &mut Vec<u8>,
) -> Result<u32, NoMemory>
    requires fits { row_fits 16 (row_view values.now) (members_view members.now) ≡ true }
    requires few { number + length (numbered_fields (members_view members.now)) ≤ 4096 }
    ensures written { OnOk result (out.new.items ≡ out.old.items ++ canonical_marked_row order (set.contains mask.now) number (row_view values.now) (members_view members.now)) }
    ensures can { OnOk result (CanMarkedRow (set.contains mask.now) number (row_view values.now) (members_view members.now)) }
    ensures next { IfOk result (λ n. n ≡ number + length (numbered_fields (members_view members.now))) }
    ensures begins { OnErr result (Begins out.old.items out.new.items) }
{
    let mut next = number;
    for i in 0..members.len() {
        let member = &members[i];
        next = put_marked(&values[i], &member.shape, next, mask, order, out)?;
    }
    Ok(next)
}
