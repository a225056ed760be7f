ghost use Rattle.std.specs.Prelude.{◌≡◌, ◌++◌, true, Some, OnOk, OnErr};
ghost use Rattle.pva_wire.specs.Spelling.{IsSize, canonical_size};
ghost use Rattle.pvd_type.specs.declared.shape.Scalar as scalars;
ghost use Rattle.pvd_type.specs.Tree as tree;
ghost use Rattle.pvd_type.specs.Tree.{leaf, list, struct, union, variant, struct_list, union_list, variant_list};
ghost use Rattle.pvd_type.specs.View.{shape_view, node_view, members_view};
ghost use Rattle.pvd_value.specs.View.{view, row_view, optional_view, carried_view};
ghost use Rattle.pvd_value.specs.Fits.{fits_of, member_at};
ghost use Rattle.pvd_desc.specs.Grammar.{CanDesc, canonical_desc};
ghost use Rattle.pvd_codec.specs.Grammar.{row_length};
ghost use Rattle.pvd_codec.specs.Written.{Begins, canonical_selected, canonical_value, canonical_row, canonical_elements, CanSelected, CanValue, CanRow, CanElements};

use crate::scalars_writing::{write_count, write_list, write_single};
use pva_wire::{Order, write_size};
use pvd_desc::write_desc;
use pvd_type::{Extent, Member, NoMemory, Node, PvType, Shape};
use pvd_value::{PvValue, member_shape};

/// Appends the one spelling of a value that is written (pvAccess Protocol Specification, "Data
/// Encoding"). The value fits the type. A size or a text without a spelling, above 2^31-2, is
/// NoMemory. After a refusal `out` is as before.
pub fn write_full(
    out: &mut Vec<u8>,
    order: Order,
    ty: &PvType,
    value: &PvValue,
) -> Result<(), NoMemory>
    requires fits { fits_of 16 (view value.now) ty.now ≡ true }
    ensures ok { OnOk result (out.new.items ≡ out.old.items ++ canonical_value order (view value.now) ty.now) }
    ensures spelled { OnOk result (CanValue (view value.now) ty.now) }
    ensures err { OnErr result (out.new.items ≡ out.old.items) }
{
    let start = out.len();
    if let Err(_) = put(value, ty.shape(), order, out) {
        out.truncate(start);
        return Err(NoMemory);
    }
    Ok(())
}

// A writer that is refused in the middle leaves what it has written so far behind what was there. A value
// that doesn't fit its shape, which the public calls exclude, is passed over.

/// Appends a value of a shape.
#[cycle(put)]
pub fn put(value: &PvValue, shape: &Shape, order: Order, out: &mut Vec<u8>) -> Result<(), NoMemory>
    ensures written { OnOk result (out.new.items ≡ out.old.items ++ canonical_value order (view value.now) (shape_view shape.now)) }
    ensures can { OnOk result (CanValue (view value.now) (shape_view shape.now)) }
    ensures begins { OnErr result (Begins out.old.items out.new.items) }
{
    match shape {
        Shape::Plain(_) => write_single(out, order, value),
        Shape::BoundText(_) => write_single(out, order, value),
        Shape::List(_, extent) => put_list(value, *extent, order, out),
        Shape::Struct(node) => put_struct(value, node, order, out),
        Shape::Union(node) => put_union(value, node, order, out),
        Shape::Variant => put_variant(value, order, out),
        Shape::StructList(node) => put_struct_list(value, node, order, out),
        Shape::UnionList(node) => put_union_list(value, node, order, out),
        Shape::VariantList => put_variant_list(value, order, out),
    }
}

/// Appends a list of scalars of this extent.
fn put_list(
    value: &PvValue,
    extent: Extent,
    order: Order,
    out: &mut Vec<u8>,
) -> Result<(), NoMemory>
    ensures written { OnOk result ((s : scalars.Scalar) → out.new.items ≡ out.old.items ++ canonical_value order (view value.now) (leaf (list s extent))) }
    ensures can { OnOk result ((s : scalars.Scalar) → CanValue (view value.now) (leaf (list s extent))) }
    ensures begins { OnErr result (Begins out.old.items out.new.items) }
{
    match value {
        PvValue::List(items) => write_list(out, order, extent, items),
        _ => Ok(()),
    }
}

/// Appends a structure.
#[cycle(put)]
fn put_struct(value: &PvValue, node: &Node, order: Order, out: &mut Vec<u8>) -> Result<(), NoMemory>
    ensures written { OnOk result (out.new.items ≡ out.old.items ++ canonical_value order (view value.now) (tree.node struct (node_view node.now).0 (node_view node.now).1)) }
    ensures can { OnOk result (CanValue (view value.now) (tree.node struct (node_view node.now).0 (node_view node.now).1)) }
    ensures begins { OnErr result (Begins out.old.items out.new.items) }
{
    match value {
        PvValue::Struct(values) => put_row(values, &node.members, order, out),
        _ => Ok(()),
    }
}

/// Appends the values of a structure's members, in order.
#[cycle(put)]
fn put_row(
    values: &[PvValue],
    members: &[Member],
    order: Order,
    out: &mut Vec<u8>,
) -> Result<(), NoMemory>
    ensures written { OnOk result (out.new.items ≡ out.old.items ++ canonical_row order (row_view values.now) (members_view members.now)) }
    ensures can { OnOk result (CanRow (row_view values.now) (members_view members.now)) }
    ensures begins { OnErr result (Begins out.old.items out.new.items) }
{
    let count = values.len().min(members.len());
    for i in 0..count {
        let member = &members[i];
        put(&values[i], &member.shape, order, out)?;
    }
    Ok(())
}

/// Appends a union: the place of its member and the value, or the null size.
#[cycle(put)]
fn put_union(value: &PvValue, node: &Node, order: Order, out: &mut Vec<u8>) -> Result<(), NoMemory>
    ensures written { OnOk result (out.new.items ≡ out.old.items ++ canonical_value order (view value.now) (tree.node union (node_view node.now).0 (node_view node.now).1)) }
    ensures can { OnOk result (CanValue (view value.now) (tree.node union (node_view node.now).0 (node_view node.now).1)) }
    ensures begins { OnErr result (Begins out.old.items out.new.items) }
{
    match value {
        PvValue::Union(None) => {
            out.push(255)?;
            Ok(())
        }
        PvValue::Union(Some((place, inner))) => {
            put_selected(inner, *place, &node.members, order, out)
        }
        _ => Ok(()),
    }
}

/// Appends the place of a member and its value.
#[cycle(put)]
fn put_selected(
    inner: &PvValue,
    place: u32,
    members: &[Member],
    order: Order,
    out: &mut Vec<u8>,
) -> Result<(), NoMemory>
    ensures written { OnOk result (out.new.items ≡ out.old.items ++ canonical_selected order place (canonical_value order (view inner.now)) (member_at place (members_view members.now))) }
    ensures can { OnOk result (CanSelected place (CanValue (view inner.now)) (member_at place (members_view members.now))) }
    ensures begins { OnErr result (Begins out.old.items out.new.items) }
{
    match member_shape(members, place) {
        Some(shape) => {
            write_size(out, order, place)?;
            put(inner, shape, order, out)
        }
        None => Ok(()),
    }
}

/// Appends a variant: its type and its value, or the null description.
#[cycle(put)]
fn put_variant(value: &PvValue, order: Order, out: &mut Vec<u8>) -> Result<(), NoMemory>
    ensures written { OnOk result (out.new.items ≡ out.old.items ++ canonical_value order (view value.now) (leaf variant)) }
    ensures can { OnOk result (CanValue (view value.now) (leaf variant)) }
    ensures begins { OnErr result (Begins out.old.items out.new.items) }
{
    match value {
        PvValue::Variant(None) => write_desc(out, order, None),
        PvValue::Variant(Some((ty, inner))) => put_carried(inner, ty, order, out),
        _ => Ok(()),
    }
}

/// Appends a type and a value of it.
#[cycle(put)]
fn put_carried(
    inner: &PvValue,
    ty: &PvType,
    order: Order,
    out: &mut Vec<u8>,
) -> Result<(), NoMemory>
    ensures written { OnOk result (out.new.items ≡ out.old.items ++ (canonical_desc order (Some ty.now) ++ canonical_value order (view inner.now) ty.now)) }
    ensures can { OnOk result (CanDesc (Some ty.now) × CanValue (view inner.now) ty.now) }
    ensures begins { OnErr result (Begins out.old.items out.new.items) }
{
    write_desc(out, order, Some(ty))?;
    put(inner, ty.shape(), order, out)
}

/// Appends a list of structures.
#[cycle(put)]
#[tactic(auto, using(pvd_value::proofs::Rows::view_structs))]
fn put_struct_list(
    value: &PvValue,
    node: &Node,
    order: Order,
    out: &mut Vec<u8>,
) -> Result<(), NoMemory>
    ensures written { OnOk result (out.new.items ≡ out.old.items ++ canonical_value order (view value.now) (tree.node struct_list (node_view node.now).0 (node_view node.now).1)) }
    ensures can { OnOk result (CanValue (view value.now) (tree.node struct_list (node_view node.now).0 (node_view node.now).1)) }
    ensures begins { OnErr result (Begins out.old.items out.new.items) }
{
    match value {
        PvValue::StructList(values) => put_structs(values, node, order, out),
        _ => Ok(()),
    }
}

/// Appends a count and so many structures, each of which may be null.
#[cycle(put)]
fn put_structs(
    values: &[Option<Box<PvValue>>],
    node: &Node,
    order: Order,
    out: &mut Vec<u8>,
) -> Result<(), NoMemory>
    ensures written { OnOk result (out.new.items ≡ out.old.items ++ (canonical_size order (row_length (optional_view values.now)) ++ canonical_elements order (optional_view values.now) (tree.node struct (node_view node.now).0 (node_view node.now).1))) }
    ensures can { OnOk result (IsSize (row_length (optional_view values.now)) × CanElements (optional_view values.now) (tree.node struct (node_view node.now).0 (node_view node.now).1)) }
    ensures begins { OnErr result (Begins out.old.items out.new.items) }
{
    write_count(out, order, values.len())?;
    'elements: for value in values {
        let Some(value) = value else {
            out.push(0)?;
            continue 'elements;
        };
        out.push(1)?;
        put_struct(value, node, order, out)?;
    }
    Ok(())
}

/// Appends a list of unions.
#[cycle(put)]
#[tactic(auto, using(pvd_value::proofs::Rows::view_unions))]
fn put_union_list(
    value: &PvValue,
    node: &Node,
    order: Order,
    out: &mut Vec<u8>,
) -> Result<(), NoMemory>
    ensures written { OnOk result (out.new.items ≡ out.old.items ++ canonical_value order (view value.now) (tree.node union_list (node_view node.now).0 (node_view node.now).1)) }
    ensures can { OnOk result (CanValue (view value.now) (tree.node union_list (node_view node.now).0 (node_view node.now).1)) }
    ensures begins { OnErr result (Begins out.old.items out.new.items) }
{
    match value {
        PvValue::UnionList(values) => put_unions(values, node, order, out),
        _ => Ok(()),
    }
}

/// Appends a count and so many unions, each of which may be null.
#[cycle(put)]
fn put_unions(
    values: &[Option<Box<PvValue>>],
    node: &Node,
    order: Order,
    out: &mut Vec<u8>,
) -> Result<(), NoMemory>
    ensures written { OnOk result (out.new.items ≡ out.old.items ++ (canonical_size order (row_length (optional_view values.now)) ++ canonical_elements order (optional_view values.now) (tree.node union (node_view node.now).0 (node_view node.now).1))) }
    ensures can { OnOk result (IsSize (row_length (optional_view values.now)) × CanElements (optional_view values.now) (tree.node union (node_view node.now).0 (node_view node.now).1)) }
    ensures begins { OnErr result (Begins out.old.items out.new.items) }
{
    write_count(out, order, values.len())?;
    'elements: for value in values {
        let Some(value) = value else {
            out.push(0)?;
            continue 'elements;
        };
        out.push(1)?;
        put_union(value, node, order, out)?;
    }
    Ok(())
}

/// Appends a list of variants.
#[cycle(put)]
#[tactic(auto, using(pvd_value::proofs::Rows::view_variants))]
fn put_variant_list(value: &PvValue, order: Order, out: &mut Vec<u8>) -> Result<(), NoMemory>
    ensures written { OnOk result (out.new.items ≡ out.old.items ++ canonical_value order (view value.now) (leaf variant_list)) }
    ensures can { OnOk result (CanValue (view value.now) (leaf variant_list)) }
    ensures begins { OnErr result (Begins out.old.items out.new.items) }
{
    match value {
        PvValue::VariantList(values) => put_variants(values, order, out),
        _ => Ok(()),
    }
}

/// Appends a count and so many variants, each of which may be null.
#[cycle(put)]
fn put_variants(
    values: &[Option<Box<(PvType, PvValue)>>],
    order: Order,
    out: &mut Vec<u8>,
) -> Result<(), NoMemory>
    ensures written { OnOk result (out.new.items ≡ out.old.items ++ (canonical_size order (row_length (carried_view values.now)) ++ canonical_elements order (carried_view values.now) (leaf variant))) }
    ensures can { OnOk result (IsSize (row_length (carried_view values.now)) × CanElements (carried_view values.now) (leaf variant)) }
    ensures begins { OnErr result (Begins out.old.items out.new.items) }
{
    write_count(out, order, values.len())?;
    'elements: for value in values {
        let Some(parcel) = value else {
            out.push(0)?;
            continue 'elements;
        };
        let (ty, inner) = &**parcel;
        out.push(1)?;
        put_carried(inner, ty, order, out)?;
    }
    Ok(())
}
