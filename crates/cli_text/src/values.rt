ghost use Rattle.std.specs.Prelude.{◌≡◌, ◌++◌, [], OnOk};
ghost use Rattle.pvd_type.specs.View.{shape_view, members_view};
ghost use Rattle.pvd_value.specs.View.{view, row_view, optional_view, carried_view};
ghost use Rattle.pvd_type.specs.Tree.{leaf, variant};
ghost use Rattle.cli_text.specs.Texts.{null_text, named, chosen, led, braced, bracketed, fields_in, text_of, member_texts, row_texts};

use crate::scalars::{PrintScalar, SEPARATOR, print_double, print_float, print_items};
use pvd_type::{Member, Name, NoMemory, PvType, Shape};
use pvd_value::PvValue;

/// The members of a structure or a union, or of the elements of a list of these; none of another shape.
fn members_of(shape: &Shape) -> &[Member]
    ensures { members_view result.now ≡ fields_in (shape_view shape.now) }
{
    match shape {
        Shape::Struct(node) => &node.members,
        Shape::Union(node) => &node.members,
        Shape::StructList(node) => &node.members,
        Shape::UnionList(node) => &node.members,
        Shape::Plain(_) => &[],
        Shape::BoundText(_) => &[],
        Shape::List(_, _) => &[],
        Shape::Variant => &[],
        Shape::VariantList => &[],
    }
}

/// Appends `null`.
fn print_null(out: &mut Vec<u8>) -> Result<(), NoMemory>
    ensures { OnOk result (out.new.items ≡ out.old.items ++ null_text) }
{
    out.extend_from_slice(b"null")?;
    Ok(())
}

/// Appends a name and a mark.
fn print_name(out: &mut Vec<u8>, name: &Name, mark: u8) -> Result<(), NoMemory>
    ensures { OnOk result (out.new.items ≡ out.old.items ++ named name.now mark []) }
{
    out.extend_from_slice(name.as_str().as_bytes())?;
    out.push(mark)?;
    Ok(())
}

/// Appends the text of a value of a shape. A value that doesn't fit its shape, which the public calls exclude, lacks what it
/// has no place for.
#[cycle(print)]
#[tactic(auto, using(pvd_value::proofs::Rows::view_structs, pvd_value::proofs::Rows::view_unions, pvd_value::proofs::Rows::view_variants, pvd_value::proofs::Rows::view_selected, pvd_value::proofs::Rows::view_carried))]
pub fn print_value(value: &PvValue, shape: &Shape, out: &mut Vec<u8>) -> Result<(), NoMemory>
    ensures { OnOk result (out.new.items ≡ out.old.items ++ text_of (view value.now) (shape_view shape.now)) }
{
    match value {
        PvValue::Bool(x) => x.print(out),
        PvValue::I8(x) => x.print(out),
        PvValue::I16(x) => x.print(out),
        PvValue::I32(x) => x.print(out),
        PvValue::I64(x) => x.print(out),
        PvValue::U8(x) => x.print(out),
        PvValue::U16(x) => x.print(out),
        PvValue::U32(x) => x.print(out),
        PvValue::U64(x) => x.print(out),
        PvValue::F32(bits) => print_float(out, *bits),
        PvValue::F64(bits) => print_double(out, *bits),
        PvValue::Text(x) => x.print(out),
        PvValue::List(items) => print_items(out, items),
        PvValue::Struct(values) => print_struct(values, members_of(shape), out),
        PvValue::Union(None) => print_null(out),
        PvValue::Union(Some((place, inner))) => {
            print_chosen(inner, *place, members_of(shape), out)
        }
        PvValue::Variant(None) => print_null(out),
        PvValue::Variant(Some((ty, inner))) => print_carried(inner, ty, out),
        PvValue::StructList(values) => print_list(values, shape, out),
        PvValue::UnionList(values) => print_list(values, shape, out),
        PvValue::VariantList(values) => print_variants(values, shape, out),
    }
}

/// Appends a structure.
#[cycle(print)]
fn print_struct(values: &[PvValue], members: &[Member], out: &mut Vec<u8>) -> Result<(), NoMemory>
    ensures { OnOk result (out.new.items ≡ out.old.items ++ braced (member_texts (row_view values.now) (members_view members.now))) }
{
    out.push(b'{')?;
    print_members(values, members, out)?;
    out.push(b'}')?;
    Ok(())
}

/// Appends the names and values of a structure's members, in order.
#[cycle(print)]
fn print_members(values: &[PvValue], members: &[Member], out: &mut Vec<u8>) -> Result<(), NoMemory>
    ensures { OnOk result (out.new.items ≡ out.old.items ++ led [] (member_texts (row_view values.now) (members_view members.now))) }
{
    let mut front: &[u8] = &[];
    let count = values.len().min(members.len());
    for i in 0..count {
        let member = &members[i];
        out.extend_from_slice(front)?;
        print_name(out, &member.name, b'=')?;
        print_value(&values[i], &member.shape, out)?;
        front = SEPARATOR;
    }
    Ok(())
}

/// Appends the name and the value of the member of a union that stands in a place.
#[cycle(print)]
fn print_chosen(
    inner: &PvValue,
    place: u32,
    members: &[Member],
    out: &mut Vec<u8>,
) -> Result<(), NoMemory>
    ensures { OnOk result (out.new.items ≡ out.old.items ++ chosen place (text_of (view inner.now)) (members_view members.now)) }
{
    match members.get(place as usize) {
        Some(member) => {
            print_name(out, &member.name, b':')?;
            print_value(inner, &member.shape, out)
        }
        None => Ok(()),
    }
}

/// Appends the value that a variant carries.
#[cycle(print)]
fn print_carried(inner: &PvValue, ty: &PvType, out: &mut Vec<u8>) -> Result<(), NoMemory>
    ensures { OnOk result (out.new.items ≡ out.old.items ++ text_of (view inner.now) ty.now) }
{
    print_value(inner, ty.shape(), out)
}

/// Appends a list of structures or unions.
#[cycle(print)]
fn print_list(
    values: &[Option<Box<PvValue>>],
    shape: &Shape,
    out: &mut Vec<u8>,
) -> Result<(), NoMemory>
    ensures { OnOk result (out.new.items ≡ out.old.items ++ bracketed (row_texts (optional_view values.now) (shape_view shape.now))) }
{
    out.push(b'[')?;
    print_each(values, shape, out)?;
    out.push(b']')?;
    Ok(())
}

#[cycle(print)]
fn print_each(
    values: &[Option<Box<PvValue>>],
    shape: &Shape,
    out: &mut Vec<u8>,
) -> Result<(), NoMemory>
    ensures { OnOk result (out.new.items ≡ out.old.items ++ led [] (row_texts (optional_view values.now) (shape_view shape.now))) }
{
    let mut front: &[u8] = &[];
    'elements: for value in values {
        out.extend_from_slice(front)?;
        front = SEPARATOR;
        let Some(value) = value else {
            print_null(out)?;
            continue 'elements;
        };
        print_value(value, shape, out)?;
    }
    Ok(())
}

/// Appends a list of variants.
#[cycle(print)]
fn print_variants(
    values: &[Option<Box<(PvType, PvValue)>>],
    shape: &Shape,
    out: &mut Vec<u8>,
) -> Result<(), NoMemory>
    ensures { OnOk result (out.new.items ≡ out.old.items ++ bracketed (row_texts (carried_view values.now) (shape_view shape.now))) }
{
    out.push(b'[')?;
    print_each_variant(values, shape, out)?;
    out.push(b']')?;
    Ok(())
}

#[cycle(print)]
fn print_each_variant(
    values: &[Option<Box<(PvType, PvValue)>>],
    shape: &Shape,
    out: &mut Vec<u8>,
) -> Result<(), NoMemory>
    ensures { OnOk result (out.new.items ≡ out.old.items ++ led [] (row_texts (carried_view values.now) (shape_view shape.now))) }
{
    let mut front: &[u8] = &[];
    'elements: for parcel in values {
        out.extend_from_slice(front)?;
        front = SEPARATOR;
        let Some(parcel) = parcel else {
            print_null(out)?;
            continue 'elements;
        };
        let (ty, value) = &**parcel;
        print_carried(value, ty, out)?;
    }
    Ok(())
}
