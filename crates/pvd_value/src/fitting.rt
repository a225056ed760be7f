ghost use Rattle.std.specs.Prelude.{◌≡◌, ℕ, option_map};
ghost use Rattle.pvd_type.specs.View.{shape_view, node_view, members_view};
ghost use Rattle.pvd_type.specs.Tree as tree;
ghost use Rattle.pvd_type.specs.Tree.{leaf, plain, bound_text, list, struct, union, variant, struct_list, union_list, variant_list};
ghost use Rattle.pvd_type.specs.Same.{same_scalar};
ghost use Rattle.pvd_value.specs.View.{view, row_view, optional_view, carried_view, items_view};
ghost use Rattle.pvd_value.specs.Fits.{fits_of, row_fits, all_fit, member_at, element_of, count_of, allows};

use crate::value::{Items, PvValue};
use pvd_type::{Extent, Member, Node, PvType, Scalar, Shape};

/// How many variants may stand inside one another.
const DEPTH: u32 = 16;

/// Whether a value is of this type: lengths agree with the bounds, a union names one of its members, the value in a variant is of the type that it carries,
/// and no variant, null or not, stands inside the values of 16 others. An element of a list of variants that isn't null is a variant here.
pub fn fits(ty: &PvType, value: &PvValue) -> bool
    ensures { result ≡ fits_of 16 (view value.now) ty.now }
{
    fits_at(value, ty.shape(), DEPTH)
}

#[cycle(fits)]
fn fits_at(value: &PvValue, shape: &Shape, left: u32) -> bool
    ensures { result ≡ fits_of left (view value.now) (shape_view shape.now) }
{
    match shape {
        Shape::Plain(scalar) => is_single(value, *scalar),
        Shape::BoundText(bound) => is_short_text(value, *bound),
        Shape::List(scalar, extent) => is_list(value, *scalar, *extent),
        Shape::Struct(node) => struct_fits(value, node, left),
        Shape::Union(node) => union_fits(value, node, left),
        Shape::Variant => variant_fits(value, left),
        Shape::StructList(node) => struct_list_fits(value, node, left),
        Shape::UnionList(node) => union_list_fits(value, node, left),
        Shape::VariantList => variant_list_fits(value, left),
    }
}

/// Whether a value is one scalar of this type.
fn is_single(value: &PvValue, scalar: Scalar) -> bool
    ensures { (left : ℕ) → result ≡ fits_of left (view value.now) (leaf (plain scalar)) }
{
    match scalar {
        Scalar::Bool => matches!(value, PvValue::Bool(_)),
        Scalar::I8 => matches!(value, PvValue::I8(_)),
        Scalar::I16 => matches!(value, PvValue::I16(_)),
        Scalar::I32 => matches!(value, PvValue::I32(_)),
        Scalar::I64 => matches!(value, PvValue::I64(_)),
        Scalar::U8 => matches!(value, PvValue::U8(_)),
        Scalar::U16 => matches!(value, PvValue::U16(_)),
        Scalar::U32 => matches!(value, PvValue::U32(_)),
        Scalar::U64 => matches!(value, PvValue::U64(_)),
        Scalar::F32 => matches!(value, PvValue::F32(_)),
        Scalar::F64 => matches!(value, PvValue::F64(_)),
        Scalar::Text => matches!(value, PvValue::Text(_)),
    }
}

/// Whether a value is a text of at most so many bytes.
fn is_short_text(value: &PvValue, bound: u32) -> bool
    ensures { (left : ℕ) → result ≡ fits_of left (view value.now) (leaf (bound_text bound)) }
{
    match value {
        PvValue::Text(text) => text.as_str().len() <= bound as usize,
        _ => false,
    }
}

/// Whether a value is a list of scalars of this type and this extent.
fn is_list(value: &PvValue, scalar: Scalar, extent: Extent) -> bool
    ensures { (left : ℕ) → result ≡ fits_of left (view value.now) (leaf (list scalar extent)) }
{
    match value {
        PvValue::List(items) => items.scalar() == scalar && extent_allows(extent, items.len()),
        _ => false,
    }
}

/// Whether a list of this extent may have so many elements.
fn extent_allows(extent: Extent, count: usize) -> bool
    ensures { result ≡ allows extent count }
{
    match extent {
        Extent::Variable => true,
        Extent::Bounded(bound) => count <= bound as usize,
        Extent::Fixed(size) => count == size as usize,
    }
}

#[cycle(fits)]
fn struct_fits(value: &PvValue, node: &Node, left: u32) -> bool
    ensures { result ≡ fits_of left (view value.now) (tree.node struct (node_view node.now).0 (node_view node.now).1) }
{
    match value {
        PvValue::Struct(values) => row_fits(values, &node.members, left),
        _ => false,
    }
}

#[cycle(fits)]
fn row_fits(values: &[PvValue], members: &[Member], left: u32) -> bool
    ensures { result ≡ row_fits left (row_view values.now) (members_view members.now) }
{
    if values.len() != members.len() {
        return false;
    }
    for i in 0..values.len() {
        let member = &members[i];
        if !fits_at(&values[i], &member.shape, left) {
            return false;
        }
    }
    true
}

#[cycle(fits)]
fn union_fits(value: &PvValue, node: &Node, left: u32) -> bool
    ensures { result ≡ fits_of left (view value.now) (tree.node union (node_view node.now).0 (node_view node.now).1) }
{
    match value {
        PvValue::Union(None) => true,
        PvValue::Union(Some((place, inner))) => match member_shape(&node.members, *place) {
            Some(shape) => fits_at(inner, shape, left),
            None => false,
        },
        _ => false,
    }
}

/// The shape of a member by its place, where there is one.
pub fn member_shape(members: &[Member], place: u32) -> Option<&Shape>
    ensures { option_map (λ s. shape_view s.now) result ≡ member_at place (members_view members.now) }
{
    match members.get(place as usize) {
        Some(member) => Some(&member.shape),
        None => None,
    }
}

#[cycle(fits)]
fn variant_fits(value: &PvValue, left: u32) -> bool
    ensures { result ≡ fits_of left (view value.now) (leaf variant) }
{
    match value {
        PvValue::Variant(None) => left > 0,
        PvValue::Variant(Some((ty, inner))) => left > 0 && fits_at(inner, ty.shape(), left - 1),
        _ => false,
    }
}

#[cycle(fits)]
#[tactic(auto, using(crate::proofs::Rows::view_structs))]
fn struct_list_fits(value: &PvValue, node: &Node, left: u32) -> bool
    ensures { result ≡ fits_of left (view value.now) (tree.node struct_list (node_view node.now).0 (node_view node.now).1) }
{
    match value {
        PvValue::StructList(values) => structs_fit(values, node, left),
        _ => false,
    }
}

#[cycle(fits)]
fn structs_fit(values: &[Option<Box<PvValue>>], node: &Node, left: u32) -> bool
    ensures { result ≡ all_fit left (optional_view values.now) (tree.node struct (node_view node.now).0 (node_view node.now).1) }
{
    for value in values {
        if let Some(value) = value
            && !struct_fits(value, node, left)
        {
            return false;
        }
    }
    true
}

#[cycle(fits)]
#[tactic(auto, using(crate::proofs::Rows::view_unions))]
fn union_list_fits(value: &PvValue, node: &Node, left: u32) -> bool
    ensures { result ≡ fits_of left (view value.now) (tree.node union_list (node_view node.now).0 (node_view node.now).1) }
{
    match value {
        PvValue::UnionList(values) => unions_fit(values, node, left),
        _ => false,
    }
}

#[cycle(fits)]
fn unions_fit(values: &[Option<Box<PvValue>>], node: &Node, left: u32) -> bool
    ensures { result ≡ all_fit left (optional_view values.now) (tree.node union (node_view node.now).0 (node_view node.now).1) }
{
    for value in values {
        if let Some(value) = value
            && !union_fits(value, node, left)
        {
            return false;
        }
    }
    true
}

#[cycle(fits)]
#[tactic(auto, using(crate::proofs::Rows::view_variants))]
fn variant_list_fits(value: &PvValue, left: u32) -> bool
    ensures { result ≡ fits_of left (view value.now) (leaf variant_list) }
{
    match value {
        PvValue::VariantList(values) => variants_fit(values, left),
        _ => false,
    }
}

#[cycle(fits)]
fn variants_fit(values: &[Option<Box<(PvType, PvValue)>>], left: u32) -> bool
    ensures { result ≡ all_fit left (carried_view values.now) (leaf variant) }
{
    for value in values {
        if let Some(parcel) = value {
            let (ty, inner) = &**parcel;
            if !(left > 0 && fits_at(inner, ty.shape(), left - 1)) {
                return false;
            }
        }
    }
    true
}
