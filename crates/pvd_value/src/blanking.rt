ghost use Rattle.std.specs.Prelude.{◌≡◌, ◌≤◌, ◌+◌, true, replicate, IfOk, OnOk, []};
ghost use Rattle.pvd_type.specs.View.{shape_view, members_view};
ghost use Rattle.pvd_value.specs.Data.{single, many};
ghost use Rattle.pvd_value.specs.View.{view, row_view, items_view};
ghost use Rattle.pvd_value.specs.Fits.{fits_of};
ghost use Rattle.pvd_value.specs.Blank.{blank_of, blank_row, blank_single, blank_many, least_count, element_bytes, list_bytes, fixed_bytes, fixed_bytes_in};

use crate::value::{Items, PvValue};
use pvd_type::{Budget, Extent, Member, Name, NoMemory, PvType, Scalar, Shape};
use std::alloc::Global;

/// How many bytes the lists of a fixed length in one blank value may take in all: as many as the largest payload has.
pub const BLANK_ROOM: u64 = 1 << 26;

/// The value that a type begins with: zeros, `false`, empty texts and lists, null unions and variants; lists of a fixed length are full of zeros.
/// Where these lists take more than 67,108,864 bytes in all, that is `NoMemory`.
pub fn blank(alloc: Global, ty: &PvType) -> Result<PvValue, NoMemory>
    ensures value { IfOk result (λ v. view v ≡ blank_of ty.now) }
    ensures fits { IfOk result (λ v. fits_of 16 (view v) ty.now ≡ true) }
{
    blank_shape(alloc, ty.shape())
}

/// The blank value of a part of a type, as [`blank`], with the same bound.
pub fn blank_shape(alloc: Global, shape: &Shape) -> Result<PvValue, NoMemory>
    ensures { IfOk result (λ v. view v ≡ blank_of (shape_view shape.now)) }
{
    let mut budget = Budget::of(BLANK_ROOM);
    blank_within(alloc, shape, &mut budget)
}

/// The blank value of one of several parts of a type, whose lists of a fixed length share a budget: those of this part are taken off
/// it, and where they take more than is left that is `NoMemory`.
pub fn blank_within(alloc: Global, shape: &Shape, budget: &mut Budget) -> Result<PvValue, NoMemory>
    ensures value { IfOk result (λ v. view v ≡ blank_of (shape_view shape.now)) }
    ensures spent { OnOk result (budget.new.left + fixed_bytes (shape_view shape.now) ≡ budget.old.left) }
{
    blank_at(shape, alloc, budget)
}

/// How many bytes a list of this extent takes in memory, if its length is fixed.
fn list_bytes(scalar: Scalar, extent: Extent) -> u64
    ensures { result ≡ list_bytes scalar extent }
{
    match extent {
        Extent::Variable | Extent::Bounded(_) => 0,
        Extent::Fixed(size) => u64::from(size) * element_bytes(scalar),
    }
}

/// How many bytes an element of a list takes in memory.
fn element_bytes(scalar: Scalar) -> u64
    ensures value { result ≡ element_bytes scalar }
    ensures few { result ≤ 24 }
{
    match scalar {
        Scalar::Bool | Scalar::I8 | Scalar::U8 => 1,
        Scalar::I16 | Scalar::U16 => 2,
        Scalar::I32 | Scalar::U32 | Scalar::F32 => 4,
        Scalar::I64 | Scalar::U64 | Scalar::F64 => 8,
        Scalar::Text => 24,
    }
}

#[cycle(blank)]
#[inline(always)]
fn blank_at(shape: &Shape, alloc: Global, budget: &mut Budget) -> Result<PvValue, NoMemory>
    ensures value { IfOk result (λ v. view v ≡ blank_of (shape_view shape.now)) }
    ensures spent { OnOk result (budget.new.left + fixed_bytes (shape_view shape.now) ≡ budget.old.left) }
{
    match shape {
        Shape::Plain(scalar) => blank_scalar(*scalar, alloc),
        Shape::BoundText(_) => Ok(PvValue::Text(Name::of(alloc, "")?)),
        Shape::List(scalar, extent) => {
            budget.spend(list_bytes(*scalar, *extent))?;
            let items = blank_items(*scalar, blank_count(*extent), alloc)?;
            Ok(PvValue::List(items))
        }
        Shape::Struct(node) => Ok(PvValue::Struct(blank_members(&node.members, alloc, budget)?)),
        Shape::Union(_) => Ok(PvValue::Union(None)),
        Shape::Variant => Ok(PvValue::Variant(None)),
        Shape::StructList(_) => Ok(PvValue::StructList(Vec::new(alloc))),
        Shape::UnionList(_) => Ok(PvValue::UnionList(Vec::new(alloc))),
        Shape::VariantList => Ok(PvValue::VariantList(Vec::new(alloc))),
    }
}

#[cycle(blank)]
#[inline(never)]
fn blank_members(
    members: &[Member],
    alloc: Global,
    budget: &mut Budget,
) -> Result<Vec<PvValue>, NoMemory>
    ensures value { IfOk result (λ v. row_view v.items ≡ blank_row (members_view members.now)) }
    ensures spent { OnOk result (budget.new.left + fixed_bytes_in (members_view members.now) ≡ budget.old.left) }
{
    let mut values = Vec::with_capacity(alloc, members.len())?;
    for member in members {
        values.push(blank_at(&member.shape, alloc, budget)?)?;
    }
    Ok(values)
}

/// Zero, `false` or the empty text.
fn blank_scalar(scalar: Scalar, alloc: Global) -> Result<PvValue, NoMemory>
    ensures { IfOk result (λ v. view v ≡ single (blank_single scalar)) }
{
    match scalar {
        Scalar::Bool => Ok(PvValue::Bool(false)),
        Scalar::I8 => Ok(PvValue::I8(0)),
        Scalar::I16 => Ok(PvValue::I16(0)),
        Scalar::I32 => Ok(PvValue::I32(0)),
        Scalar::I64 => Ok(PvValue::I64(0)),
        Scalar::U8 => Ok(PvValue::U8(0)),
        Scalar::U16 => Ok(PvValue::U16(0)),
        Scalar::U32 => Ok(PvValue::U32(0)),
        Scalar::U64 => Ok(PvValue::U64(0)),
        Scalar::F32 => Ok(PvValue::F32(0)),
        Scalar::F64 => Ok(PvValue::F64(0)),
        Scalar::Text => Ok(PvValue::Text(Name::of(alloc, "")?)),
    }
}

/// How many elements a blank list of this extent has.
fn blank_count(extent: Extent) -> usize
    ensures { result ≡ least_count extent }
{
    match extent {
        Extent::Variable | Extent::Bounded(_) => 0,
        Extent::Fixed(size) => size as usize,
    }
}

/// So many zeros, `false`s or empty texts.
fn blank_items(scalar: Scalar, count: usize, alloc: Global) -> Result<Items, NoMemory>
    ensures { IfOk result (λ v. items_view v ≡ blank_many scalar count) }
{
    match scalar {
        Scalar::Bool => Ok(Items::Bool(vec![in alloc; false; count]?)),
        Scalar::I8 => Ok(Items::I8(vec![in alloc; 0; count]?)),
        Scalar::I16 => Ok(Items::I16(vec![in alloc; 0; count]?)),
        Scalar::I32 => Ok(Items::I32(vec![in alloc; 0; count]?)),
        Scalar::I64 => Ok(Items::I64(vec![in alloc; 0; count]?)),
        Scalar::U8 => Ok(Items::U8(vec![in alloc; 0; count]?)),
        Scalar::U16 => Ok(Items::U16(vec![in alloc; 0; count]?)),
        Scalar::U32 => Ok(Items::U32(vec![in alloc; 0; count]?)),
        Scalar::U64 => Ok(Items::U64(vec![in alloc; 0; count]?)),
        Scalar::F32 => Ok(Items::F32(vec![in alloc; 0; count]?)),
        Scalar::F64 => Ok(Items::F64(vec![in alloc; 0; count]?)),
        Scalar::Text => Ok(Items::Text(empty_names(count, alloc)?)),
    }
}

/// So many empty texts.
fn empty_names(count: usize, alloc: Global) -> Result<Vec<Name>, NoMemory>
    ensures { IfOk result (λ v. v.items ≡ replicate count []) }
{
    let mut names = Vec::with_capacity(alloc, count)?;
    for _place in 0..count {
        names.push(Name::of(alloc, "")?)?;
    }
    Ok(names)
}
