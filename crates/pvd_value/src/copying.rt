ghost use Rattle.std.specs.Prelude.{◌≡◌, IfOk};
ghost use Rattle.pvd_value.specs.Data.{single, text, many, members, structs, unions, variants, selected, carried};
ghost use Rattle.pvd_value.specs.View.{view, row_view, optional_view, carried_view, items_view};

use crate::value::{Items, PvValue};
use pvd_type::{Name, NoMemory, PvType};
use std::alloc::Global;

impl PvValue {
    /// A copy of the value, whatever its depth.
    pub fn clone_in(&self, alloc: Global) -> Result<PvValue, NoMemory>
        ensures { IfOk result (λ v. view v ≡ view self.now) }
    {
        copy(self, alloc)
    }
}

#[cycle(copy)]
#[tactic(auto, using(crate::proofs::Rows::view_structs, crate::proofs::Rows::view_unions, crate::proofs::Rows::view_variants))]
#[inline(always)]
fn copy(value: &PvValue, alloc: Global) -> Result<PvValue, NoMemory>
    ensures { IfOk result (λ v. view v ≡ view value.now) }
{
    match value {
        PvValue::Bool(x) => Ok(PvValue::Bool(*x)),
        PvValue::I8(x) => Ok(PvValue::I8(*x)),
        PvValue::I16(x) => Ok(PvValue::I16(*x)),
        PvValue::I32(x) => Ok(PvValue::I32(*x)),
        PvValue::I64(x) => Ok(PvValue::I64(*x)),
        PvValue::U8(x) => Ok(PvValue::U8(*x)),
        PvValue::U16(x) => Ok(PvValue::U16(*x)),
        PvValue::U32(x) => Ok(PvValue::U32(*x)),
        PvValue::U64(x) => Ok(PvValue::U64(*x)),
        PvValue::F32(x) => Ok(PvValue::F32(*x)),
        PvValue::F64(x) => Ok(PvValue::F64(*x)),
        PvValue::Text(name) => copy_text(name, alloc),
        PvValue::List(items) => copy_list(items, alloc),
        PvValue::Struct(values) => copy_members(values, alloc),
        PvValue::Union(None) => Ok(PvValue::Union(None)),
        PvValue::Union(Some((place, inner))) => copy_selected(*place, inner, alloc),
        PvValue::Variant(None) => Ok(PvValue::Variant(None)),
        PvValue::Variant(Some((ty, inner))) => copy_carried(ty, inner, alloc),
        PvValue::StructList(values) => copy_structs(values, alloc),
        PvValue::UnionList(values) => copy_unions(values, alloc),
        PvValue::VariantList(values) => copy_list_of_variants(values, alloc),
    }
}

// What takes memory is copied in functions of its own, so that a scalar costs little more than its move.

#[inline(never)]
fn copy_text(name: &Name, alloc: Global) -> Result<PvValue, NoMemory>
    ensures { IfOk result (λ v. view v ≡ single (text name.now)) }
{
    Ok(PvValue::Text(name.clone_in(alloc)?))
}

#[inline(never)]
fn copy_list(items: &Items, alloc: Global) -> Result<PvValue, NoMemory>
    ensures { IfOk result (λ v. view v ≡ many (items_view items.now)) }
{
    Ok(PvValue::List(items.clone_in(alloc)?))
}

#[cycle(copy)]
#[inline(never)]
fn copy_members(values: &[PvValue], alloc: Global) -> Result<PvValue, NoMemory>
    ensures { IfOk result (λ v. view v ≡ members (row_view values.now)) }
{
    Ok(PvValue::Struct(copy_row(values, alloc)?))
}

#[cycle(copy)]
#[tactic(auto, using(crate::proofs::Rows::view_structs))]
#[inline(never)]
fn copy_structs(values: &[Option<Box<PvValue>>], alloc: Global) -> Result<PvValue, NoMemory>
    ensures { IfOk result (λ v. view v ≡ structs (optional_view values.now)) }
{
    Ok(PvValue::StructList(copy_optional(values, alloc)?))
}

#[cycle(copy)]
#[tactic(auto, using(crate::proofs::Rows::view_unions))]
#[inline(never)]
fn copy_unions(values: &[Option<Box<PvValue>>], alloc: Global) -> Result<PvValue, NoMemory>
    ensures { IfOk result (λ v. view v ≡ unions (optional_view values.now)) }
{
    Ok(PvValue::UnionList(copy_optional(values, alloc)?))
}

#[cycle(copy)]
#[tactic(auto, using(crate::proofs::Rows::view_variants))]
#[inline(never)]
fn copy_list_of_variants(
    values: &[Option<Box<(PvType, PvValue)>>],
    alloc: Global,
) -> Result<PvValue, NoMemory>
    ensures { IfOk result (λ v. view v ≡ variants (carried_view values.now)) }
{
    Ok(PvValue::VariantList(copy_variants(values, alloc)?))
}

#[cycle(copy)]
#[tactic(auto, using(crate::proofs::Rows::view_selected))]
#[inline(never)]
fn copy_selected(place: u32, inner: &PvValue, alloc: Global) -> Result<PvValue, NoMemory>
    ensures { IfOk result (λ v. view v ≡ selected place (view inner.now)) }
{
    let copied = Box::new(alloc, copy(inner, alloc)?)?;
    Ok(PvValue::Union(Some((place, copied))))
}

#[cycle(copy)]
#[tactic(auto, using(crate::proofs::Rows::view_carried))]
#[inline(never)]
fn copy_carried(ty: &PvType, inner: &PvValue, alloc: Global) -> Result<PvValue, NoMemory>
    ensures { IfOk result (λ v. view v ≡ carried ty.now (view inner.now)) }
{
    let copied = Box::new(alloc, copy(inner, alloc)?)?;
    Ok(PvValue::Variant(Some((ty.clone_in(alloc)?, copied))))
}

#[cycle(copy)]
fn copy_row(values: &[PvValue], alloc: Global) -> Result<Vec<PvValue>, NoMemory>
    ensures { IfOk result (λ v. row_view v.items ≡ row_view values.now) }
{
    let mut copies = Vec::with_capacity(alloc, values.len())?;
    for value in values {
        copies.push(copy(value, alloc)?)?;
    }
    Ok(copies)
}

#[cycle(copy)]
fn copy_optional(
    values: &[Option<Box<PvValue>>],
    alloc: Global,
) -> Result<Vec<Option<Box<PvValue>>>, NoMemory>
    ensures { IfOk result (λ v. optional_view v.items ≡ optional_view values.now) }
{
    let mut copies = Vec::with_capacity(alloc, values.len())?;
    for value in values {
        let copied = match value {
            Some(value) => Some(Box::new(alloc, copy(value, alloc)?)?),
            None => None,
        };
        copies.push(copied)?;
    }
    Ok(copies)
}

#[cycle(copy)]
fn copy_variants(
    values: &[Option<Box<(PvType, PvValue)>>],
    alloc: Global,
) -> Result<Vec<Option<Box<(PvType, PvValue)>>>, NoMemory>
    ensures { IfOk result (λ v. carried_view v.items ≡ carried_view values.now) }
{
    let mut copies = Vec::with_capacity(alloc, values.len())?;
    for value in values {
        let copied = match value {
            Some(parcel) => {
                let (ty, value) = &**parcel;
                Some(Box::new(alloc, (ty.clone_in(alloc)?, copy(value, alloc)?))?)
            }
            None => None,
        };
        copies.push(copied)?;
    }
    Ok(copies)
}

impl Items {
    /// A copy of the elements.
    pub fn clone_in(&self, alloc: Global) -> Result<Items, NoMemory>
        ensures { IfOk result (λ v. items_view v ≡ items_view self.now) }
    {
        match self {
            Items::Bool(xs) => Ok(Items::Bool(Vec::from_slice(alloc, xs)?)),
            Items::I8(xs) => Ok(Items::I8(Vec::from_slice(alloc, xs)?)),
            Items::I16(xs) => Ok(Items::I16(Vec::from_slice(alloc, xs)?)),
            Items::I32(xs) => Ok(Items::I32(Vec::from_slice(alloc, xs)?)),
            Items::I64(xs) => Ok(Items::I64(Vec::from_slice(alloc, xs)?)),
            Items::U8(xs) => Ok(Items::U8(Vec::from_slice(alloc, xs)?)),
            Items::U16(xs) => Ok(Items::U16(Vec::from_slice(alloc, xs)?)),
            Items::U32(xs) => Ok(Items::U32(Vec::from_slice(alloc, xs)?)),
            Items::U64(xs) => Ok(Items::U64(Vec::from_slice(alloc, xs)?)),
            Items::F32(xs) => Ok(Items::F32(Vec::from_slice(alloc, xs)?)),
            Items::F64(xs) => Ok(Items::F64(Vec::from_slice(alloc, xs)?)),
            Items::Text(texts) => Ok(Items::Text(copy_names(texts, alloc)?)),
        }
    }
}

fn copy_names(names: &[Name], alloc: Global) -> Result<Vec<Name>, NoMemory>
    ensures { IfOk result (λ v. v.items ≡ names.now) }
{
    let mut copies = Vec::with_capacity(alloc, names.len())?;
    for name in names {
        copies.push(name.clone_in(alloc)?)?;
    }
    Ok(copies)
}
