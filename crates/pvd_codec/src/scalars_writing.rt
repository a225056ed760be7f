ghost use Rattle.std.specs.Prelude.{◌≡◌, ◌++◌, ℕ, List, OnOk, OnErr};
ghost use Rattle.std.specs.List.{flat_map};
ghost use Rattle.pva_wire.specs.Spelling.{IsSize, canonical_size};
ghost use Rattle.pvd_type.specs.declared.shape.Scalar as scalars;
ghost use Rattle.pvd_type.specs.Tree.{leaf, plain};
ghost use Rattle.pvd_value.specs.Data.{Single, boolean, byte, short, int, long, ubyte, ushort, uint, ulong, text};
ghost use Rattle.pvd_value.specs.View.{view, items_view};
ghost use Rattle.pvd_codec.specs.Written.{Begins, canonical_single, canonical_count, canonical_list, canonical_items, canonical_value, CanSingle, CanEach, CanItems, CanCount, CanList, CanValue};

use crate::lists_writing::{
    write_i8s, write_i16s, write_i32s, write_i64s, write_u8s, write_u16s, write_u32s, write_u64s,
};
use pva_wire::{Order, write_size, write_text, write_u16, write_u32, write_u64};
use pvd_type::{Extent, Name, NoMemory};
use pvd_value::{Items, PvValue};

/// A scalar, as a writer sees it. Floats are written as unsigned numbers.
pub trait WriteScalar {
    ghost single: { Self → Single };

    /// Appends the bytes of the scalar.
    fn write(&self, out: &mut Vec<u8>, order: Order) -> Result<(), NoMemory>
        ensures written { OnOk result (out.new.items ≡ out.old.items ++ canonical_single order (single self.now)) }
        ensures can { OnOk result (CanSingle (single self.now)) }
        ensures begins { OnErr result (Begins out.old.items out.new.items) };
}

impl WriteScalar for bool {
    ghost single = { boolean };

    fn write(&self, out: &mut Vec<u8>, _order: Order) -> Result<(), NoMemory> {
        out.push(if *self { 1 } else { 0 })?;
        Ok(())
    }
}

impl WriteScalar for i8 {
    ghost single = { byte };

    fn write(&self, out: &mut Vec<u8>, _order: Order) -> Result<(), NoMemory> {
        out.push(self.cast_unsigned())?;
        Ok(())
    }
}

impl WriteScalar for i16 {
    ghost single = { short };

    fn write(&self, out: &mut Vec<u8>, order: Order) -> Result<(), NoMemory> {
        write_u16(out, order, self.cast_unsigned())
    }
}

impl WriteScalar for i32 {
    ghost single = { int };

    fn write(&self, out: &mut Vec<u8>, order: Order) -> Result<(), NoMemory> {
        write_u32(out, order, self.cast_unsigned())
    }
}

impl WriteScalar for i64 {
    ghost single = { long };

    fn write(&self, out: &mut Vec<u8>, order: Order) -> Result<(), NoMemory> {
        write_u64(out, order, self.cast_unsigned())
    }
}

impl WriteScalar for u8 {
    ghost single = { ubyte };

    fn write(&self, out: &mut Vec<u8>, _order: Order) -> Result<(), NoMemory> {
        out.push(*self)?;
        Ok(())
    }
}

impl WriteScalar for u16 {
    ghost single = { ushort };

    fn write(&self, out: &mut Vec<u8>, order: Order) -> Result<(), NoMemory> {
        write_u16(out, order, *self)
    }
}

impl WriteScalar for u32 {
    ghost single = { uint };

    fn write(&self, out: &mut Vec<u8>, order: Order) -> Result<(), NoMemory> {
        write_u32(out, order, *self)
    }
}

impl WriteScalar for u64 {
    ghost single = { ulong };

    fn write(&self, out: &mut Vec<u8>, order: Order) -> Result<(), NoMemory> {
        write_u64(out, order, *self)
    }
}

impl WriteScalar for Name {
    ghost single = { text };

    fn write(&self, out: &mut Vec<u8>, order: Order) -> Result<(), NoMemory> {
        write_text(out, order, self)
    }
}

/// Appends the bytes of scalars, one after another, each by itself.
pub fn write_all<T: WriteScalar>(
    out: &mut Vec<u8>,
    order: Order,
    values: &[T],
) -> Result<(), NoMemory>
    ensures written { OnOk result (out.new.items ≡ out.old.items ++ flat_map (λ x. canonical_single order (T.single x)) values.now) }
    ensures can { OnOk result (CanEach (λ x. CanSingle (T.single x)) values.now) }
    ensures begins { OnErr result (Begins out.old.items out.new.items) }
{
    for value in values {
        value.write(out, order)?;
    }
    Ok(())
}

/// Appends how many elements a list has.
pub fn write_count(out: &mut Vec<u8>, order: Order, count: usize) -> Result<(), NoMemory>
    ensures written { OnOk result (out.new.items ≡ out.old.items ++ canonical_size order count) }
    ensures can { OnOk result (IsSize count) }
    ensures begins { OnErr result (Begins out.old.items out.new.items) }
{
    let Ok(size) = u32::try_from(count) else {
        return Err(NoMemory);
    };
    write_size(out, order, size)
}

/// Appends how many elements a list has, where its extent doesn't say it.
fn write_extent(
    out: &mut Vec<u8>,
    order: Order,
    extent: Extent,
    count: usize,
) -> Result<(), NoMemory>
    ensures written { OnOk result (out.new.items ≡ out.old.items ++ canonical_count order extent count) }
    ensures can { OnOk result (CanCount extent count) }
    ensures begins { OnErr result (Begins out.old.items out.new.items) }
{
    match extent {
        Extent::Variable => write_count(out, order, count),
        Extent::Bounded(_) => write_count(out, order, count),
        Extent::Fixed(_) => Ok(()),
    }
}

/// Appends the elements of a list.
fn write_items(out: &mut Vec<u8>, order: Order, items: &Items) -> Result<(), NoMemory>
    ensures written { OnOk result (out.new.items ≡ out.old.items ++ canonical_items order (items_view items.now)) }
    ensures can { OnOk result (CanItems (items_view items.now)) }
    ensures begins { OnErr result (Begins out.old.items out.new.items) }
{
    match items {
        Items::Bool(values) => write_all(out, order, values),
        Items::I8(values) => write_i8s(out, order, values),
        Items::I16(values) => write_i16s(out, order, values),
        Items::I32(values) => write_i32s(out, order, values),
        Items::I64(values) => write_i64s(out, order, values),
        Items::U8(values) => write_u8s(out, order, values),
        Items::U16(values) => write_u16s(out, order, values),
        Items::U32(values) => write_u32s(out, order, values),
        Items::U64(values) => write_u64s(out, order, values),
        Items::F32(values) => write_u32s(out, order, values),
        Items::F64(values) => write_u64s(out, order, values),
        Items::Text(values) => write_all(out, order, values),
    }
}

/// Appends a list of scalars: its count, unless its extent says it, and the elements.
pub fn write_list(
    out: &mut Vec<u8>,
    order: Order,
    extent: Extent,
    items: &Items,
) -> Result<(), NoMemory>
    ensures written { OnOk result (out.new.items ≡ out.old.items ++ canonical_list order extent (items_view items.now)) }
    ensures can { OnOk result (CanList extent (items_view items.now)) }
    ensures begins { OnErr result (Begins out.old.items out.new.items) }
{
    write_extent(out, order, extent, items.len())?;
    write_items(out, order, items)
}

/// Appends a scalar.
pub fn write_single(out: &mut Vec<u8>, order: Order, value: &PvValue) -> Result<(), NoMemory>
    ensures written { OnOk result ((s : scalars.Scalar) → out.new.items ≡ out.old.items ++ canonical_value order (view value.now) (leaf (plain s))) }
    ensures can { OnOk result ((s : scalars.Scalar) → CanValue (view value.now) (leaf (plain s))) }
    ensures begins { OnErr result (Begins out.old.items out.new.items) }
{
    match value {
        PvValue::Bool(x) => x.write(out, order),
        PvValue::I8(x) => x.write(out, order),
        PvValue::I16(x) => x.write(out, order),
        PvValue::I32(x) => x.write(out, order),
        PvValue::I64(x) => x.write(out, order),
        PvValue::U8(x) => x.write(out, order),
        PvValue::U16(x) => x.write(out, order),
        PvValue::U32(x) => x.write(out, order),
        PvValue::U64(x) => x.write(out, order),
        PvValue::F32(x) => x.write(out, order),
        PvValue::F64(x) => x.write(out, order),
        PvValue::Text(x) => x.write(out, order),
        PvValue::List(_) => Ok(()),
        PvValue::Struct(_) => Ok(()),
        PvValue::Union(_) => Ok(()),
        PvValue::Variant(_) => Ok(()),
        PvValue::StructList(_) => Ok(()),
        PvValue::UnionList(_) => Ok(()),
        PvValue::VariantList(_) => Ok(()),
    }
}
