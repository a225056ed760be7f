ghost use Rattle.std.specs.Prelude.{◌≡◌};
ghost use Rattle.pvd_value.specs.View.{view, row_view, items_view};
ghost use Rattle.pvd_value.specs.Leaves.{row_in};
ghost use Rattle.pvd_value.specs.Fits.{count_of, element_of};

use pvd_type::{Name, PvType, Scalar};

/// The elements of a list of scalars: one vector for each scalar type.
#[derive(Drop)]
pub enum Items {
    /// `boolean`.
    Bool(Vec<bool>),
    /// `byte`.
    I8(Vec<i8>),
    /// `short`.
    I16(Vec<i16>),
    /// `int`.
    I32(Vec<i32>),
    /// `long`.
    I64(Vec<i64>),
    /// `ubyte`.
    U8(Vec<u8>),
    /// `ushort`.
    U16(Vec<u16>),
    /// `uint`.
    U32(Vec<u32>),
    /// `ulong`.
    U64(Vec<u64>),
    /// `float`, as bit patterns.
    F32(Vec<u32>),
    /// `double`, as bit patterns.
    F64(Vec<u64>),
    /// `text`.
    Text(Vec<Name>),
}

/// A value. It stands alone: which type it has is said by [`crate::fits`].
///
/// Floats are carried as bit patterns; nothing computes with them. An element that may be null stands in memory of its own, so that a null takes 16 bytes.
#[derive(Drop)]
pub enum PvValue {
    /// `boolean`.
    Bool(bool),
    /// `byte`.
    I8(i8),
    /// `short`.
    I16(i16),
    /// `int`.
    I32(i32),
    /// `long`.
    I64(i64),
    /// `ubyte`.
    U8(u8),
    /// `ushort`.
    U16(u16),
    /// `uint`.
    U32(u32),
    /// `ulong`.
    U64(u64),
    /// `float`, as its bit pattern.
    F32(u32),
    /// `double`, as its bit pattern.
    F64(u64),
    /// `text`.
    Text(Name),
    /// A list of scalars.
    List(Items),
    /// A structure: the values of its members, in order.
    Struct(Vec<PvValue>),
    /// A union: the place of a member and its value, or none.
    Union(Option<(u32, Box<PvValue>)>),
    /// A variant: a type and a value of it, or none.
    Variant(Option<(PvType, Box<PvValue>)>),
    /// A list of structures, each of which may be null.
    StructList(Vec<Option<Box<PvValue>>>),
    /// A list of unions, each of which may be null.
    UnionList(Vec<Option<Box<PvValue>>>),
    /// A list of variants, each of which may be null.
    VariantList(Vec<Option<Box<(PvType, PvValue)>>>),
}

impl PvValue {
    /// The values of a structure's members, in order; none of another value.
    pub fn members(&self) -> &[PvValue]
        ensures { row_view result.now ≡ row_in (view self.now) }
    {
        match self {
            PvValue::Struct(values) => values,
            _ => &[],
        }
    }
}

impl Items {
    /// The scalar type of the elements.
    pub fn scalar(&self) -> Scalar
        ensures { result ≡ element_of (items_view self.now) }
    {
        match self {
            Items::Bool(_) => Scalar::Bool,
            Items::I8(_) => Scalar::I8,
            Items::I16(_) => Scalar::I16,
            Items::I32(_) => Scalar::I32,
            Items::I64(_) => Scalar::I64,
            Items::U8(_) => Scalar::U8,
            Items::U16(_) => Scalar::U16,
            Items::U32(_) => Scalar::U32,
            Items::U64(_) => Scalar::U64,
            Items::F32(_) => Scalar::F32,
            Items::F64(_) => Scalar::F64,
            Items::Text(_) => Scalar::Text,
        }
    }

    /// How many elements there are.
    pub fn len(&self) -> usize
        ensures { result ≡ count_of (items_view self.now) }
    {
        match self {
            Items::Bool(v) => v.len(),
            Items::I8(v) => v.len(),
            Items::I16(v) => v.len(),
            Items::I32(v) => v.len(),
            Items::I64(v) => v.len(),
            Items::U8(v) => v.len(),
            Items::U16(v) => v.len(),
            Items::U32(v) => v.len(),
            Items::U64(v) => v.len(),
            Items::F32(v) => v.len(),
            Items::F64(v) => v.len(),
            Items::Text(v) => v.len(),
        }
    }
}
