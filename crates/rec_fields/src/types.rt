// The types that records show.
ghost use Rattle.std.specs.Prelude.{◌≡◌, IfOk, Ok};
ghost use Rattle.rec_fields.specs.Types.{record_tree, scalar_of};

use nt_types::{nt_enum, nt_scalar, nt_scalar_array};
use pvd_type::{NoMemory, PvType, Scalar, TypeFault};
use rec_kinds::{Element, Kind, RecConfig};
use std::alloc::Global;

/// The type of a record's channel: an NTScalar of int, long or string, an NTEnum, or an NTScalarArray (EPICS Normative
/// Types 1.0).
pub fn type_of(alloc: Global, config: &RecConfig) -> Result<PvType, NoMemory>
    ensures { IfOk result (λ ty. ty ≡ record_tree config.now) }
{
    match config.kind() {
        Kind::Longin | Kind::Longout => made(nt_scalar(alloc, Scalar::I32)),
        Kind::Int64in | Kind::Int64out => made(nt_scalar(alloc, Scalar::I64)),
        Kind::Bi | Kind::Bo | Kind::Mbbi | Kind::Mbbo => made(nt_enum(alloc)),
        Kind::Stringin | Kind::Stringout => made(nt_scalar(alloc, Scalar::Text)),
        Kind::Waveform => made(nt_scalar_array(alloc, scalar_for(config.ftvl()))),
    }
}

/// A type that only want of memory can refuse.
pub(crate) fn made(ty: Result<PvType, TypeFault>) -> Result<PvType, NoMemory>
    ensures { IfOk result (λ made. ty ≡ Ok made) }
{
    match ty {
        Ok(ty) => Ok(ty),
        Err(_) => Err(NoMemory),
    }
}

/// The scalar type of a list's elements.
pub(crate) fn scalar_for(element: Element) -> Scalar
    ensures { result ≡ scalar_of element }
{
    match element {
        Element::Text => Scalar::Text,
        Element::I8 => Scalar::I8,
        Element::U8 => Scalar::U8,
        Element::I16 => Scalar::I16,
        Element::U16 => Scalar::U16,
        Element::I32 => Scalar::I32,
        Element::U32 => Scalar::U32,
        Element::I64 => Scalar::I64,
        Element::U64 => Scalar::U64,
    }
}
