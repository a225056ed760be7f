// The Normative Types.
ghost use Rattle.std.specs.Prelude.{◌≡◌, IfOk, IfErr, []};
ghost use Rattle.pvd_type.specs.Check.{IsType};
ghost use Rattle.nt_types.specs.Faults.{IsFirstFault};
ghost use Rattle.pvd_type.specs.Tree.{node, struct};
ghost use Rattle.pvd_type.specs.View.{shape_view};
ghost use Rattle.nt_types.specs.Types.{scalar_tree, scalar_array_tree, enum_tree, table_tree, uri_tree, fields_by, list_of, scalar};

use crate::parts::{choice, columns_of, list, scalars_of, structure, with_member, with_meta_of};
use pvd_type::{Name, NoMemory, PvType, Scalar, Shape, TypeFault};
use std::alloc::Global;

/// NTScalar: a scalar with its alarm and its time stamp (EPICS Normative Types 1.0, "NTScalar"). Only want of memory is
/// answered otherwise.
pub fn nt_scalar(alloc: Global, value: Scalar) -> Result<PvType, TypeFault>
    ensures ok { IfOk result (λ ty. ty ≡ scalar_tree value) }
    ensures fault { IfErr result (λ f. f ≡ TypeFault.NoMemory) }
{
    let Ok(shape) = with_meta_of(alloc, "epics:nt/NTScalar:1.0", Shape::Plain(value)) else {
        return Err(TypeFault::NoMemory);
    };
    checked(alloc, shape)
}

/// NTScalarArray: a list of scalars with its alarm and its time stamp (EPICS Normative Types 1.0, "NTScalarArray"). Only
/// want of memory is answered otherwise.
pub fn nt_scalar_array(alloc: Global, value: Scalar) -> Result<PvType, TypeFault>
    ensures ok { IfOk result (λ ty. ty ≡ scalar_array_tree value) }
    ensures fault { IfErr result (λ f. f ≡ TypeFault.NoMemory) }
{
    let Ok(shape) = with_meta_of(alloc, "epics:nt/NTScalarArray:1.0", list(value)) else {
        return Err(TypeFault::NoMemory);
    };
    checked(alloc, shape)
}

/// NTEnum: an index and its choices, with alarm and time stamp (EPICS Normative Types 1.0, "NTEnum"). Only want of memory
/// is answered otherwise.
pub fn nt_enum(alloc: Global) -> Result<PvType, TypeFault>
    ensures ok { IfOk result (λ ty. ty ≡ enum_tree) }
    ensures fault { IfErr result (λ f. f ≡ TypeFault.NoMemory) }
{
    let Ok(shape) = enum_shape(alloc) else {
        return Err(TypeFault::NoMemory);
    };
    checked(alloc, shape)
}

fn enum_shape(alloc: Global) -> Result<Shape, NoMemory>
    ensures { IfOk result (λ s. shape_view s ≡ enum_tree) }
{
    let value = choice(alloc)?;
    with_meta_of(alloc, "epics:nt/NTEnum:1.0", value)
}

/// NTTable: labels, and a column of scalars for each name (EPICS Normative Types 1.0, "NTTable"). A fault is that of the
/// type: an empty name, a name given twice, or more than 4,096 nodes.
pub fn nt_table(alloc: Global, columns: &[(Name, Scalar)]) -> Result<PvType, TypeFault>
    ensures ok { IfOk result (λ ty. (ty ≡ table_tree columns.now) × IsType (table_tree columns.now)) }
    ensures fault { IfErr result (IsFirstFault (table_tree columns.now)) }
{
    let Ok(shape) = table_shape(alloc, columns) else {
        return Err(TypeFault::NoMemory);
    };
    PvType::check(alloc, shape)
}

fn table_shape(alloc: Global, columns: &[(Name, Scalar)]) -> Result<Shape, NoMemory>
    ensures { IfOk result (λ s. shape_view s ≡ table_tree columns.now) }
{
    let members = with_member(alloc, Vec::new(alloc), "labels", list(Scalar::Text))?;
    let members = with_member(alloc, members, "value", columns_shape(alloc, columns)?)?;
    structure(alloc, "epics:nt/NTTable:1.0", members)
}

/// The columns of a table.
fn columns_shape(alloc: Global, columns: &[(Name, Scalar)]) -> Result<Shape, NoMemory>
    ensures { IfOk result (λ s. shape_view s ≡ node struct [] (fields_by list_of columns.now)) }
{
    let columns = columns_of(alloc, columns)?;
    structure(alloc, "", columns)
}

/// NTURI: a scheme, a path, and a scalar of the query for each name (EPICS Normative Types 1.0, "NTURI"). A fault is that
/// of the type: an empty name, a name given twice, or more than 4,096 nodes.
pub fn nt_uri(alloc: Global, query: &[(Name, Scalar)]) -> Result<PvType, TypeFault>
    ensures ok { IfOk result (λ ty. (ty ≡ uri_tree query.now) × IsType (uri_tree query.now)) }
    ensures fault { IfErr result (IsFirstFault (uri_tree query.now)) }
{
    let Ok(shape) = uri_shape(alloc, query) else {
        return Err(TypeFault::NoMemory);
    };
    PvType::check(alloc, shape)
}

fn uri_shape(alloc: Global, query: &[(Name, Scalar)]) -> Result<Shape, NoMemory>
    ensures { IfOk result (λ s. shape_view s ≡ uri_tree query.now) }
{
    let members = with_member(alloc, Vec::new(alloc), "scheme", Shape::Plain(Scalar::Text))?;
    let members = with_member(alloc, members, "path", Shape::Plain(Scalar::Text))?;
    let members = with_member(alloc, members, "query", query_shape(alloc, query)?)?;
    structure(alloc, "epics:nt/NTURI:1.0", members)
}

/// The scalars of a query.
fn query_shape(alloc: Global, query: &[(Name, Scalar)]) -> Result<Shape, NoMemory>
    ensures { IfOk result (λ s. shape_view s ≡ node struct [] (fields_by scalar query.now)) }
{
    let fields = scalars_of(alloc, query)?;
    structure(alloc, "", fields)
}

/// The type of a shape that is one.
fn checked(alloc: Global, shape: Shape) -> Result<PvType, TypeFault>
    requires { IsType (shape_view shape) }
    ensures ok { IfOk result (λ ty. ty ≡ shape_view shape) }
    ensures fault { IfErr result (λ f. f ≡ TypeFault.NoMemory) }
{
    match PvType::of_checked(alloc, shape) {
        Ok(ty) => Ok(ty),
        Err(NoMemory) => Err(TypeFault::NoMemory),
    }
}
