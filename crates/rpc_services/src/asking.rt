// What an argument asks of the service.
ghost use Rattle.std.specs.Prelude.{◌≡◌, true, codes, option_map};
ghost use Rattle.pvd_value.specs.Fits.{fits_of};
ghost use Rattle.pvd_value.specs.View.{view};
ghost use Rattle.rpc_services.specs.Operations.{has_id, text_at, text_in, operation_named, operation_text, asked};

use pvd_type::{PvType, Shape};
use pvd_value::{PvValue, leaf};

/// What the service can be asked for.
#[derive(Clone, Copy, Debug, PartialEq, Eq)]
pub enum RpcOp {
    /// `channels`: the names of the channels.
    Channels,
    /// `info`: the version of the service, and how many records and groups there are.
    Info,
    /// `snapshot`: a row for each record.
    Snapshot,
}

/// Why an argument asks for nothing.
#[derive(Clone, Copy, Debug, PartialEq, Eq)]
pub enum RpcRefusal {
    /// It is no structure with the id of an NTURI, or has no text `query.op`.
    NotNturi,
    /// That text names no operation. Names are in lower case.
    UnknownOperation,
}

/// What an argument asks for: the operation that the text of its field `query.op` names, where its type is a structure with
/// the id `epics:nt/NTURI:1.0` (EPICS Normative Types 1.0, "NTURI"). A text with a bound is a text. Other fields, of the
/// query too, may be there or not. It takes no memory.
pub fn operation(argument: &(PvType, PvValue)) -> Result<RpcOp, RpcRefusal>
    requires { fits_of 16 (view argument.now.1) argument.now.0 ≡ true }
    ensures { result ≡ asked argument.now.0 (view argument.now.1) }
{
    let (ty, value) = argument;
    match operation_text(ty, value) {
        Some(name) => operation_of(name),
        None => Err(RpcRefusal::NotNturi),
    }
}

/// The text that names an operation.
fn operation_text<'a>(ty: &PvType, value: &'a PvValue) -> Option<&'a str>
    requires { fits_of 16 (view value.now) ty.now ≡ true }
    ensures { option_map (λ s. s.now) result ≡ operation_text ty.now (view value.now) }
{
    if !is_uri(ty) {
        return None;
    }
    text_below(ty, value, "query.op")
}

/// Whether a type has the id of an NTURI.
fn is_uri(ty: &PvType) -> bool
    ensures { result ≡ has_id (codes "epics:nt/NTURI:1.0") ty.now }
{
    match ty.shape() {
        Shape::Struct(node) => node.id.as_str() == "epics:nt/NTURI:1.0",
        Shape::Plain(_) | Shape::BoundText(_) | Shape::List(_, _) => false,
        Shape::Union(_) | Shape::StructList(_) | Shape::UnionList(_) => false,
        Shape::Variant | Shape::VariantList => false,
    }
}

/// The text of the field with this path.
fn text_below<'a>(ty: &PvType, value: &'a PvValue, path: &str) -> Option<&'a str>
    requires { fits_of 16 (view value.now) ty.now ≡ true }
    ensures { option_map (λ s. s.now) result ≡ text_at path.now ty.now (view value.now) }
{
    let Some(number) = ty.number_of(path) else {
        return None;
    };
    match leaf(value, ty, number) {
        Some(field) => text_of(field),
        None => None,
    }
}

/// The text that a value is.
fn text_of(value: &PvValue) -> Option<&str>
    ensures { option_map (λ s. s.now) result ≡ text_in (view value.now) }
{
    match value {
        PvValue::Text(text) => Some(text.as_str()),
        _ => None,
    }
}

/// The operation with this name.
fn operation_of(name: &str) -> Result<RpcOp, RpcRefusal>
    ensures { result ≡ operation_named name.now }
{
    match name {
        "channels" => Ok(RpcOp::Channels),
        "info" => Ok(RpcOp::Info),
        "snapshot" => Ok(RpcOp::Snapshot),
        _ => Err(RpcRefusal::UnknownOperation),
    }
}
