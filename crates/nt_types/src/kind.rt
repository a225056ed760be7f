// Which Normative Type a type is.
ghost use Rattle.std.specs.Prelude.{◌≡◌};
ghost use Rattle.pvd_type.specs.View.{members_view};
ghost use Rattle.pvd_type.specs.Tree as tree;
ghost use Rattle.nt_types.specs.Kinds.{recognised, has_members, kind_with_id};

use crate::members::{has_choice, has_columns, has_list, has_scalar, has_text, has_texts};
use pvd_type::{Member, PvType, Shape};

/// The Normative Types that are known here (EPICS Normative Types 1.0).
#[derive(Clone, Copy, Debug, PartialEq, Eq)]
pub enum NtKind {
    /// A scalar.
    NtScalar,
    /// A list of scalars.
    NtScalarArray,
    /// An index and its choices.
    NtEnum,
    /// Columns.
    NtTable,
    /// A URI with a query.
    NtUri,
}

/// Which Normative Type a type is; none exactly where the root's id is none of the five, or a member that must be there
/// isn't or is another: a scalar `value` of NTScalar, a list of scalars of NTScalarArray, the structure `enum_t` of NTEnum;
/// texts `labels` and a structure `value` of lists, without an id, of NTTable; a text `scheme` and a text `path` of NTURI. A
/// text with a bound is a text, and a list may be of any number, of at most so many or of so many. Other members, `query`
/// among them, may be there or not (EPICS Normative Types 1.0).
pub fn kind_of(ty: &PvType) -> Option<NtKind>
    ensures { result ≡ recognised ty.now }
{
    match ty.shape() {
        Shape::Struct(node) => kind_by(node.id.as_str(), &node.members),
        Shape::Plain(_) | Shape::BoundText(_) | Shape::List(_, _) => None,
        Shape::Union(_) | Shape::StructList(_) | Shape::UnionList(_) => None,
        Shape::Variant | Shape::VariantList => None,
    }
}

fn kind_by(id: &str, members: &[Member]) -> Option<NtKind>
    ensures { result ≡ recognised (tree.node tree.struct id.now (members_view members.now)) }
{
    let kind = kind_named_by(id)?;
    if has_members_of(kind, members) {
        Some(kind)
    } else {
        None
    }
}

/// The kind that an id names.
fn kind_named_by(id: &str) -> Option<NtKind>
    ensures { result ≡ kind_with_id id.now }
{
    match id {
        "epics:nt/NTScalar:1.0" => Some(NtKind::NtScalar),
        "epics:nt/NTScalarArray:1.0" => Some(NtKind::NtScalarArray),
        "epics:nt/NTEnum:1.0" => Some(NtKind::NtEnum),
        "epics:nt/NTTable:1.0" => Some(NtKind::NtTable),
        "epics:nt/NTURI:1.0" => Some(NtKind::NtUri),
        _ => None,
    }
}

/// Whether the members that a kind must have are there.
fn has_members_of(kind: NtKind, members: &[Member]) -> bool
    ensures { result ≡ has_members kind (members_view members.now) }
{
    match kind {
        NtKind::NtScalar => has_scalar(members, "value"),
        NtKind::NtScalarArray => has_list(members, "value"),
        NtKind::NtEnum => has_choice(members, "value"),
        NtKind::NtTable => has_texts(members, "labels") && has_columns(members, "value"),
        NtKind::NtUri => has_text(members, "scheme") && has_text(members, "path"),
    }
}
