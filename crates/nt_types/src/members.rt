// The members of a type.
ghost use Rattle.std.specs.Prelude.{◌≡◌, option_map};
ghost use Rattle.pvd_type.specs.View.{shape_view, members_view};
ghost use Rattle.pvd_type.specs.Tree.{leaf, plain};
ghost use Rattle.pvd_type.specs.Tree as tree;
ghost use Rattle.pvd_type.specs.Same.{same_tree};
ghost use Rattle.nt_types.specs.Kinds.{member_named, some_tree, is_scalar, is_text, is_list, is_texts, is_choice, all_lists, is_columns};

use pvd_type::{Member, Scalar, Shape};

/// The shape of the member of this name.
fn shape_named<'a>(members: &'a [Member], name: &str) -> Option<&'a Shape>
    ensures { option_map (λ s. shape_view s.now) result ≡ member_named name.now (members_view members.now) }
{
    for member in members {
        if member.name.as_str() == name {
            return Some(&member.shape);
        }
    }
    None
}

/// Whether a member of this name is a scalar.
pub(crate) fn has_scalar(members: &[Member], name: &str) -> bool
    ensures { result ≡ some_tree is_scalar (member_named name.now (members_view members.now)) }
{
    match shape_named(members, name) {
        Some(shape) => shape_is_scalar(shape),
        None => false,
    }
}

fn shape_is_scalar(shape: &Shape) -> bool
    ensures { result ≡ is_scalar (shape_view shape.now) }
{
    match shape {
        Shape::Plain(_) | Shape::BoundText(_) => true,
        Shape::List(_, _) | Shape::Struct(_) => false,
        Shape::Union(_) | Shape::StructList(_) | Shape::UnionList(_) => false,
        Shape::Variant | Shape::VariantList => false,
    }
}

/// Whether a member of this name is a list of scalars.
pub(crate) fn has_list(members: &[Member], name: &str) -> bool
    ensures { result ≡ some_tree is_list (member_named name.now (members_view members.now)) }
{
    match shape_named(members, name) {
        Some(shape) => shape_is_list(shape),
        None => false,
    }
}

fn shape_is_list(shape: &Shape) -> bool
    ensures { result ≡ is_list (shape_view shape.now) }
{
    match shape {
        Shape::List(_, _) => true,
        Shape::Plain(_) | Shape::BoundText(_) | Shape::Struct(_) => false,
        Shape::Union(_) | Shape::StructList(_) | Shape::UnionList(_) => false,
        Shape::Variant | Shape::VariantList => false,
    }
}

/// Whether a member of this name is a text.
pub(crate) fn has_text(members: &[Member], name: &str) -> bool
    ensures { result ≡ some_tree is_text (member_named name.now (members_view members.now)) }
{
    match shape_named(members, name) {
        Some(shape) => shape_is_text(shape),
        None => false,
    }
}

fn shape_is_text(shape: &Shape) -> bool
    ensures { result ≡ is_text (shape_view shape.now) }
{
    match shape {
        Shape::Plain(scalar) => *scalar == Scalar::Text,
        Shape::BoundText(_) => true,
        Shape::List(_, _) | Shape::Struct(_) => false,
        Shape::Union(_) | Shape::StructList(_) | Shape::UnionList(_) => false,
        Shape::Variant | Shape::VariantList => false,
    }
}

/// Whether a member of this name is a list of texts.
pub(crate) fn has_texts(members: &[Member], name: &str) -> bool
    ensures { result ≡ some_tree is_texts (member_named name.now (members_view members.now)) }
{
    match shape_named(members, name) {
        Some(shape) => shape_is_texts(shape),
        None => false,
    }
}

fn shape_is_texts(shape: &Shape) -> bool
    ensures { result ≡ is_texts (shape_view shape.now) }
{
    match shape {
        Shape::List(scalar, _) => *scalar == Scalar::Text,
        Shape::Plain(_) | Shape::BoundText(_) | Shape::Struct(_) => false,
        Shape::Union(_) | Shape::StructList(_) | Shape::UnionList(_) => false,
        Shape::Variant | Shape::VariantList => false,
    }
}

/// Whether a member of this name is an index and its choices.
pub(crate) fn has_choice(members: &[Member], name: &str) -> bool
    ensures { result ≡ some_tree is_choice (member_named name.now (members_view members.now)) }
{
    match shape_named(members, name) {
        Some(shape) => shape_is_choice(shape),
        None => false,
    }
}

fn shape_is_choice(shape: &Shape) -> bool
    ensures { result ≡ is_choice (shape_view shape.now) }
{
    match shape {
        Shape::Struct(node) => names_choice(node.id.as_str(), &node.members),
        Shape::Plain(_) | Shape::BoundText(_) | Shape::List(_, _) => false,
        Shape::Union(_) | Shape::StructList(_) | Shape::UnionList(_) => false,
        Shape::Variant | Shape::VariantList => false,
    }
}

/// Whether a structure is an index and its choices.
fn names_choice(id: &str, members: &[Member]) -> bool
    ensures { result ≡ is_choice (tree.node tree.struct id.now (members_view members.now)) }
{
    match members {
        [index, choices] => {
            id == "enum_t"
                && index.name.as_str() == "index"
                && shape_is_int(&index.shape)
                && choices.name.as_str() == "choices"
                && shape_is_texts(&choices.shape)
        }
        _ => false,
    }
}

fn shape_is_int(shape: &Shape) -> bool
    ensures { result ≡ same_tree (shape_view shape.now) (leaf (plain Scalar.I32)) }
{
    match shape {
        Shape::Plain(scalar) => *scalar == Scalar::I32,
        Shape::BoundText(_) | Shape::List(_, _) | Shape::Struct(_) => false,
        Shape::Union(_) | Shape::StructList(_) | Shape::UnionList(_) => false,
        Shape::Variant | Shape::VariantList => false,
    }
}

/// Whether a member of this name is a structure of lists of scalars, without an id.
pub(crate) fn has_columns(members: &[Member], name: &str) -> bool
    ensures { result ≡ some_tree is_columns (member_named name.now (members_view members.now)) }
{
    match shape_named(members, name) {
        Some(shape) => shape_is_columns(shape),
        None => false,
    }
}

fn shape_is_columns(shape: &Shape) -> bool
    ensures { result ≡ is_columns (shape_view shape.now) }
{
    match shape {
        Shape::Struct(node) => names_columns(node.id.as_str(), &node.members),
        Shape::Plain(_) | Shape::BoundText(_) | Shape::List(_, _) => false,
        Shape::Union(_) | Shape::StructList(_) | Shape::UnionList(_) => false,
        Shape::Variant | Shape::VariantList => false,
    }
}

/// Whether a structure is one of lists of scalars, without an id.
fn names_columns(id: &str, members: &[Member]) -> bool
    ensures { result ≡ is_columns (tree.node tree.struct id.now (members_view members.now)) }
{
    if !id.is_empty() {
        return false;
    }
    all_are_lists(members)
}

/// Whether each member is a list of scalars.
fn all_are_lists(members: &[Member]) -> bool
    ensures { result ≡ all_lists (members_view members.now) }
{
    for member in members {
        if !shape_is_list(&member.shape) {
            return false;
        }
    }
    true
}
