ghost use Rattle.std.specs.Prelude.{◌≡◌, ◌&&◌};
ghost use Rattle.std.specs.Str.{bytes_eq};
ghost use Rattle.pvd_type.specs.View.{shape_view, node_view, member_view, members_view};
ghost use Rattle.pvd_type.specs.Same.{same_tree, same_fields};

use crate::shape::{Member, Node, Shape};

/// Whether two shapes are the same in every part.
#[cycle(same)]
pub fn same_shape(a: &Shape, b: &Shape) -> bool
    ensures { result ≡ same_tree (shape_view a.now) (shape_view b.now) }
{
    match (a, b) {
        (Shape::Plain(s), Shape::Plain(t)) => s == t,
        (Shape::BoundText(m), Shape::BoundText(n)) => m == n,
        (Shape::List(s, e), Shape::List(t, f)) => s == t && e == f,
        (Shape::Struct(x), Shape::Struct(y)) => same_node(x, y),
        (Shape::Union(x), Shape::Union(y)) => same_node(x, y),
        (Shape::StructList(x), Shape::StructList(y)) => same_node(x, y),
        (Shape::UnionList(x), Shape::UnionList(y)) => same_node(x, y),
        (Shape::Variant, Shape::Variant) => true,
        (Shape::VariantList, Shape::VariantList) => true,
        _ => false,
    }
}

#[cycle(same)]
fn same_node(a: &Node, b: &Node) -> bool
    ensures { result ≡ (bytes_eq (node_view a.now).0 (node_view b.now).0 && same_fields (node_view a.now).1 (node_view b.now).1) }
{
    a.id.as_str() == b.id.as_str() && same_members(&a.members, &b.members)
}

#[cycle(same)]
fn same_member(a: &Member, b: &Member) -> bool
    ensures { result ≡ (bytes_eq (member_view a.now).0 (member_view b.now).0 && same_tree (member_view a.now).1 (member_view b.now).1) }
{
    a.name == b.name && same_shape(&a.shape, &b.shape)
}

#[cycle(same)]
fn same_members(a: &[Member], b: &[Member]) -> bool
    ensures { result ≡ same_fields (members_view a.now) (members_view b.now) }
{
    if a.len() != b.len() {
        return false;
    }
    for i in 0..a.len() {
        if !same_member(&a[i], &b[i]) {
            return false;
        }
    }
    true
}
