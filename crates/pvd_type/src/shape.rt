ghost use Rattle.std.specs.Prelude.{◌≡◌, IfOk};
ghost use Rattle.std.specs.Arc.{arc_value};
ghost use Rattle.pvd_type.specs.View.{shape_view, node_view, members_view};

use crate::memory::NoMemory;
use crate::name::Name;
use std::alloc::Global;
use std::sync::Arc;

/// The type of one scalar. pvData Meta Language, "Scalars".
#[derive(Clone, Copy, Debug, PartialEq, Eq)]
pub enum Scalar {
    /// `boolean`.
    Bool,
    /// `byte`.
    I8,
    /// `short`.
    I16,
    /// `int`.
    I32,
    /// `long`.
    I64,
    /// `ubyte`.
    U8,
    /// `ushort`.
    U16,
    /// `uint`.
    U32,
    /// `ulong`.
    U64,
    /// `float`, carried as its bit pattern.
    F32,
    /// `double`, carried as its bit pattern.
    F64,
    /// `string`.
    Text,
}

/// How many elements a list of scalars has.
#[derive(Clone, Copy, Debug, PartialEq, Eq)]
pub enum Extent {
    /// Any number.
    Variable,
    /// At most so many.
    Bounded(u32),
    /// Exactly so many.
    Fixed(u32),
}

/// A type as a caller writes it down, not yet checked. pvData Meta Language, "pvData types".
///
/// A node is shared by the shapes that have it below them, so that a copy of a shape copies no name and no member.
#[cycle(shape)]
#[derive(Drop)]
pub enum Shape {
    /// One scalar.
    Plain(Scalar),
    /// A text of at most so many bytes.
    BoundText(u32),
    /// A list of scalars.
    List(Scalar, Extent),
    /// A structure: a value for each member, in order.
    Struct(Arc<Node>),
    /// A union: the value of one of the members, or none.
    Union(Arc<Node>),
    /// A list of structures, each of which may be null.
    StructList(Arc<Node>),
    /// A list of unions, each of which may be null.
    UnionList(Arc<Node>),
    /// A value that brings its own type, or none.
    Variant,
    /// A list of variants, each of which may be null.
    VariantList,
}

/// The id of a structure or a union, which may be empty, and its members in order.
#[cycle(shape)]
#[derive(Drop)]
pub struct Node {
    pub id: Name,
    pub members: Vec<Member>,
}

/// A member of a structure or a union.
#[cycle(shape)]
#[derive(Drop)]
pub struct Member {
    pub name: Name,
    pub shape: Shape,
}

impl Shape {
    /// A copy of the shape, which shares its nodes. `NoMemory` is answered only where 2^63 - 1 shapes share one node.
    pub fn clone_in(&self, _alloc: Global) -> Result<Shape, NoMemory>
        ensures { IfOk result (λ s. shape_view s ≡ shape_view self.now) }
    {
        match self {
            Shape::Plain(scalar) => Ok(Shape::Plain(*scalar)),
            Shape::BoundText(bound) => Ok(Shape::BoundText(*bound)),
            Shape::List(scalar, extent) => Ok(Shape::List(*scalar, *extent)),
            Shape::Struct(node) => Ok(Shape::Struct(Arc::try_clone(node)?)),
            Shape::Union(node) => Ok(Shape::Union(Arc::try_clone(node)?)),
            Shape::StructList(node) => Ok(Shape::StructList(Arc::try_clone(node)?)),
            Shape::UnionList(node) => Ok(Shape::UnionList(Arc::try_clone(node)?)),
            Shape::Variant => Ok(Shape::Variant),
            Shape::VariantList => Ok(Shape::VariantList),
        }
    }
}

impl Node {
    /// A node with this id and these members, in memory that shapes share.
    pub fn of(alloc: Global, id: Name, members: Vec<Member>) -> Result<Arc<Node>, NoMemory>
        ensures { IfOk result (λ n. node_view (arc_value n) ≡ (id, members_view members.items)) }
    {
        Ok(Arc::new(alloc, Node { id, members })?)
    }
}
