// The shapes and lists that answers are made of.
ghost use Rattle.std.specs.Prelude.{◌≡◌, IfOk};
ghost use Rattle.pvd_type.specs.Tree.{node, struct};
ghost use Rattle.pvd_type.specs.View.{shape_view, member_view, members_view};
ghost use Rattle.pvd_value.specs.Data.{ints, longs, many, texts};
ghost use Rattle.pvd_value.specs.View.{view};

use pvd_type::{Member, Name, NoMemory, Node, Shape};
use pvd_value::{Items, PvValue};
use std::alloc::Global;

/// A member.
pub(crate) fn member(alloc: Global, name: &str, shape: Shape) -> Result<Member, NoMemory>
    ensures { IfOk result (λ m. member_view m ≡ (name.now, shape_view shape)) }
{
    Ok(Member {
        name: Name::of(alloc, name)?,
        shape,
    })
}

/// A structure.
pub(crate) fn structure(alloc: Global, id: &str, members: Vec<Member>) -> Result<Shape, NoMemory>
    ensures { IfOk result (λ s. shape_view s ≡ node struct id.now (members_view members.items)) }
{
    let id = Name::of(alloc, id)?;
    Ok(Shape::Struct(Node::of(alloc, id, members)?))
}

/// A list of these texts.
pub(crate) fn texts_of(alloc: Global, from: &[Name]) -> Result<PvValue, NoMemory>
    ensures { IfOk result (λ v. view v ≡ many (texts from.now)) }
{
    let mut copies = Vec::with_capacity(alloc, from.len())?;
    for text in from {
        copies.push(text.clone_in(alloc)?)?;
    }
    Ok(PvValue::List(Items::Text(copies)))
}

/// A list of these ints.
pub(crate) fn ints_of(alloc: Global, from: &[i32]) -> Result<PvValue, NoMemory>
    ensures { IfOk result (λ v. view v ≡ many (ints from.now)) }
{
    Ok(PvValue::List(Items::I32(Vec::from_slice(alloc, from)?)))
}

/// A list of these longs.
pub(crate) fn longs_of(alloc: Global, from: &[i64]) -> Result<PvValue, NoMemory>
    ensures { IfOk result (λ v. view v ≡ many (longs from.now)) }
{
    Ok(PvValue::List(Items::I64(Vec::from_slice(alloc, from)?)))
}
