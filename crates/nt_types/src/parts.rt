// The shapes that Normative Types are made of.
ghost use Rattle.std.specs.Prelude.{◌≡◌, ◌∷◌, ◌++◌, [], IfOk};
ghost use Rattle.pvd_type.specs.Tree.{node, struct};
ghost use Rattle.pvd_type.specs.View.{shape_view, member_view, members_view};
ghost use Rattle.nt_types.specs.Types.{alarm_tree, time_tree, enum_value, with_meta, at_end, fields_by, list_of, scalar};

use pvd_type::{Extent, Member, Name, NoMemory, Node, Scalar, Shape};
use std::alloc::Global;

/// A member.
pub(crate) fn member(alloc: Global, name: &str, shape: Shape) -> Result<Member, NoMemory>
    ensures { IfOk result (λ m. member_view m ≡ (name.now, shape_view shape)) }
{
    Ok(Member {
        name: Name::of(alloc, name)?,
        shape,
    })
}

/// Lets go the members of a type that isn't made.
fn discard<T: Drop>(_made: T) {}

/// A list with one more element behind it.
fn pushed<T: Drop>(items: Vec<T>, item: T) -> Result<Vec<T>, NoMemory>
    ensures { IfOk result (λ v. v.items ≡ items.items ++ item ∷ []) }
{
    let mut items = items;
    items.push(item)?;
    Ok(items)
}

/// Members, and one more behind them.
pub(crate) fn with_member(
    alloc: Global,
    members: Vec<Member>,
    name: &str,
    shape: Shape,
) -> Result<Vec<Member>, NoMemory>
    ensures { IfOk result (λ ms. members_view ms.items ≡ at_end (members_view members.items) (name.now, shape_view shape)) }
{
    match member(alloc, name, shape) {
        Ok(member) => pushed(members, member),
        Err(NoMemory) => {
            discard(members);
            Err(NoMemory)
        }
    }
}

/// A structure.
pub(crate) fn structure(alloc: Global, id: &str, members: Vec<Member>) -> Result<Shape, NoMemory>
    ensures { IfOk result (λ s. shape_view s ≡ node struct id.now (members_view members.items)) }
{
    let id = Name::of(alloc, id)?;
    Ok(Shape::Struct(Node::of(alloc, id, members)?))
}

/// A list of any number of scalars.
pub(crate) fn list(scalar: Scalar) -> Shape
    ensures { shape_view result ≡ list_of scalar }
{
    Shape::List(scalar, Extent::Variable)
}

/// An alarm, `alarm_t` (EPICS Normative Types 1.0, "alarm_t"): a severity, a status and a message.
pub fn alarm(alloc: Global) -> Result<Shape, NoMemory>
    ensures { IfOk result (λ s. shape_view s ≡ alarm_tree) }
{
    let members = with_member(
        alloc,
        Vec::new(alloc),
        "severity",
        Shape::Plain(Scalar::I32),
    )?;
    let members = with_member(alloc, members, "status", Shape::Plain(Scalar::I32))?;
    let members = with_member(alloc, members, "message", Shape::Plain(Scalar::Text))?;
    structure(alloc, "alarm_t", members)
}

/// A time stamp, `time_t` (EPICS Normative Types 1.0, "time_t"): seconds past the epoch, nanoseconds and a tag.
pub fn time(alloc: Global) -> Result<Shape, NoMemory>
    ensures { IfOk result (λ s. shape_view s ≡ time_tree) }
{
    let members = with_member(
        alloc,
        Vec::new(alloc),
        "secondsPastEpoch",
        Shape::Plain(Scalar::I64),
    )?;
    let members = with_member(alloc, members, "nanoseconds", Shape::Plain(Scalar::I32))?;
    let members = with_member(alloc, members, "userTag", Shape::Plain(Scalar::I32))?;
    structure(alloc, "time_t", members)
}

/// An index and the choices that it is of.
pub(crate) fn choice(alloc: Global) -> Result<Shape, NoMemory>
    ensures { IfOk result (λ s. shape_view s ≡ enum_value) }
{
    let members = with_member(alloc, Vec::new(alloc), "index", Shape::Plain(Scalar::I32))?;
    let members = with_member(alloc, members, "choices", list(Scalar::Text))?;
    structure(alloc, "enum_t", members)
}

/// A structure of a value, its alarm and its time stamp.
pub(crate) fn with_meta_of(alloc: Global, id: &str, value: Shape) -> Result<Shape, NoMemory>
    ensures { IfOk result (λ s. shape_view s ≡ with_meta id.now (shape_view value)) }
{
    let members = with_member(alloc, Vec::new(alloc), "value", value)?;
    let members = with_member(alloc, members, "alarm", alarm(alloc)?)?;
    let members = with_member(alloc, members, "timeStamp", time(alloc)?)?;
    structure(alloc, id, members)
}

/// A member for each name, a list of scalars.
pub(crate) fn columns_of(alloc: Global, columns: &[(Name, Scalar)]) -> Result<Vec<Member>, NoMemory>
    ensures { IfOk result (λ ms. members_view ms.items ≡ fields_by list_of columns.now) }
{
    let mut members = Vec::with_capacity(alloc, columns.len())?;
    for column in columns {
        members = with_column(alloc, members, column)?;
    }
    Ok(members)
}

/// A member for each name, a scalar.
pub(crate) fn scalars_of(alloc: Global, query: &[(Name, Scalar)]) -> Result<Vec<Member>, NoMemory>
    ensures { IfOk result (λ ms. members_view ms.items ≡ fields_by scalar query.now) }
{
    let mut members = Vec::with_capacity(alloc, query.len())?;
    for field in query {
        members = with_scalar(alloc, members, field)?;
    }
    Ok(members)
}

fn with_column(
    alloc: Global,
    members: Vec<Member>,
    column: &(Name, Scalar),
) -> Result<Vec<Member>, NoMemory>
    ensures { IfOk result (λ ms. members_view ms.items ≡ at_end (members_view members.items) (column.now.0, list_of column.now.1)) }
{
    with_member(alloc, members, column.0.as_str(), list(column.1))
}

fn with_scalar(
    alloc: Global,
    members: Vec<Member>,
    field: &(Name, Scalar),
) -> Result<Vec<Member>, NoMemory>
    ensures { IfOk result (λ ms. members_view ms.items ≡ at_end (members_view members.items) (field.now.0, scalar field.now.1)) }
{
    with_member(alloc, members, field.0.as_str(), Shape::Plain(field.1))
}
