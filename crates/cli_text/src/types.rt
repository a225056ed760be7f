ghost use Rattle.std.specs.Prelude.{◌≡◌, ◌++◌, ◌∷◌, [], false, IfOk, OnOk, OnErr};
ghost use Rattle.std.specs.Fmt.{decimal};
ghost use Rattle.pvd_type.specs.View.{shape_view, members_view};
ghost use Rattle.cli_text.specs.Lines.{path_to, line, bound_text_name, scalar_name, extent_text, id_text, type_name, nodes_below, nodes_among, type_text};

use crate::lines::{go_down, print_path};
use crate::scalars::print_number;
use pvd_type::{Extent, Member, Name, NoMemory, PvType, Scalar, Shape};
use std::alloc::Global;

/// Appends one line for each node of the type but the root, in the order of the nodes' numbers: path, a space and the name of
/// its type. Without memory `out` is as before.
pub fn print_type(alloc: Global, out: &mut Vec<u8>, ty: &PvType) -> Result<(), NoMemory>
    ensures ok { OnOk result (out.new.items ≡ out.old.items ++ type_text ty.now) }
    ensures err { OnErr result (out.new.items ≡ out.old.items) }
{
    let text = type_lines(alloc, ty)?;
    out.extend_from_slice(&text)?;
    Ok(())
}

/// The lines of the nodes but the root.
fn type_lines(alloc: Global, ty: &PvType) -> Result<Vec<u8>, NoMemory>
    ensures { IfOk result (λ text. text.items ≡ type_text ty.now) }
{
    let mut text = Vec::new(alloc);
    let mut path = Vec::new(alloc);
    print_below(ty.shape(), &mut path, &mut text)?;
    Ok(text)
}

/// Appends the lines of the nodes below the node with this path.
#[cycle(nodes)]
fn print_below(shape: &Shape, path: &mut Vec<u8>, out: &mut Vec<u8>) -> Result<(), NoMemory>
    ensures lines { OnOk result (out.new.items ≡ out.old.items ++ nodes_below path.old.items (shape_view shape.now)) }
    ensures path { OnOk result (path.new.items ≡ path.old.items) }
{
    match shape {
        Shape::Struct(node) => print_nodes(&node.members, path, out),
        _ => Ok(()),
    }
}

/// Appends the lines of the members of the node with this path, and of the nodes below them.
#[cycle(nodes)]
fn print_nodes(members: &[Member], path: &mut Vec<u8>, out: &mut Vec<u8>) -> Result<(), NoMemory>
    ensures lines { OnOk result (out.new.items ≡ out.old.items ++ nodes_among path.old.items (members_view members.now)) }
    ensures path { OnOk result (path.new.items ≡ path.old.items) }
{
    for i in 0..members.len() {
        print_node(&members[i], path, out)?;
    }
    Ok(())
}

/// Appends the line of a member of the node with this path, and those of the nodes below it.
#[cycle(nodes)]
fn print_node(member: &Member, path: &mut Vec<u8>, out: &mut Vec<u8>) -> Result<(), NoMemory>
    ensures lines { OnOk result (out.new.items ≡ out.old.items ++ (line (path_to path.old.items member.now.name) (type_name (shape_view member.now.shape)) false ++ nodes_below (path_to path.old.items member.now.name) (shape_view member.now.shape))) }
    ensures path { OnOk result (path.new.items ≡ path.old.items) }
{
    let length = path.len();
    go_down(path, member.name.as_str())?;
    print_line(&member.shape, path, out)?;
    print_below(&member.shape, path, out)?;
    path.truncate(length);
    Ok(())
}

/// Appends the line of a node: its path and the name of its type.
fn print_line(shape: &Shape, path: &[u8], out: &mut Vec<u8>) -> Result<(), NoMemory>
    ensures { OnOk result (out.new.items ≡ out.old.items ++ line path.now (type_name (shape_view shape.now)) false) }
{
    print_path(path, b' ', out)?;
    print_type_name(shape, out)?;
    out.push(b'\n')?;
    Ok(())
}

/// Appends the name of a type.
fn print_type_name(shape: &Shape, out: &mut Vec<u8>) -> Result<(), NoMemory>
    ensures { OnOk result (out.new.items ≡ out.old.items ++ type_name (shape_view shape.now)) }
{
    match shape {
        Shape::Plain(scalar) => append(out, name_of(*scalar)),
        Shape::BoundText(bound) => print_bound_text(*bound, out),
        Shape::List(scalar, extent) => print_list_name(*scalar, *extent, out),
        Shape::Struct(node) => print_with_id("structure", &node.id, out),
        Shape::Union(node) => print_with_id("union", &node.id, out),
        Shape::StructList(node) => print_with_id("structure[]", &node.id, out),
        Shape::UnionList(node) => print_with_id("union[]", &node.id, out),
        Shape::Variant => append(out, "any"),
        Shape::VariantList => append(out, "any[]"),
    }
}

/// Appends a text.
fn append(out: &mut Vec<u8>, text: &str) -> Result<(), NoMemory>
    ensures { OnOk result (out.new.items ≡ out.old.items ++ text.now) }
{
    out.extend_from_slice(text.as_bytes())?;
    Ok(())
}

/// Appends the name of a text of at most so many bytes.
fn print_bound_text(bound: u32, out: &mut Vec<u8>) -> Result<(), NoMemory>
    ensures { OnOk result (out.new.items ≡ out.old.items ++ bound_text_name bound) }
{
    append(out, "string(<=")?;
    print_number(out, bound)?;
    append(out, ")")
}

/// Appends the name of a list of scalars.
fn print_list_name(scalar: Scalar, extent: Extent, out: &mut Vec<u8>) -> Result<(), NoMemory>
    ensures { OnOk result (out.new.items ≡ out.old.items ++ (scalar_name scalar ++ extent_text extent)) }
{
    append(out, name_of(scalar))?;
    print_extent(extent, out)
}

/// Appends how many elements a list has.
fn print_extent(extent: Extent, out: &mut Vec<u8>) -> Result<(), NoMemory>
    ensures { OnOk result (out.new.items ≡ out.old.items ++ extent_text extent) }
{
    match extent {
        Extent::Variable => append(out, "[]"),
        Extent::Bounded(bound) => print_count("[<=", bound, out),
        Extent::Fixed(size) => print_count("[", size, out),
    }
}

/// Appends a count in brackets, of which the first is given.
fn print_count(front: &str, count: u32, out: &mut Vec<u8>) -> Result<(), NoMemory>
    ensures { OnOk result (out.new.items ≡ out.old.items ++ (front.now ++ (decimal count ++ 93 ∷ []))) }
{
    append(out, front)?;
    print_number(out, count)?;
    out.push(b']')?;
    Ok(())
}

/// Appends the name of a kind of type with an id, and the id where there is one.
#[tactic(auto, using(crate::proofs::LineParts::id_none, crate::proofs::LineParts::id_some))]
fn print_with_id(kind: &str, id: &Name, out: &mut Vec<u8>) -> Result<(), NoMemory>
    ensures { OnOk result (out.new.items ≡ out.old.items ++ (kind.now ++ id_text id.now)) }
{
    append(out, kind)?;
    let id = id.as_str();
    if id.is_empty() {
        return Ok(());
    }
    out.push(b' ')?;
    append(out, id)
}

/// The name of a scalar type. pvData Meta Language, "Scalars".
fn name_of(scalar: Scalar) -> &'static str
    ensures { result.now ≡ scalar_name scalar }
{
    match scalar {
        Scalar::Bool => "boolean",
        Scalar::I8 => "byte",
        Scalar::I16 => "short",
        Scalar::I32 => "int",
        Scalar::I64 => "long",
        Scalar::U8 => "ubyte",
        Scalar::U16 => "ushort",
        Scalar::U32 => "uint",
        Scalar::U64 => "ulong",
        Scalar::F32 => "float",
        Scalar::F64 => "double",
        Scalar::Text => "string",
    }
}
