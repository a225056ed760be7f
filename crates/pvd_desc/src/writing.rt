ghost use Rattle.std.specs.Prelude.{◌≡◌, ◌++◌, ◌∷◌, [], length, OnOk, OnErr};
ghost use Rattle.std.specs.Option.{option_copied};
ghost use Rattle.pva_wire.specs.Spelling.{IsSize, canonical_size, canonical_text};
ghost use Rattle.pvd_type.specs.Tree.{count_fields};
ghost use Rattle.pvd_type.specs.Tree as tree;
ghost use Rattle.pvd_type.specs.View.{shape_view, node_view, members_view};
ghost use Rattle.pvd_desc.specs.Grammar.{CanSpell, CanSpellFields, CanDesc, CanLeaf, canonical_desc, written, written_fields, written_leaf};

use crate::code::scalar_code;
use pva_wire::{Order, write_size, write_text};
use pvd_type::{Extent, Member, NoMemory, Node, PvType, Scalar, Shape};

/// Appends a code and the bound of a list or a text, which takes at most 2^31-2.
fn put_sized(out: &mut Vec<u8>, order: Order, code: u8, size: u32) -> Result<(), NoMemory>
    ensures written { OnOk result (out.new.items ≡ out.old.items ++ (code ∷ canonical_size order size)) }
    ensures spelled { OnOk result (IsSize size) }
{
    out.push(code)?;
    write_size(out, order, size)?;
    Ok(())
}

/// Appends a code alone.
fn put_code(out: &mut Vec<u8>, code: u8) -> Result<(), NoMemory>
    ensures { OnOk result (out.new.items ≡ out.old.items ++ code ∷ []) }
{
    out.push(code)?;
    Ok(())
}

/// Appends the description of a list of scalars.
fn put_list(out: &mut Vec<u8>, order: Order, scalar: Scalar, extent: Extent) -> Result<(), NoMemory>
    ensures written { OnOk result (out.new.items ≡ out.old.items ++ written_leaf order (tree.list scalar extent)) }
    ensures spelled { OnOk result (CanLeaf (tree.list scalar extent)) }
{
    let code = scalar_code(scalar);
    match extent {
        Extent::Variable => put_code(out, code + 0x08),
        Extent::Bounded(size) => put_sized(out, order, code + 0x10, size),
        Extent::Fixed(size) => put_sized(out, order, code + 0x18, size),
    }
}

/// Appends how many members a node has.
fn put_count(out: &mut Vec<u8>, order: Order, count: usize) -> Result<(), NoMemory>
    ensures written { OnOk result (out.new.items ≡ out.old.items ++ canonical_size order count) }
    ensures spelled { OnOk result (IsSize count) }
{
    let Ok(size) = u32::try_from(count) else {
        return Err(NoMemory);
    };
    write_size(out, order, size)
}

/// Appends the description of a node and of all below it. After a refusal a part of it may stand.
#[cycle(put)]
fn put(out: &mut Vec<u8>, order: Order, shape: &Shape) -> Result<(), NoMemory>
    ensures written { OnOk result (out.new.items ≡ out.old.items ++ written order (shape_view shape.now)) }
    ensures spelled { OnOk result (CanSpell (shape_view shape.now)) }
{
    match shape {
        Shape::Plain(scalar) => put_code(out, scalar_code(*scalar)),
        Shape::BoundText(bound) => put_sized(out, order, 0x83, *bound),
        Shape::List(scalar, extent) => put_list(out, order, *scalar, *extent),
        Shape::Struct(node) => put_node(out, order, &[0x80], node),
        Shape::Union(node) => put_node(out, order, &[0x81], node),
        Shape::StructList(node) => put_node(out, order, &[0x88, 0x80], node),
        Shape::UnionList(node) => put_node(out, order, &[0x89, 0x81], node),
        Shape::Variant => put_code(out, 0x82),
        Shape::VariantList => put_code(out, 0x8A),
    }
}

/// Appends the codes of a node and what stands in it: the id, the count of the members and each of them.
#[cycle(put)]
fn put_node(out: &mut Vec<u8>, order: Order, codes: &[u8], node: &Node) -> Result<(), NoMemory>
    ensures written { OnOk result (out.new.items ≡ out.old.items ++ (codes.now ++ (canonical_text order (node_view node.now).0 ++ (canonical_size order (count_fields (node_view node.now).1) ++ written_fields order (node_view node.now).1)))) }
    ensures spelled { OnOk result (CanSpell (tree.node tree.struct (node_view node.now).0 (node_view node.now).1)) }
{
    out.extend_from_slice(codes)?;
    write_text(out, order, &node.id)?;
    put_count(out, order, node.members.len())?;
    put_members(out, order, &node.members)?;
    Ok(())
}

/// Appends the names and the descriptions of members, one after another.
#[cycle(put)]
fn put_members(out: &mut Vec<u8>, order: Order, members: &[Member]) -> Result<(), NoMemory>
    ensures written { OnOk result (out.new.items ≡ out.old.items ++ written_fields order (members_view members.now)) }
    ensures spelled { OnOk result (CanSpellFields (members_view members.now)) }
{
    for member in members {
        write_text(out, order, &member.name)?;
        put(out, order, &member.shape)?;
    }
    Ok(())
}

/// Appends the whole description of a type, or the null description (pvAccess Protocol Specification,
/// "Introspection Data"). A size or a text without a spelling, above 2^31-2, is NoMemory. After a
/// refusal `out` is as before.
pub fn write_desc(out: &mut Vec<u8>, order: Order, ty: Option<&PvType>) -> Result<(), NoMemory>
    ensures ok { OnOk result (out.new.items ≡ out.old.items ++ canonical_desc order (option_copied ty.entry)) }
    ensures spelled { OnOk result (CanDesc (option_copied ty.entry)) }
    ensures err { OnErr result (out.new.items ≡ out.old.items) }
{
    let Some(ty) = ty else {
        out.push(0xFF)?;
        return Ok(());
    };
    let mut bytes = Vec::new(*out.allocator());
    put(&mut bytes, order, ty.shape())?;
    out.extend_from_slice(&bytes)?;
    Ok(())
}
