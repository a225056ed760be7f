ghost use Rattle.std.specs.Prelude.{◌≡◌, ◌++◌, ◌+◌, ◌≤◌, ℕ, [], true, length, IfOk, OnOk, OnErr};
ghost use Rattle.std.specs.FinSet as set;
ghost use Rattle.pvd_type.specs.View.{shape_view, members_view, member_view};
ghost use Rattle.pvd_type.specs.Numbers.{numbered, numbered_fields};
ghost use Rattle.pvd_value.specs.View.{view, row_view};
ghost use Rattle.pvd_value.specs.Fits.{fits_of, row_fits};
ghost use Rattle.cli_text.specs.Lines.{followed, path_to, line, leaf_line, lines_of, lines_among, part_text};

use crate::values::print_value;
use pvd_type::{BitSet, Member, NoMemory, PvType, Shape};
use pvd_value::PvValue;
use std::alloc::Global;

/// Appends one line for each leaf that the mask has, in the order of the leaves' numbers: path, a space and the text of its
/// value, and ` overrun` for a leaf that the other set has too. The value fits the type. Without memory `out` is as before.
pub fn print_part(
    alloc: Global,
    out: &mut Vec<u8>,
    ty: &PvType,
    mask: &BitSet,
    overrun: &BitSet,
    value: &PvValue,
) -> Result<(), NoMemory>
    requires fits { fits_of 16 (view value.now) ty.now ≡ true }
    ensures ok { OnOk result (out.new.items ≡ out.old.items ++ part_text mask.now overrun.now ty.now (view value.now)) }
    ensures err { OnErr result (out.new.items ≡ out.old.items) }
{
    let text = part_lines(alloc, ty, mask, overrun, value)?;
    out.extend_from_slice(&text)?;
    Ok(())
}

/// The lines of the leaves that the mask has.
fn part_lines(
    alloc: Global,
    ty: &PvType,
    mask: &BitSet,
    overrun: &BitSet,
    value: &PvValue,
) -> Result<Vec<u8>, NoMemory>
    requires fits { fits_of 16 (view value.now) ty.now ≡ true }
    ensures { IfOk result (λ text. text.items ≡ part_text mask.now overrun.now ty.now (view value.now)) }
{
    let mut text = Vec::new(alloc);
    let mut path = Vec::new(alloc);
    print_marked(value, ty.shape(), 0, &mut path, mask, overrun, &mut text)?;
    Ok(text)
}

/// Appends the lines of the marked leaves of a node with this number and path, and says which number follows it.
#[cycle(marked)]
fn print_marked(
    value: &PvValue,
    shape: &Shape,
    number: u32,
    path: &mut Vec<u8>,
    mask: &BitSet,
    overrun: &BitSet,
    out: &mut Vec<u8>,
) -> Result<u32, NoMemory>
    requires fits { fits_of 16 (view value.now) (shape_view shape.now) ≡ true }
    requires few { number + length (numbered (shape_view shape.now)) ≤ 4096 }
    ensures lines { OnOk result (out.new.items ≡ out.old.items ++ lines_of (set.contains mask.now) (set.contains overrun.now) number path.old.items (shape_view shape.now) (view value.now)) }
    ensures path { OnOk result (path.new.items ≡ path.old.items) }
    ensures next { IfOk result (λ n. n ≡ number + length (numbered (shape_view shape.now))) }
{
    match shape {
        Shape::Struct(node) => {
            print_row(
                value.members(),
                &node.members,
                number + 1,
                path,
                mask,
                overrun,
                out,
            )
        }
        _ => {
            let marked = mask.contains(number);
            let lost = overrun.contains(number);
            print_leaf(value, shape, marked, lost, path, out)?;
            Ok(number + 1)
        }
    }
}

/// Appends the line of a leaf where it is marked.
fn print_leaf(
    value: &PvValue,
    shape: &Shape,
    marked: bool,
    overrun: bool,
    path: &[u8],
    out: &mut Vec<u8>,
) -> Result<(), NoMemory>
    ensures { OnOk result (out.new.items ≡ out.old.items ++ leaf_line marked overrun path.now (shape_view shape.now) (view value.now)) }
{
    if !marked {
        return Ok(());
    }
    print_path(path, b' ', out)?;
    print_value(value, shape, out)?;
    if overrun {
        out.extend_from_slice(b" overrun\n")?;
        return Ok(());
    }
    out.push(b'\n')?;
    Ok(())
}

/// Appends a path with a mark behind it; the empty path has none.
#[tactic(auto, using(crate::proofs::LineParts::followed_none, crate::proofs::LineParts::followed_some))]
pub fn print_path(path: &[u8], mark: u8, out: &mut Vec<u8>) -> Result<(), NoMemory>
    ensures { OnOk result (out.new.items ≡ out.old.items ++ followed path.now mark) }
{
    if path.is_empty() {
        return Ok(());
    }
    out.extend_from_slice(path)?;
    out.push(mark)?;
    Ok(())
}

/// Makes the path of a node that of its member of this name.
#[tactic(auto, using(crate::proofs::LineParts::followed_none, crate::proofs::LineParts::followed_some))]
pub fn go_down(path: &mut Vec<u8>, name: &str) -> Result<(), NoMemory>
    ensures { OnOk result (path.new.items ≡ path_to path.old.items name.now) }
{
    if path.is_empty() {
        path.extend_from_slice(name.as_bytes())?;
        return Ok(());
    }
    path.push(b'.')?;
    path.extend_from_slice(name.as_bytes())?;
    Ok(())
}

/// Appends the lines of the marked leaves of a structure's members, of which the first has this number, and says which number
/// follows the last.
#[cycle(marked)]
fn print_row(
    values: &[PvValue],
    members: &[Member],
    number: u32,
    path: &mut Vec<u8>,
    mask: &BitSet,
    overrun: &BitSet,
    out: &mut Vec<u8>,
) -> Result<u32, NoMemory>
    requires fits { row_fits 16 (row_view values.now) (members_view members.now) ≡ true }
    requires few { number + length (numbered_fields (members_view members.now)) ≤ 4096 }
    ensures lines { OnOk result (out.new.items ≡ out.old.items ++ lines_among (set.contains mask.now) (set.contains overrun.now) number path.old.items (members_view members.now) (row_view values.now)) }
    ensures path { OnOk result (path.new.items ≡ path.old.items) }
    ensures next { IfOk result (λ n. n ≡ number + length (numbered_fields (members_view members.now))) }
{
    let mut next = number;
    for i in 0..members.len() {
        next = print_member(&values[i], &members[i], next, path, mask, overrun, out)?;
    }
    Ok(next)
}

/// Appends the lines of the marked leaves of a member of the node with this path.
#[cycle(marked)]
fn print_member(
    value: &PvValue,
    member: &Member,
    number: u32,
    path: &mut Vec<u8>,
    mask: &BitSet,
    overrun: &BitSet,
    out: &mut Vec<u8>,
) -> Result<u32, NoMemory>
    requires fits { fits_of 16 (view value.now) (shape_view member.now.shape) ≡ true }
    requires few { number + length (numbered (shape_view member.now.shape)) ≤ 4096 }
    ensures lines { OnOk result (out.new.items ≡ out.old.items ++ lines_of (set.contains mask.now) (set.contains overrun.now) number (path_to path.old.items member.now.name) (shape_view member.now.shape) (view value.now)) }
    ensures path { OnOk result (path.new.items ≡ path.old.items) }
    ensures next { IfOk result (λ n. n ≡ number + length (numbered (shape_view member.now.shape))) }
{
    let length = path.len();
    go_down(path, member.name.as_str())?;
    let next = print_marked(value, &member.shape, number, path, mask, overrun, out)?;
    path.truncate(length);
    Ok(next)
}
