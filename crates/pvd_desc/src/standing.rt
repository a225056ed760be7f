ghost use Rattle.std.specs.Prelude.{◌≡◌, ◌≤◌, IfOk, IfErr, OnOk, Some, None, []};
ghost use Rattle.pvd_type.specs.View.{shape_view, node_view, members_view};
ghost use Rattle.pvd_type.specs.Check.{below, visits, Checks};
ghost use Rattle.pvd_desc.specs.Named.{IsNamed, AreNamed};
ghost use Rattle.pvd_desc.specs.Reading.{here_fault};

use pvd_type::{Member, Node, Shape, TypeFault};

// A type was tested whole before it was defined. Where it stands in another one it may be too deep, or
// one node too many, but no name in it can be at fault: so its names aren't looked at again.

/// Whether a node on this level may have `seen` nodes before it.
fn may_stand(level: u32, seen: u32) -> Result<(), TypeFault>
    ensures ok { OnOk result (here_fault level seen None ≡ None) }
    ensures fault { IfErr result (λ f. here_fault level seen None ≡ Some f) }
    ensures room { OnOk result (seen ≤ 4095) }
    ensures high { OnOk result (level ≤ 32) }
{
    if level > 32 {
        return Err(TypeFault::TooDeep);
    }
    if seen > 4095 {
        return Err(TypeFault::TooMany);
    }
    Ok(())
}

/// Tests the levels of the nodes below a node on this level, and counts them, with `seen` nodes before
/// them. No name of them is at fault.
#[cycle(standing)]
pub fn stand_below(shape: &Shape, level: u32, seen: u32) -> Result<u32, TypeFault>
    requires level { level ≤ 32 }
    requires seen { seen ≤ 4096 }
    requires named { IsNamed (shape_view shape.now) }
    ensures checks { Checks seen (below level (shape_view shape.now)) result }
    ensures few { IfOk result (λ n. n ≤ 4096) }
{
    match shape {
        Shape::Struct(node) => node_stands(node, level + 1, seen),
        Shape::Union(node) => node_stands(node, level + 1, seen),
        Shape::StructList(node) => node_stands(node, level + 1, seen),
        Shape::UnionList(node) => node_stands(node, level + 1, seen),
        _ => Ok(seen),
    }
}

#[cycle(standing)]
fn node_stands(node: &Node, level: u32, seen: u32) -> Result<u32, TypeFault>
    requires seen { seen ≤ 4096 }
    requires named { AreNamed [] (node_view node.now).1 }
    ensures checks { Checks seen (visits level [] (node_view node.now).1) result }
    ensures few { IfOk result (λ n. n ≤ 4096) }
{
    members_stand(&node.members, level, seen)
}

#[cycle(standing)]
fn members_stand(members: &[Member], level: u32, seen: u32) -> Result<u32, TypeFault>
    requires seen { seen ≤ 4096 }
    requires named { AreNamed [] (members_view members.now) }
    ensures checks { Checks seen (visits level [] (members_view members.now)) result }
    ensures few { IfOk result (λ n. n ≤ 4096) }
{
    let mut count = seen;
    for i in 0..members.len() {
        let member = &members[i];
        may_stand(level, count)?;
        count = stand_below(&member.shape, level, count + 1)?;
    }
    Ok(count)
}
