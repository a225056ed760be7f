ghost use Rattle.std.specs.Prelude.{◌≡◌, IfOk, OnOk, option_map};
ghost use Rattle.std.specs.FinMap as map;
ghost use Rattle.std.specs.Arc.{arc_value};
ghost use Rattle.pvd_type.specs.View.{shape_view};
ghost use Rattle.pvd_type.specs.Check.{IsType};
ghost use Rattle.pvd_desc.specs.Types.{Types, laid, define_all};
ghost use Rattle.pvd_desc.specs.Reading.{Gives, chain_at};

use crate::fault::DescStop;
use crate::items::{definition, id_at};
use crate::registry::{Definitions, Registry};
use pva_wire::Order;
use pvd_type::{BitSet, Budget, NoMemory, PvType, Shape};
use std::alloc::Global;
use std::sync::Arc;

/// The ids of definitions that stand one after another.
pub fn chain_at(alloc: Global, order: Order, bytes: &[u8]) -> Result<(Vec<u16>, &[u8]), DescStop>
    ensures { Gives (λ x. (x.0.items, x.1.now)) result (chain_at order bytes.now) }
{
    let mut ids = Vec::new(alloc);
    let mut rest = bytes;
    while let Some(after) = definition(rest) {
        let (id, after) = id_at(order, after)?;
        ids.push(id)?;
        rest = after;
    }
    Ok((ids, rest))
}

/// The type under an id: the one that this description has defined, or the one from before.
pub fn known<'a>(base: &'a Registry, changed: &'a Definitions, id: u16) -> Option<&'a PvType>
    ensures { option_map (λ ty. ty.now) result ≡ map.get (laid base.now changed.now) id }
{
    match changed.get(id) {
        Some(ty) => Some(ty),
        None => base.get(id),
    }
}

/// How many bytes a type takes in memory beside four for each of its nodes.
const TYPE: u64 = 256;

/// How many bytes an id with its share in a type counts for, in memory and in the time to put it.
const ID: u64 = 128;

/// How many bytes a set of ids may take.
const SET: u64 = 8192;

/// Of so many ids at most one that stands twice is put twice, since a set of them costs more.
const FEW: usize = 8;

/// A shape of so many nodes, which is put under each of the ids.
pub fn defined(
    alloc: Global,
    changed: &mut Definitions,
    budget: &mut Budget,
    ids: &[u16],
    shape: Shape,
    nodes: u32,
) -> Result<Shape, NoMemory>
    requires { IsType (shape_view shape) }
    ensures shape { IfOk result (λ s. shape_view s ≡ shape_view shape) }
    ensures defined { OnOk result ((base : Types) → laid base changed.new ≡ define_all ids.now (shape_view shape) (laid base changed.old)) }
{
    define_all(alloc, changed, budget, ids, &shape, nodes)?;
    Ok(shape)
}

/// Puts a type of so many nodes under each of the ids, which share it in memory.
fn define_all(
    alloc: Global,
    changed: &mut Definitions,
    budget: &mut Budget,
    ids: &[u16],
    shape: &Shape,
    nodes: u32,
) -> Result<(), NoMemory>
    requires { IsType (shape_view shape.now) }
    ensures { OnOk result ((base : Types) → laid base changed.new ≡ define_all ids.now (shape_view shape.now) (laid base changed.old)) }
{
    if ids.is_empty() {
        return Ok(());
    }
    budget.spend(TYPE + 4 * nodes as u64)?;
    let ty = Arc::new(alloc, PvType::of_checked(alloc, shape.clone_in(alloc)?)?)?;
    if ids.len() <= FEW {
        return define_each(changed, budget, ids, &ty);
    }
    define_once(alloc, changed, budget, ids, &ty)
}

/// Puts a type under each of the ids.
fn define_each(
    changed: &mut Definitions,
    budget: &mut Budget,
    ids: &[u16],
    ty: &Arc<PvType, Global>,
) -> Result<(), NoMemory>
    ensures { OnOk result ((base : Types) → laid base changed.new ≡ define_all ids.now (arc_value ty.now) (laid base changed.old)) }
{
    for id in ids {
        budget.spend(ID)?;
        changed.define(*id, ty)?;
    }
    Ok(())
}

/// Puts a type under each of the ids, once where one stands there again.
fn define_once(
    alloc: Global,
    changed: &mut Definitions,
    budget: &mut Budget,
    ids: &[u16],
    ty: &Arc<PvType, Global>,
) -> Result<(), NoMemory>
    ensures { OnOk result ((base : Types) → laid base changed.new ≡ define_all ids.now (arc_value ty.now) (laid base changed.old)) }
{
    budget.spend(SET)?;
    let mut done = BitSet::new(alloc);
    'ids: for id in ids {
        if done.contains(*id as u32) {
            continue 'ids;
        }
        budget.spend(ID)?;
        changed.define(*id, ty)?;
        done.insert(*id as u32)?;
    }
    Ok(())
}
