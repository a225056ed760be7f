// How a group is built of its members.
ghost use Rattle.std.specs.Prelude.{◌≡◌, ◌≤◌, ◌<◌, ◌++◌, ◌∷◌, [], None, Some, length, map, option_map, IfOk, IfErr, OnOk};
ghost use Rattle.std.specs.BTreeMap.{get_by};
ghost use Rattle.std.specs.List.{AllByRecursion};
ghost use Rattle.std.specs.Ordering.{nat_cmp};
ghost use Rattle.pvd_type.specs.Check.{type_fault, IsFault};
ghost use Rattle.pvd_type.specs.Numbers.{numbered};
ghost use Rattle.pvd_type.specs.Tree.{Tree};
ghost use Rattle.pvd_type.specs.View.{shape_view};
ghost use Rattle.group_view.specs.Built.{IsShapeFault, reach_by, Reaches};
ghost use Rattle.group_view.specs.Leaves.{leaves_at};

use crate::member::Member;
use crate::reach::{Reach, numbers_of, triggers_of};
use group_defs::GroupFault;
use pvd_type::{NoMemory, PvType, Shape, TypeFault};
use std::alloc::Global;
use std::collections::BTreeMap;

/// The type of a group's structure, if it is one.
pub(crate) fn checked(alloc: Global, shape: Shape) -> Result<PvType, GroupFault>
    ensures ty { IfOk result (λ ty. ty ≡ shape_view shape) }
    ensures faultless { IfOk result (λ ty. type_fault ty ≡ None) }
    ensures few { IfOk result (λ ty. length (numbered ty) ≤ 4096) }
    ensures fault { IfErr result (IsShapeFault (shape_view shape)) }
{
    match PvType::check(alloc, shape) {
        Ok(ty) => Ok(counted(ty)),
        Err(fault) => Err(shape_fault(fault)),
    }
}

/// A type, of which no more is to be said than that it is one.
fn counted(ty: PvType) -> PvType
    ensures same { result ≡ ty }
    ensures faultless { type_fault result ≡ None }
    ensures few { length (numbered result) ≤ 4096 }
{
    let _shape = ty.shape();
    ty
}

/// The fault of a group whose structure has this fault.
fn shape_fault(fault: TypeFault) -> GroupFault
    ensures { (t : Tree) → IsFault t fault → IsShapeFault t result }
{
    match fault {
        TypeFault::NoMemory => GroupFault::NoMemory,
        TypeFault::TooDeep => GroupFault::Shape(TypeFault::TooDeep),
        TypeFault::TooMany => GroupFault::Shape(TypeFault::TooMany),
        TypeFault::EmptyName => GroupFault::Shape(TypeFault::EmptyName),
        TypeFault::SameName => GroupFault::Shape(TypeFault::SameName),
    }
}

/// What each of these records triggers, in a group whose members show these leaves.
pub(crate) fn reaches_of(
    alloc: Global,
    members: &[Member],
    own: &[Vec<u16>],
    records: &[u32],
) -> Result<BTreeMap<u32, Reach>, NoMemory>
    requires same { length own.now ≡ length members.now }
    requires within { AllByRecursion (λ m. AllByRecursion (λ n. n < length members.now) m.def.trigger) members.now }
    ensures { IfOk result (λ reaches. Reaches records.now (reach_by (leaves_at own.now) members.now) (λ rec. get_by (nat_cmp rec) reaches)) }
{
    let triggers = triggers_of(alloc, members)?;
    let mut reaches = BTreeMap::new(alloc);
    for rec in records {
        let reach = Reach::of(alloc, members, own, numbers_of(&triggers, *rec))?;
        reaches.insert(*rec, reach)?;
    }
    Ok(reaches)
}
