// Structures of ints, sets of their numbers, and values that are let go.
ghost use Rattle.std.specs.Prelude.{◌≡◌, true, IfOk};
ghost use Rattle.mon_queue.specs.Told.{are_leaves};

use pvd_type::{BitSet, Member, Name, NoMemory, Node, PvType, Scalar, Shape};
use pvd_value::{PvValue, fits, leaf};
use std::alloc::Global;

/// Lets a value go in a function of its own, since its many variants would else be let go one by one in the caller's proof.
pub fn discard<T: Drop>(_value: T) {}

/// A structure of ints with these names.
pub fn ints_named(alloc: Global, names: &[&str]) -> Result<Shape, NoMemory> {
    let mut members = Vec::new(alloc);
    for name in names {
        let name = Name::of(alloc, name)?;
        members.push(Member {
            name,
            shape: Shape::Plain(Scalar::I32),
        })?;
    }
    let id = Name::of(alloc, "")?;
    Ok(Shape::Struct(Node::of(alloc, id, members)?))
}

/// The set of these numbers.
pub fn bits(alloc: Global, numbers: &[u16]) -> Result<BitSet, NoMemory> {
    let mut set = BitSet::new(alloc);
    for number in numbers {
        set.insert(u32::from(*number))?;
    }
    Ok(set)
}

/// Those of the numbers that are leaves of the type.
pub fn leaves_of(alloc: Global, ty: &PvType, numbers: &[u16]) -> Result<BitSet, NoMemory>
    ensures { IfOk result (λ mask. are_leaves ty.now mask ≡ true) }
{
    let mut mask = ty.leaves(alloc)?;
    mask.meet(&bits(alloc, numbers)?);
    Ok(mask)
}

/// The int under a number.
pub fn int_at(ty: &PvType, value: &PvValue, number: u32) -> Option<i32> {
    if !fits(ty, value) {
        return None;
    }
    match leaf(value, ty, number) {
        Some(PvValue::I32(int)) => Some(*int),
        _ => None,
    }
}
