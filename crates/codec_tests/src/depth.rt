use crate::frames::discard;
use pva_wire::{Cursor, Order};
use pvd_codec::{read_full, write_full};
use pvd_desc::{Registry, read_desc};
use pvd_type::{NoMemory, PvType};
use pvd_value::{PvValue, fits, same_value};
use std::alloc::Global;
use std::test::Fail;
use std::thread::Builder;

/// How many lists of structures stand inside one another in a type of the greatest depth: with the leaf inside them it
/// has 32 levels.
const LISTS: u32 = 31;

/// Appends the description of that many lists inside one another, with a leaf of this code in the innermost.
fn describe(out: &mut Vec<u8>, leaf: u8) -> Result<(), NoMemory> {
    for _ in 0..LISTS {
        out.extend_from_slice(&[0x88, 0x80, 0, 1, 1, b'a'])?;
    }
    out.push(leaf)?;
    Ok(())
}

/// Appends the counts and flags of that many lists of one element each.
fn open(out: &mut Vec<u8>) -> Result<(), NoMemory> {
    for _ in 0..LISTS {
        out.extend_from_slice(&[1, 1])?;
    }
    Ok(())
}

/// The type of 32 levels with a variant in it.
fn deepest_type(alloc: Global) -> Result<Vec<u8>, NoMemory> {
    let mut out = Vec::new(alloc);
    describe(&mut out, 0x82)?;
    Ok(out)
}

/// A value of that type: sixteen variants inside one another, each with a type of 32 levels, the last with a byte.
fn deepest_value(alloc: Global) -> Result<Vec<u8>, NoMemory> {
    let mut out = Vec::new(alloc);
    open(&mut out)?;
    for number in 0..16u32 {
        describe(&mut out, if number < 15 { 0x82 } else { 0x20 })?;
        open(&mut out)?;
    }
    out.push(7)?;
    Ok(out)
}

/// The type that these bytes describe.
pub fn described(alloc: Global, bytes: &[u8]) -> Option<PvType> {
    let mut registry = Registry::new(alloc);
    match read_desc(alloc, &mut Cursor::new(bytes, Order::Big), &mut registry) {
        Ok(ty) => ty,
        Err(_) => None,
    }
}

/// The value of this type that the bytes spell.
fn value_of(alloc: Global, order: Order, ty: &PvType, bytes: &[u8]) -> Option<PvValue> {
    let mut registry = Registry::new(alloc);
    read_full(alloc, &mut Cursor::new(bytes, order), &mut registry, ty).ok()
}

/// Whether a value is of the type, and is written as these bytes.
fn is_written(alloc: Global, order: Order, ty: &PvType, value: &PvValue, bytes: &[u8]) -> bool {
    let mut out = Vec::new(alloc);
    fits(ty, value) && write_full(&mut out, order, ty, value).is_ok() && out.as_slice() == bytes
}

/// Whether a copy of the value is the same value and is written as these bytes.
fn is_written_back(
    alloc: Global,
    order: Order,
    ty: &PvType,
    value: &PvValue,
    bytes: &[u8],
) -> bool {
    let Ok(copy) = value.clone_in(alloc) else {
        return false;
    };
    let right = same_value(value, &copy) && is_written(alloc, order, ty, &copy, bytes);
    discard(copy);
    right
}

/// Whether a value of the type that these bytes describe is read, copied, compared, and written as these other bytes.
pub fn is_served(alloc: Global, order: Order, ty: &[u8], bytes: &[u8], written: &[u8]) -> bool {
    let Some(ty) = described(alloc, ty) else {
        return false;
    };
    match value_of(alloc, order, &ty, bytes) {
        Some(value) => {
            let right = is_written_back(alloc, order, &ty, &value, written);
            discard(value);
            right
        }
        None => false,
    }
}

#[test]
fn the_greatest_depth_is_served_on_a_stack_of_two_mebibytes(rt: HostRuntime) -> Result<(), Fail> {
    let alloc = rt.alloc();
    let (ty, bytes) = (deepest_type(alloc)?, deepest_value(alloc)?);
    let child = Builder::new().stack_size(2 << 20).spawn(
        &rt,
        move || is_served(alloc, Order::Big, &ty, &bytes, &bytes),
    )?;
    assert!(rt; child.join(&rt));
    Ok(())
}
