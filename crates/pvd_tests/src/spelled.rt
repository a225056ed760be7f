use pva_wire::{Cursor, Order};
use pvd_codec::read_full;
use pvd_desc::{Registry, read_desc};
use pvd_type::PvType;
use pvd_value::PvValue;
use std::alloc::Global;

/// Lets a value go.
pub fn discard<T: Drop>(_value: T) {}

/// The type that these bytes describe, highest byte first.
pub fn described(alloc: Global, bytes: &[u8]) -> Option<PvType> {
    let mut registry = Registry::new(alloc);
    match read_desc(alloc, &mut Cursor::new(bytes, Order::Big), &mut registry) {
        Ok(ty) => ty,
        Err(_) => None,
    }
}

/// The value of this type that the bytes spell, highest byte first.
pub fn spelled(alloc: Global, ty: &PvType, bytes: &[u8]) -> Option<PvValue> {
    let mut registry = Registry::new(alloc);
    read_full(
        alloc,
        &mut Cursor::new(bytes, Order::Big),
        &mut registry,
        ty,
    )
    .ok()
}
