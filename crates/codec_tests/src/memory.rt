use crate::depth::described;
use pva_wire::{Cursor, Order, write_size};
use pvd_codec::{ValueFault, read_full, read_part};
use pvd_desc::Registry;
use pvd_type::NoMemory;
use std::alloc::Global;
use std::test::Fail;

/// A list of structures with a list of structures.
const NESTED: &[u8] = b"\x88\x80\0\x01\x01a\x88\x80\0\x01\x01b\x24";

/// A structure with a list of 33 MiB of bytes, and a byte.
const LONG: &[u8] = b"\x80\0\x02\x01a\x3C\xFE\x02\x10\0\0\x01b\x24";

/// A structure with two lists of 33 MiB of bytes each, and a byte.
const TWO_LONG: &[u8] = b"\x80\0\x03\x01a\x3C\xFE\x02\x10\0\0\x01b\x3C\xFE\x02\x10\0\0\x01c\x24";

/// A list of as many elements, each of these bytes.
fn list(alloc: Global, count: u32, element: &[u8]) -> Result<Vec<u8>, NoMemory> {
    let mut out = Vec::new(alloc);
    write_size(&mut out, Order::Big, count)?;
    for _ in 0..count {
        out.extend_from_slice(element)?;
    }
    Ok(out)
}

/// Why the bytes are no value of the type that these bytes describe, whole or in part.
fn refusal(
    alloc: Global,
    is_whole: bool,
    ty: &[u8],
    bytes: &[u8],
) -> Result<Option<ValueFault>, NoMemory> {
    let Some(ty) = described(alloc, ty) else {
        return Err(NoMemory);
    };
    let mut registry = Registry::new(alloc);
    let mut from = Cursor::new(bytes, Order::Big);
    if is_whole {
        return Ok(read_full(alloc, &mut from, &mut registry, &ty).err());
    }
    Ok(read_part(alloc, &mut from, &mut registry, &ty).err())
}

#[test]
fn what_a_read_takes_is_bounded_by_its_bytes(rt: HostRuntime) -> Result<(), Fail> {
    let memory = Some(ValueFault::NoMemory);
    let table: [(&[u8], u32, &[u8], Option<ValueFault>); 8] = [
        // texts of eight letters, ints, and variants of an int
        (&[0x68], 400_000, b"\x08readings", None),
        (&[0x2A], 200_000, &[1, 2, 3, 4], None),
        (&[0x8A], 50_000, b"\x01\x22\x01\x02\x03\x04", None),
        // empty texts; structures of a list of one byte, and of a text of one letter
        (&[0x68], 1_000_000, &[0], memory),
        (b"\x88\x80\0\x01\x01a\x2C", 150_000, &[1, 1, 7], memory),
        (b"\x88\x80\0\x01\x01a\x60", 150_000, b"\x01\x01x", memory),
        // variants of a structure, and of a type that each defines anew
        (&[0x8A], 30_000, b"\x01\x80\0\x01\x01a\x20\0", memory),
        (&[0x8A], 30_000, &[1, 0xFD, 0, 1, 0x20, 0], memory),
    ];
    for (ty, count, element, fault) in table {
        let bytes = list(rt.alloc(), count, element)?;
        let found = refusal(rt.alloc(), true, ty, &bytes)?;
        assert_eq!(rt; found, fault, "{count} of {element:?}");
    }
    // a million elements, the first of which says that it has as many
    let mut nested = Vec::from_slice(rt.alloc(), b"\xFE\0\x0F\x42\x40\x01")?;
    nested.append(&mut list(rt.alloc(), 1_000_000, &[0])?)?;
    assert_eq!(rt; refusal(rt.alloc(), true, NESTED, &nested)?, memory);
    // a part of a byte alone, beside 33 MiB of zeros and beside twice as many
    assert_eq!(rt; refusal(rt.alloc(), false, LONG, &[1, 4, 7])?, None);
    assert_eq!(rt; refusal(rt.alloc(), false, TWO_LONG, &[1, 8, 7])?, memory);
    Ok(())
}
