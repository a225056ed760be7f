use pva_wire::{Cursor, Order};
use pvd_desc::{DescFault, Registry, read_desc, write_desc};
use pvd_type::{NoMemory, PvType};
use std::alloc::Global;
use std::test::Fail;

/// A structure with a long and two ints.
const TIME: &[u8] = b"\x80\x06time_t\x03\x10secondsPastEpoch\x23\x0Bnanoseconds\x22\x07userTag\x22";

/// The description of a structure of a thousand members, each of the type that is known under 256. The
/// names are AA, AB and so on, 32 to a first letter.
fn thousandfold(alloc: Global) -> Result<Vec<u8>, NoMemory> {
    let mut bytes = Vec::new(alloc);
    bytes.extend_from_slice(&[0x80, 0x00, 0xFE, 0xE8, 0x03, 0x00, 0x00])?;
    for number in 0..1000u32 {
        let (first, second) = ((number / 32) as u8, (number % 32) as u8);
        bytes.extend_from_slice(&[0x02, b'A' + first, b'A' + second, 0xFE, 0x00, 0x01])?;
    }
    Ok(bytes)
}

/// The definition of `TIME` under 256.
fn time_defined(alloc: Global) -> Result<Vec<u8>, NoMemory> {
    let mut bytes = Vec::new(alloc);
    bytes.extend_from_slice(&[0xFD, 0x00, 0x01])?;
    bytes.extend_from_slice(TIME)?;
    Ok(bytes)
}

/// The type that the second bytes describe, over a registry that knows what the first define and is let go.
fn defined_then(alloc: Global, defined: &[u8], bytes: &[u8]) -> Result<Option<PvType>, DescFault> {
    let mut registry = Registry::new(alloc);
    let mut first = Cursor::new(defined, Order::Little);
    read_desc(alloc, &mut first, &mut registry)?;
    read_desc(alloc, &mut Cursor::new(bytes, Order::Little), &mut registry)
}

/// How many nodes a type has, and the number of a field.
fn counted(ty: Option<PvType>, path: &str) -> Option<(u32, Option<u32>)> {
    let ty = ty?;
    Some((ty.node_count(), ty.number_of(path)))
}

#[test]
fn a_cached_type_is_used_a_thousand_times(rt: HostRuntime) -> Result<(), Fail> {
    let (defined, bytes) = (time_defined(rt.alloc())?, thousandfold(rt.alloc())?);
    let ty = defined_then(rt.alloc(), &defined, &bytes)?;
    assert_eq!(rt; counted(ty, "`H.userTag"), Some((4001, Some(4000))));
    Ok(())
}

/// What is written of the type that these bytes describe, and how many of them describe it.
fn written_back(
    alloc: Global,
    order: Order,
    registry: &mut Registry,
    bytes: &[u8],
) -> Result<(Vec<u8>, usize), DescFault> {
    let mut from = Cursor::new(bytes, order);
    let ty = read_desc(alloc, &mut from, registry)?;
    let mut out = Vec::new(alloc);
    write_desc(&mut out, order, ty.as_ref())?;
    Ok((out, from.place()))
}

/// Whether the type that these bytes describe, all of them, is written as they are.
fn comes_back(alloc: Global, order: Order, bytes: &[u8]) -> bool {
    let mut registry = Registry::new(alloc);
    match written_back(alloc, order, &mut registry, bytes) {
        Ok((out, place)) => out.as_slice() == bytes && place == bytes.len(),
        Err(_) => false,
    }
}

#[test]
fn descriptions_are_written_as_they_are_read(rt: HostRuntime) {
    for bytes in [
        TIME,
        &[0xFF][..],
        &[0x82][..],
        &[0x8A][..],
        &[0x83, 0x0A][..],
        &[0x81, 0x01, 0x75, 0x02, 0x01, 0x61, 0x00, 0x01, 0x62, 0x60][..],
        &[0x88, 0x80, 0x00, 0x01, 0x01, 0x61, 0x22][..],
        &[0x89, 0x81, 0x00, 0x01, 0x01, 0x61, 0x22][..],
    ] {
        assert!(rt; comes_back(rt.alloc(), Order::Little, bytes));
    }
    // the codes of each type and of its lists of any length, bounded and fixed
    let codes = [
        0x00u8, 0x20, 0x21, 0x22, 0x23, 0x24, 0x25, 0x26, 0x27, 0x42, 0x43, 0x60,
    ];
    for one in codes {
        let (any, most, just) = (one | 0x08, one | 0x10, one | 0x18);
        for bytes in [&[one][..], &[any][..], &[most, 5][..], &[just, 5][..]] {
            assert!(rt; comes_back(rt.alloc(), Order::Big, bytes));
        }
    }
}

/// Whether the bytes describe no type, are all there to be read again, and the id 1 names an int still.
fn is_refused(alloc: Global, registry: &mut Registry, bytes: &[u8]) -> bool {
    let mut from = Cursor::new(bytes, Order::Little);
    if read_desc(alloc, &mut from, registry).is_ok() || from.place() != 0 {
        return false;
    }
    match written_back(alloc, Order::Little, registry, &[0xFE, 0x01, 0x00]) {
        Ok((out, _)) => out.as_slice() == [0x22].as_slice(),
        Err(_) => false,
    }
}

/// Whether each of these is refused so, when the id 1 names an int.
fn are_refused(alloc: Global, rows: &[&[u8]]) -> bool {
    let mut registry = Registry::new(alloc);
    let int = [0xFD, 0x01, 0x00, 0x22];
    let defined = written_back(alloc, Order::Little, &mut registry, &int).is_ok();
    defined
        && rows
            .iter()
            .all(|bytes| is_refused(alloc, &mut registry, bytes))
}

#[test]
fn a_refused_description_defines_nothing(rt: HostRuntime) {
    let rows = [
        &[][..],
        &[0xFC][..],
        &[0x44][..],
        &[0xFD, 0x01, 0x00, 0xFF][..],
        &[0xFE, 0x02, 0x00][..],
        &[0xFE, 0x02][..],
        &[0x32, 0xFF][..],
        &[0x88, 0x22][..],
        &[0x88, 0xFF][..],
        &[0x88, 0xFD, 0x01, 0x00, 0x22][..],
        &[0x89, 0xFE, 0x01, 0x00][..],
        &[0x80, 0x00, 0x03, 0x01, 0x61, 0x22][..],
        // the name a for the second time, behind a definition of the id 1
        &[
            0x80, 0x00, 0x02, 0x01, 0x61, 0xFD, 0x01, 0x00, 0x60, 0x01, 0x61, 0x22,
        ][..],
        &[0x80, 0x00, 0x01, 0x00, 0x22][..],
    ];
    assert!(rt; are_refused(rt.alloc(), &rows));
}
