use crate::depth::{described, is_served};
use pva_wire::{Cursor, Order, WireFault};
use pvd_codec::{ValueFault, read_full};
use pvd_desc::{DescFault, Registry};
use std::alloc::Global;
use std::test::Fail;

#[test]
fn scalars_and_their_lists_are_written_in_both_orders(rt: HostRuntime) -> Result<(), Fail> {
    // the code of each type, and the bytes of two of it, equally long, in little and in big endian
    let table: [(u8, &[u8], &[u8]); 12] = [
        (0x00, &[1, 0], &[1, 0]),
        (0x20, &[0xFE, 3], &[0xFE, 3]),
        (0x21, &[0xFE, 0xFF, 3, 0], &[0xFF, 0xFE, 0, 3]),
        (0x22, b"\x05\0\0\0\0\0\0\x80", b"\0\0\0\x05\x80\0\0\0"),
        (
            0x23,
            b"\x05\0\0\0\0\0\0\0\xFF\xFF\xFF\xFF\xFF\xFF\xFF\xFF",
            b"\0\0\0\0\0\0\0\x05\xFF\xFF\xFF\xFF\xFF\xFF\xFF\xFF",
        ),
        (0x24, &[200, 1], &[200, 1]),
        (0x25, &[2, 1, 3, 0], &[1, 2, 0, 3]),
        (0x26, &[4, 3, 2, 1, 3, 0, 0, 0], &[1, 2, 3, 4, 0, 0, 0, 3]),
        (
            0x27,
            &[8, 7, 6, 5, 4, 3, 2, 1, 3, 0, 0, 0, 0, 0, 0, 0],
            &[1, 2, 3, 4, 5, 6, 7, 8, 0, 0, 0, 0, 0, 0, 0, 3],
        ),
        (0x42, b"\0\0\xC0\x3F\0\0\0\0", b"\x3F\xC0\0\0\0\0\0\0"),
        (
            0x43,
            b"\0\0\0\0\0\0\xF8\x3F\0\0\0\0\0\0\0\0",
            b"\x3F\xF8\0\0\0\0\0\0\0\0\0\0\0\0\0\0",
        ),
        (0x60, b"\x02ab\x02cd", b"\x02ab\x02cd"),
    ];
    for (one_of, little, big) in table {
        for (order, two) in [(Order::Little, little), (Order::Big, big)] {
            let one = two.get(..two.len() / 2).ok_or("a scalar")?;
            let mut counted = Vec::from_slice(rt.alloc(), &[2])?;
            counted.extend_from_slice(two)?;
            // the codes of lists of any length, bounded and fixed
            for (ty, bytes) in [
                (&[one_of][..], one),
                (&[one_of | 0x08][..], &counted[..]),
                (&[one_of | 0x10, 2][..], &counted[..]),
                (&[one_of | 0x18, 2][..], two),
            ] {
                assert!(rt; is_served(rt.alloc(), order, ty, bytes, bytes), "{ty:?}");
            }
        }
    }
    Ok(())
}

/// A union of a short and a text.
const UNION: &[u8] = b"\x81\0\x02\x01a\x21\x01b\x60";

/// Lists of structures and of unions of a short.
const STRUCTURES: &[u8] = b"\x88\x80\0\x01\x01a\x21";

const UNIONS: &[u8] = b"\x89\x81\0\x01\x01a\x21";

#[test]
fn structures_unions_and_variants_are_written(rt: HostRuntime) {
    // a type, the bytes of a value in little and in big endian
    let table: [(&[u8], &[u8], &[u8]); 11] = [
        (
            b"\x80\0\x02\x01a\x25\x01b\x60",
            b"\x03\0\x01x",
            b"\0\x03\x01x",
        ),
        (UNION, &[0xFF], &[0xFF]),
        (UNION, &[0, 3, 0], &[0, 0, 3]),
        (UNION, &[1, 1, b'x'], &[1, 1, b'x']),
        (&[0x82], &[0xFF], &[0xFF]),
        (&[0x82], &[0x21, 3, 0], &[0x21, 0, 3]),
        (&[0x82], &[0x82, 0x82, 0xFF], &[0x82, 0x82, 0xFF]),
        (STRUCTURES, &[2, 0, 1, 3, 0], &[2, 0, 1, 0, 3]),
        (
            UNIONS,
            b"\x03\x01\xFF\0\x01\0\x03\0",
            b"\x03\x01\xFF\0\x01\0\0\x03",
        ),
        (&[0x8A], &[2, 0, 1, 0x21, 3, 0], &[2, 0, 1, 0x21, 0, 3]),
        (&[0x83, 2], &[2, b'a', b'b'], &[2, b'a', b'b']),
    ];
    for (ty, little, big) in table {
        for (order, bytes) in [(Order::Little, little), (Order::Big, big)] {
            assert!(rt; is_served(rt.alloc(), order, ty, bytes, bytes), "{ty:?}");
        }
    }
    // a null description behind a flag is the null element
    assert!(rt; is_served(rt.alloc(), Order::Big, &[0x8A], &[1, 1, 0xFF], &[1, 0]));
}

/// Where the bytes are read up to as a variant, after what was defined before, and why they are none.
fn variant_read(
    alloc: Global,
    registry: &mut Registry,
    bytes: &[u8],
) -> Option<(usize, Option<ValueFault>)> {
    let ty = described(alloc, &[0x82])?;
    let mut from = Cursor::new(bytes, Order::Little);
    let refused = read_full(alloc, &mut from, registry, &ty).err();
    Some((from.place(), refused))
}

#[test]
fn a_refused_value_defines_nothing(rt: HostRuntime) {
    let (short, unknown) = (
        ValueFault::Wire(WireFault::Short(4)),
        ValueFault::Desc(DescFault::UnknownId(1, 1)),
    );
    let mut registry = Registry::new(rt.alloc());
    let table: [(&[u8], usize, Option<ValueFault>); 4] = [
        // an int under the id 1, without all its bytes
        (&[0xFD, 1, 0, 0x22, 5], 0, Some(short)),
        (&[0xFE, 1, 0, 5], 0, Some(unknown)),
        // a ubyte under the id 1
        (&[0xFD, 1, 0, 0x24, 5], 5, None),
        (&[0xFE, 1, 0, 5], 4, None),
    ];
    for (bytes, place, fault) in table {
        let read = variant_read(rt.alloc(), &mut registry, bytes);
        assert_eq!(rt; read, Some((place, fault)));
    }
}
