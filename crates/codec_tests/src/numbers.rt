use pva_wire::{Cursor, Order, WireFault, write_size, write_u16, write_u32, write_u64};
use pvd_type::NoMemory;
use std::test::Fail;

#[test]
fn numbers_in_both_orders(rt: HostRuntime) -> Result<(), Fail> {
    let little: [u8; 15] = [
        0x11, 0x33, 0x22, 0x77, 0x66, 0x55, 0x44, 0xFF, 0xEE, 0xDD, 0xCC, 0xBB, 0xAA, 0x99, 0x88,
    ];
    let big: [u8; 15] = [
        0x11, 0x22, 0x33, 0x44, 0x55, 0x66, 0x77, 0x88, 0x99, 0xAA, 0xBB, 0xCC, 0xDD, 0xEE, 0xFF,
    ];
    for (order, bytes) in [(Order::Little, &little[..]), (Order::Big, &big[..])] {
        let mut from = Cursor::new(bytes, order);
        assert_eq!(rt; from.order(), order);
        assert_eq!(rt; from.read_u8()?, 0x11);
        assert_eq!(rt; from.read_u16()?, 0x2233);
        assert_eq!(rt; from.read_u32()?, 0x4455_6677);
        assert_eq!(rt; from.place(), 7);
        assert_eq!(rt; from.read_u64()?, 0x8899_AABB_CCDD_EEFF);
        assert_eq!(rt; from.read_u8(), Err(WireFault::Short(15)));
        assert_eq!(rt; from.place_of(4), 11);
        from.go_to(&bytes[11..]);
        assert_eq!(rt; from.read_u64(), Err(WireFault::Short(11)));
        assert_eq!(rt; from.rest().len(), 4);

        let mut out = Vec::new(rt.alloc());
        out.push(0x11)?;
        write_u16(&mut out, order, 0x2233)?;
        write_u32(&mut out, order, 0x4455_6677)?;
        write_u64(&mut out, order, 0x8899_AABB_CCDD_EEFF)?;
        assert_eq!(rt; out.as_slice(), bytes);
        // a size above all that a size can be takes no room
        assert_eq!(rt; write_size(&mut out, order, 2_147_483_647), Err(NoMemory));
        assert_eq!(rt; out.len(), 15);
    }
    Ok(())
}
