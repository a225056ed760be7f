use pva_wire::{
    Cursor, Order, StatusKind, WireFault, read_bits, read_count, read_size, read_status, read_text,
    write_bits, write_size, write_status, write_text,
};
use pvd_type::NoMemory;
use std::alloc::Global;
use std::test::Fail;

/// What is written of a size.
fn size_written(alloc: Global, order: Order, size: u32) -> Result<Vec<u8>, NoMemory> {
    let mut out = Vec::new(alloc);
    write_size(&mut out, order, size)?;
    Ok(out)
}

/// What a size says that counts something.
fn count_in(size: Result<Option<u32>, WireFault>, place: usize) -> Result<u32, WireFault> {
    match size {
        Ok(Some(count)) => Ok(count),
        Ok(None) => Err(WireFault::NullSize(place)),
        Err(fault) => Err(fault),
    }
}

#[test]
fn sizes_take_one_byte_or_five(rt: HostRuntime) -> Result<(), Fail> {
    let table: [(u32, Order, &[u8]); 6] = [
        (0, Order::Little, &[0]),
        (253, Order::Little, &[0xFD]),
        (254, Order::Little, &[0xFE, 0xFE, 0, 0, 0]),
        (254, Order::Big, &[0xFE, 0, 0, 0, 0xFE]),
        (2_147_483_646, Order::Little, b"\xFE\xFE\xFF\xFF\x7F"),
        (2_147_483_646, Order::Big, b"\xFE\x7F\xFF\xFF\xFE"),
    ];
    for (size, order, bytes) in table {
        assert_eq!(rt; size_written(rt.alloc(), order, size)?.as_slice(), bytes);
        let mut from = Cursor::new(bytes, order);
        assert_eq!(rt; read_size(&mut from), Ok(Some(size)));
        assert_eq!(rt; from.place(), bytes.len());
    }
    let beyond = Err(WireFault::Range(1));
    // behind another byte: five bytes where one is enough, the null size, and what is no size
    let table: [(Order, &[u8], Result<Option<u32>, WireFault>); 6] = [
        (Order::Little, b"\xAA\xFE\x05\0\0\0", Ok(Some(5))),
        (Order::Big, b"\xAA\xFE\0\0\0\x05", Ok(Some(5))),
        (Order::Little, b"\xAA\xFF", Ok(None)),
        (Order::Little, b"\xAA", Err(WireFault::Short(1))),
        (Order::Big, b"\xAA\xFE\0\0\0", Err(WireFault::Short(1))),
        (Order::Little, b"\xAA\xFE\xFF\xFF\xFF\x7F", beyond),
    ];
    for (order, bytes, size) in table {
        let mut from = Cursor::new(bytes, order);
        assert_eq!(rt; from.read_u8(), Ok(0xAA));
        let mut again = Cursor::new(bytes, order);
        assert_eq!(rt; again.read_u8(), Ok(0xAA));
        assert_eq!(rt; read_size(&mut from), size);
        assert_eq!(rt; read_count(&mut again), count_in(size, 1));
    }
    Ok(())
}

/// Whether a text stands in these bytes, all of them, that is this one and is written as these other bytes.
fn is_text(alloc: Global, bytes: &[u8], text: &str, written: &[u8]) -> bool {
    let mut from = Cursor::new(bytes, Order::Big);
    let Ok(found) = read_text(alloc, &mut from) else {
        return false;
    };
    let mut out = Vec::new(alloc);
    found.as_str() == text
        && from.rest().is_empty()
        && write_text(&mut out, Order::Big, &found).is_ok()
        && out.as_slice() == written
}

#[test]
fn texts_are_utf8_behind_their_size(rt: HostRuntime) {
    let table: [(&[u8], &str, &[u8]); 4] = [
        (b"\x04zi\xC3\xA9", "zié", b"\x04zi\xC3\xA9"),
        (b"\xFE\0\0\0\x01X", "X", b"\x01X"),
        (b"\xFF", "", b"\0"),
        (b"\0", "", b"\0"),
    ];
    for (bytes, text, written) in table {
        assert!(rt; is_text(rt.alloc(), bytes, text, written), "{text}");
    }
    let table: [(&[u8], WireFault); 3] = [
        (b"\x03AB", WireFault::Short(1)),
        (b"\x02A\xFF", WireFault::NotUtf8(1)),
        (b"\xFE\x80\0\0\0", WireFault::Range(0)),
    ];
    for (bytes, fault) in table {
        let read = read_text(rt.alloc(), &mut Cursor::new(bytes, Order::Big));
        assert_eq!(rt; read.err(), Some(fault));
    }
}

/// Whether a set stands in these bytes, all of them, that has just these numbers and is written as these other bytes.
fn is_set(alloc: Global, order: Order, bytes: &[u8], numbers: &[u32], written: &[u8]) -> bool {
    let mut from = Cursor::new(bytes, order);
    let Ok(found) = read_bits(alloc, &mut from) else {
        return false;
    };
    let mut out = Vec::new(alloc);
    (0..80u32).all(|number| found.contains(number) == numbers.contains(&number))
        && from.rest().is_empty()
        && write_bits(&mut out, order, &found).is_ok()
        && out.as_slice() == written
}

#[test]
fn sets_of_bits_stand_in_both_orders(rt: HostRuntime) {
    let (little, big) = (b"\x09\x01\0\0\0\0\0\0\0\x01", b"\x09\0\0\0\0\0\0\0\x01\x01");
    let table: [(Order, &[u8], &[u32], &[u8]); 6] = [
        (Order::Little, &[0], &[], &[0]),
        (Order::Little, &[2, 1, 1], &[0, 8], &[2, 1, 1]),
        (Order::Big, &[2, 1, 1], &[0, 8], &[2, 1, 1]),
        (Order::Little, little, &[0, 64], little),
        (Order::Big, big, &[0, 64], big),
        // zeros at the end
        (Order::Little, &[3, 1, 0, 0], &[0], &[1, 1]),
    ];
    for (order, bytes, numbers, written) in table {
        assert!(rt;
            is_set(rt.alloc(), order, bytes, numbers, written),
            "{bytes:?}"
        );
    }
    let table: [(&[u8], WireFault); 2] = [
        (&[0xFF], WireFault::NullSize(0)),
        (&[2, 1], WireFault::Short(0)),
    ];
    for (bytes, fault) in table {
        let read = read_bits(rt.alloc(), &mut Cursor::new(bytes, Order::Big));
        assert_eq!(rt; read.err(), Some(fault));
    }
}

/// Whether a status stands in these bytes that is of this kind, has this message and this call tree, and is written as these other bytes.
fn is_status(
    alloc: Global,
    bytes: &[u8],
    kind: StatusKind,
    texts: (&str, &str),
    written: &[u8],
) -> bool {
    let Ok(status) = read_status(alloc, &mut Cursor::new(bytes, Order::Little)) else {
        return false;
    };
    let mut out = Vec::new(alloc);
    status.kind == kind
        && status.message.as_str() == texts.0
        && status.tree.as_str() == texts.1
        && write_status(&mut out, Order::Little, &status).is_ok()
        && out.as_slice() == written
}

#[test]
fn statuses_have_a_kind_and_two_texts(rt: HostRuntime) {
    let (good, warning) = (StatusKind::Good, StatusKind::Warning);
    let (error, fatal) = (StatusKind::Error, StatusKind::Fatal);
    let table: [(&[u8], StatusKind, &str, &str, &[u8]); 8] = [
        (b"\xFF", good, "", "", b"\xFF"),
        (b"\0\0\0", good, "", "", b"\xFF"),
        (b"\0\x01X\xFF", good, "X", "", b"\0\x01X\0"),
        (b"\x01\x01X\0", warning, "X", "", b"\x01\x01X\0"),
        (b"\x01\0\0", warning, "", "", b"\x01\0\0"),
        (b"\x02\0\x01Y", error, "", "Y", b"\x02\0\x01Y"),
        (b"\x03\0\0", fatal, "", "", b"\x03\0\0"),
        (b"\x03\x01X\x01Y", fatal, "X", "Y", b"\x03\x01X\x01Y"),
    ];
    for (bytes, kind, message, tree, written) in table {
        assert!(rt;
            is_status(rt.alloc(), bytes, kind, (message, tree), written),
            "{bytes:?}"
        );
    }
    let table: [(&[u8], WireFault); 3] = [
        (&[4, 0, 0], WireFault::Range(0)),
        (&[2, 0], WireFault::Short(2)),
        (&[], WireFault::Short(0)),
    ];
    for (bytes, fault) in table {
        let read = read_status(rt.alloc(), &mut Cursor::new(bytes, Order::Little));
        assert_eq!(rt; read.err(), Some(fault));
    }
}
