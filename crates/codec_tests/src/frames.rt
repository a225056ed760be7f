use pva_frames::*;
use pva_wire::Order;
use std::alloc::Global;
use std::test::Fail;

/// A create channel message, big endian.
const WHOLE: [u8; 16] = [0xCA, 2, 0x80, 7, 0, 0, 0, 8, 0, 1, 0, 0, 0, 7, 1, 0x58];

/// The first half of a message, little endian.
const FIRST: [u8; 10] = [0xCA, 2, 0x10, 7, 2, 0, 0, 0, 1, 0];

/// Its second half.
const LAST: [u8; 9] = [0xCA, 2, 0x20, 7, 1, 0, 0, 0, 7];

/// Lets a value go.
pub fn discard<T: Drop>(_value: T) {}

/// Whether this is a message of this payload, or this fault.
fn is(next: &Next, expected: Result<&[u8], FrameFault>) -> bool {
    match next {
        Next::Event(Event::Message(whole)) => expected == Ok(whole.payload.as_slice()),
        Next::Fault(fault) => expected == Err(*fault),
        _ => false,
    }
}

/// Whether a message of this payload comes next, or this fault.
fn comes(assembler: &mut Assembler, expected: Result<&[u8], FrameFault>) -> bool {
    match assembler.next() {
        Ok(next) => {
            let right = is(&next, expected);
            discard(next);
            right
        }
        Err(NoMemory) => false,
    }
}

/// The order, the command, the payload and the place of the message that is lent in front of a piece.
fn lent(
    assembler: &mut Assembler,
    piece: &'static [u8],
) -> Option<(Order, u8, &'static [u8], u64)> {
    match assembler.lend(piece) {
        Some(lent) => Some((lent.order, lent.command, lent.payload, lent.place)),
        None => None,
    }
}

/// What holds of each stream.
fn laws() {
    pieces_do_not_matter();
    every_byte_has_its_frame();
    message_reads_back();
    control_reads_back();
}

#[test]
fn whole_messages_are_lent_and_the_others_are_joined(rt: HostRuntime) -> Result<(), Fail> {
    let mut assembler = Assembler::new(rt.alloc());
    let payload = &WHOLE[8..];
    assert_eq!(rt;
        lent(&mut assembler, &WHOLE),
        Some((Order::Big, 7, payload, 0))
    );
    assert_eq!(rt; lent(&mut assembler, &FIRST), None);
    // up to the end of its header
    assert_eq!(rt; assembler.feed_some(&FIRST)?, 8);
    assert_eq!(rt; assembler.rest(), Some(16));
    assembler.feed(&FIRST[8..])?;
    assert_eq!(rt; lent(&mut assembler, &WHOLE), None);
    assembler.feed(&LAST)?;
    assert_eq!(rt; lent(&mut assembler, &WHOLE), None);
    assert!(rt; comes(&mut assembler, Ok(&[1, 0, 7])));
    assert_eq!(rt;
        lent(&mut assembler, &WHOLE),
        Some((Order::Big, 7, payload, 35))
    );
    assert_eq!(rt; assembler.rest(), None);
    laws();
    Ok(())
}

/// Whether these bytes are refused behind a message, and again behind a further one.
fn is_refused(assembler: &mut Assembler, bytes: &[u8], fault: FrameFault) -> bool {
    assembler.feed(&WHOLE).is_ok()
        && assembler.feed(bytes).is_ok()
        && comes(assembler, Ok(&WHOLE[8..]))
        && comes(assembler, Err(fault))
        && assembler.feed(&WHOLE).is_ok()
        && comes(assembler, Err(fault))
        && assembler.rest() == Some(fault.place())
}

#[test]
fn a_refused_header_is_told_again_and_again(rt: HostRuntime) {
    let (place, length) = (16, 67_108_865);
    let (have, came) = (None, 7);
    let table: [(&[u8], FrameFault); 3] = [
        (&[0xCB], FrameFault::BadMagic { byte: 0xCB, place }),
        (
            b"\xCA\x02\0\x02\x01\0\0\x04",
            FrameFault::TooLong { length, place },
        ),
        (&LAST, FrameFault::BadSegment { have, came, place }),
    ];
    for (bytes, fault) in table {
        let mut assembler = Assembler::new(rt.alloc());
        assert!(rt; is_refused(&mut assembler, bytes, fault));
        assert_eq!(rt; fault.place(), 16);
    }
}

/// Appends a message whose payload is written behind the room for its header.
fn make_in_place(out: &mut Vec<u8>, order: Order, payload: &[u8]) -> Result<(), NoMemory> {
    let start = out.len();
    begin_message(out)?;
    out.extend_from_slice(payload)?;
    end_message(out, start, order, true, 2, 1016)
}

/// A message whose payload was written behind the room for its header, and what stands before it.
fn made_in_place(
    alloc: Global,
    order: Order,
    before: &[u8],
    payload: &[u8],
) -> Result<Vec<u8>, NoMemory> {
    let mut out = Vec::from_slice(alloc, before)?;
    make_in_place(&mut out, order, payload)?;
    Ok(out)
}

#[test]
fn a_header_is_put_in_front_of_a_payload(rt: HostRuntime) -> Result<(), Fail> {
    let alloc = rt.alloc();
    let little = made_in_place(alloc, Order::Little, &[7, 8], &[1, 2, 3])?;
    let expected = [7, 8, 0xCA, 2, 0x40, 2, 3, 0, 0, 0, 1, 2, 3];
    assert_eq!(rt; little.as_slice(), expected.as_slice());
    let big = made_in_place(alloc, Order::Big, &[], &[])?;
    assert_eq!(rt; big.as_slice(), [0xCA, 2, 0xC0, 2, 0, 0, 0, 0].as_slice());
    let payload = vec![in alloc; 5u8; 2000]?;
    let cut = made_in_place(alloc, Order::Little, &[], payload.as_slice())?;
    let mut out = Vec::new(alloc);
    write_message(&mut out, Order::Little, true, 2, payload.as_slice(), 1016)?;
    assert_eq!(rt; cut.as_slice(), out.as_slice());
    Ok(())
}

/// Appends a server's order of bytes.
fn ordered(alloc: Global, order: Order) -> Result<Vec<u8>, NoMemory> {
    let mut out = Vec::new(alloc);
    write_control(&mut out, order, true, 2, 0)?;
    Ok(out)
}

#[test]
fn a_server_tells_its_order(rt: HostRuntime) -> Result<(), Fail> {
    let little = ordered(rt.alloc(), Order::Little)?;
    assert_eq!(rt;
        little.as_slice(),
        [0xCA, 2, 0x41, 2, 0, 0, 0, 0].as_slice()
    );
    let big = ordered(rt.alloc(), Order::Big)?;
    assert_eq!(rt; big.as_slice(), [0xCA, 2, 0xC1, 2, 0, 0, 0, 0].as_slice());
    Ok(())
}
