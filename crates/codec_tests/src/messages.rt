use crate::frames::discard;
use pva_messages::{MessageFault, ToClient, read_reply, request_in};
use pva_wire::{Order, write_size};
use pvd_codec::ValueFault;
use pvd_desc::Registry;
use pvd_type::NoMemory;
use std::alloc::Global;
use std::test::Fail;

/// A server's validation with so many methods that have no letters.
fn empty_methods(alloc: Global, count: u32) -> Result<Vec<u8>, NoMemory> {
    let mut payload = Vec::from_slice(alloc, &[0, 0, 1, 0, 0xFF, 0x7F])?;
    write_size(&mut payload, Order::Little, count)?;
    for _ in 0..count {
        payload.push(0)?;
    }
    Ok(payload)
}

/// How many methods a validation names.
fn methods_in(message: &ToClient) -> usize {
    match message {
        ToClient::Validation { methods, .. } => methods.len(),
        _ => 0,
    }
}

/// The same of a payload, or why it was refused.
fn methods_of(alloc: Global, payload: &[u8]) -> Result<usize, MessageFault> {
    let mut registry = Registry::new(alloc);
    match read_reply(alloc, Order::Little, 1, payload, &mut registry, None) {
        Ok(message) => {
            let count = methods_in(&message);
            discard(message);
            Ok(count)
        }
        Err(fault) => Err(fault),
    }
}

#[test]
fn methods_take_no_more_memory_than_a_read_may(rt: HostRuntime) -> Result<(), Fail> {
    let payload = empty_methods(rt.alloc(), 100_000)?;
    assert_eq!(rt; methods_of(rt.alloc(), &payload), Ok(100_000));
    let payload = empty_methods(rt.alloc(), 1_000_000)?;
    let refused = MessageFault {
        command: 1,
        cause: ValueFault::NoMemory,
    };
    assert_eq!(rt; methods_of(rt.alloc(), &payload), Err(refused));
    Ok(())
}

#[test]
fn the_request_of_a_reply_is_its_first_number(rt: HostRuntime) {
    for (command, payload, request) in [
        (0x0A, &[1, 0, 0, 0, 8, 0xFF][..], Some(1)),
        (
            0x0A,
            &[1, 0, 0, 0, 0, 0xFF, 1, 1, 0x2A, 0, 0, 0][..],
            Some(1),
        ),
        (0x11, &[4, 0, 0, 0][..], Some(4)),
        (0x14, &[4, 0, 0][..], None),
        (7, &[7, 0, 0, 0, 1, 0, 0, 0, 0xFF][..], None),
    ] {
        assert_eq!(rt; request_in(Order::Little, command, payload), request);
    }
}
