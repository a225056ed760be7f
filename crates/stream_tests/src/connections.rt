use crate::sessions::desk_of_x;
use desk_core::SoloDesk;
use pva_outside::{FixedClock, MemoryPort, PlainLink};
use pva_wire::Order;
use srv_stream::{Ended, NoMemory, serve_connection};
use std::alloc::Global;
use std::test::Fail;

/// The client is validated, and the channel X is open under the ids 1 and 0.
const OPEN: &[u8] =
    b"\xCA\x02\x00\x01\x13\x00\x00\x00\x00\x00\x01\x00\x00\x00\x00\x00\x09anonymous\xFF\
      \xCA\x02\x00\x07\x08\x00\x00\x00\x01\x00\x01\x00\x00\x00\x01X";

/// The reply to the monitor behind 1,024, which has the id 1,024.
const TOO_MANY: &[u8] =
    b"\xCA\x02\x40\x0D\x19\x00\x00\x00\x00\x04\x00\x00\x08\x02\x11too many monitors\x00";

/// A client that begins 1,025 monitors, of the ids 0 to 1,024.
fn many_monitors(alloc: Global) -> Result<Vec<u8>, NoMemory> {
    let mut bytes = Vec::from_slice(alloc, OPEN)?;
    for id in 0..1025u32 {
        bytes.extend_from_slice(b"\xCA\x02\x00\x0D\x0C\x00\x00\x00\x00\x00\x00\x00")?;
        bytes.extend_from_slice(&id.to_le_bytes())?;
        bytes.extend_from_slice(b"\x08\x80\x00\x00")?;
    }
    Ok(bytes)
}

/// How a connection to this desk ends, with what was written to its client.
fn served(
    alloc: Global,
    desk: &mut SoloDesk<MemoryPort>,
    input: &[u8],
) -> Result<(Ended, Vec<u8>), NoMemory> {
    let mut link = PlainLink::new(alloc, Vec::from_slice(alloc, input)?);
    let clock = FixedClock::new(100, 5);
    let ended = serve_connection(alloc, desk, &mut link, &clock, Order::Little, 1 << 62);
    Ok((ended, Vec::from_slice(alloc, link.written())?))
}

#[test]
fn a_connection_ends_its_own_monitors(rt: HostRuntime) -> Result<(), Fail> {
    let alloc = rt.alloc();
    let input = many_monitors(alloc)?;
    let mut desk = desk_of_x(alloc)?;
    let (first_ended, first) = served(alloc, &mut desk, &input)?;
    let (second_ended, second) = served(alloc, &mut desk, &input)?;
    assert_eq!(rt; first_ended, Ended::Closed);
    assert_eq!(rt; second_ended, Ended::Closed);
    assert!(rt; first.as_slice().ends_with(TOO_MANY));
    assert_eq!(rt; second, first);
    Ok(())
}
