// A session without a stream.
ghost use Rattle.std.specs.Prelude.{OnOk};
ghost use Rattle.srv_session.specs.Calls.{AreLiving, Holds, IsOf};
ghost use Rattle.srv_session.specs.State.{slots_of};
ghost use Rattle.srv_session.specs.Views.{state_of};

use desk_api::{Desk, Moment, Site};
use desk_core::SoloDesk;
use pva_frames::{Event, Payload, Whole};
use pva_outside::MemoryPort;
use pva_wire::Order;
use srv_session::{Session, SessionStop};
use srv_stream::NoMemory;
use std::alloc::Global;
use std::test::Fail;

/// What the entries of a desk may weigh together.
const LIMIT: u64 = 268_435_456;

/// The payload of a validation.
const VALIDATION: &[u8] = b"\x00\x00\x01\x00\x00\x00\x00\x00\x09anonymous\xFF";

const VALIDATED: &[u8] = b"\xCA\x02\x40\x09\x01\x00\x00\x00\xFF";

/// The desk of the record X, which is 42.
pub fn desk_of_x(alloc: Global) -> Result<SoloDesk<MemoryPort>, NoMemory> {
    let ports = vec![in alloc; None]?;
    SoloDesk::new(alloc, Site::single(alloc, "X", 42)?, ports, LIMIT)
}

/// A message in little endian.
fn message(command: u8, payload: Vec<u8>) -> Event {
    Event::Message(Whole {
        order: Order::Little,
        command,
        payload: Payload::of(payload),
        place: 0,
    })
}

/// Whether a pump finds something behind this answer, where it is no stop.
fn pumped_after<D: Desk>(
    session: &mut Session,
    desk: &mut D,
    answer: Result<(), SessionStop>,
) -> Result<bool, NoMemory>
    requires site { OnOk answer (IsOf (D.seat desk.old).seen.base.site (state_of session.old)) }
    requires holds { OnOk answer (Holds (D.seat desk.old).log (state_of session.old)) }
    requires living { AreLiving (D.seat desk.old).log (slots_of (state_of session.old).requests) }
    ensures { AreLiving (D.seat desk.new).log (slots_of (state_of session.new).requests) }
{
    match answer {
        Ok(()) => session.pump(desk),
        Err(_) => Ok(false),
    }
}

/// What a session over this desk says to the payload of a validation, once the greeting is taken, and whether a pump then finds
/// something.
fn handled_over(
    alloc: Global,
    desk: &mut SoloDesk<MemoryPort>,
    payload: Vec<u8>,
) -> Result<(Result<(), SessionStop>, Vec<u8>, Result<bool, NoMemory>), NoMemory> {
    let mut session = Session::start(alloc, Order::Little)?;
    session.took(session.output().len());
    let answer = session.handle(alloc, message(1, payload), desk, Moment::new(100, 5));
    let output = Vec::from_slice(alloc, session.output());
    let more = pumped_after(&mut session, desk, answer);
    session.finish(desk);
    Ok((answer, output?, more))
}

/// The same of a session of the record X.
fn handled(
    alloc: Global,
) -> Result<(Result<(), SessionStop>, Vec<u8>, Result<bool, NoMemory>), NoMemory> {
    let payload = Vec::from_slice(alloc, VALIDATION)?;
    let mut desk = desk_of_x(alloc)?;
    handled_over(alloc, &mut desk, payload)
}

#[test]
fn a_session_by_itself(rt: HostRuntime) -> Result<(), Fail> {
    let alloc = rt.alloc();
    let (answer, output, more) = handled(alloc)?;
    assert_eq!(rt; answer, Ok(()));
    assert_eq!(rt; output.as_slice(), VALIDATED);
    assert_eq!(rt; more, Ok(false));
    Ok(())
}
