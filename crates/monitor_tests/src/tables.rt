use crate::leaves::discard;
use chan_table::{Ask, AskKind, Table, TableAnswer};
use pvd_type::BitSet;
use std::alloc::Global;
use std::test::Fail;

/// A get's request on a channel.
fn get_on(alloc: Global, sid: u32) -> Ask<u32> {
    Ask {
        sid,
        kind: AskKind::Get,
        mask: BitSet::new(alloc),
        atomic: None,
        sub: None,
        window: None,
        started: false,
    }
}

/// Reserves an id, and puts in a request on this channel under it.
fn begin(alloc: Global, table: &mut Table<u32, u32>, id: u32, sid: u32) -> Result<(), TableAnswer> {
    match table.reserve(id) {
        Ok(()) => {
            table.add(id, get_on(alloc, sid));
            Ok(())
        }
        Err(answer) => Err(answer),
    }
}

/// The id of the request that leaves a channel next.
fn next_of(table: &mut Table<u32, u32>, sid: u32) -> Option<u32> {
    match table.take_of(sid) {
        Some((id, ask)) => {
            discard(ask);
            Some(id)
        }
        None => None,
    }
}

/// The sid of the request of an id, which is looked for near a place.
fn sid_near(table: &Table<u32, u32>, near: &mut usize, id: u32) -> Option<u32> {
    match table.ask_near(near, id) {
        Some(ask) => Some(ask.sid),
        None => None,
    }
}

#[test]
fn a_request_is_found_from_any_place(rt: HostRuntime) -> Result<(), Fail> {
    let mut table: Table<u32, u32> = Table::new(rt.alloc())?;
    for n in 0..40u32 {
        assert_eq!(rt; begin(rt.alloc(), &mut table, 3 * n, n), Ok(()));
    }
    for place in 0..50usize {
        let mut near = place;
        assert_eq!(rt; sid_near(&table, &mut near, 60), Some(20));
        assert_eq!(rt; near, 20);
        assert_eq!(rt; sid_near(&table, &mut near, 61), None);
        assert_eq!(rt; near, 21);
        assert_eq!(rt; sid_near(&table, &mut near, 63), Some(21));
    }
    let mut near = usize::MAX;
    assert_eq!(rt; sid_near(&table, &mut near, 117), Some(39));
    assert_eq!(rt; sid_near(&table, &mut near, 118), None);
    Ok(())
}

#[test]
fn requests_of_a_channel_leave_in_rising_order(rt: HostRuntime) -> Result<(), Fail> {
    let mut table: Table<u32, u32> = Table::new(rt.alloc())?;
    for (id, sid) in [(900, 2), (0, 2), (5, 1), (40, 2), (41, 3)] {
        assert_eq!(rt; begin(rt.alloc(), &mut table, id, sid), Ok(()));
    }
    assert_eq!(rt; next_of(&mut table, 2), Some(0));
    assert_eq!(rt; next_of(&mut table, 2), Some(40));
    assert_eq!(rt; next_of(&mut table, 2), Some(900));
    assert_eq!(rt; next_of(&mut table, 2), None);
    assert_eq!(rt; table.next_id(0), Some(5));
    assert_eq!(rt; table.next_id(6), Some(41));
    assert_eq!(rt; table.next_id(41), Some(41));
    assert_eq!(rt; table.next_id(42), None);
    Ok(())
}

#[test]
fn what_is_written_to_a_request_stays(rt: HostRuntime) -> Result<(), Fail> {
    let mut table: Table<u32, u32> = Table::new(rt.alloc())?;
    assert_eq!(rt; begin(rt.alloc(), &mut table, 8, 1), Ok(()));
    assert_eq!(rt; begin(rt.alloc(), &mut table, 9, 1), Ok(()));
    if let Some(ask) = table.ask_mut(8) {
        ask.started = true;
        ask.sid = 2;
    }
    assert!(rt; table.ask_mut(10).is_none());
    assert!(rt; table.ask(8).is_some_and(|ask| ask.started));
    assert!(rt; table.ask(9).is_some_and(|ask| !ask.started));
    // it is on the other channel now
    assert_eq!(rt; next_of(&mut table, 1), Some(9));
    assert_eq!(rt; next_of(&mut table, 2), Some(8));
    Ok(())
}
