use cli_search::{Plan, Searched, find};
use pva_outside::{MemoryDatagrams, Peer};
use pva_search::Name;
use std::collections::VecDeque;
use std::test::Fail;

/// Where the searches go.
const TO: Peer = Peer {
    address: [0, 0, 0, 0, 0, 0, 0, 0, 0, 0, 0xFF, 0xFF, 127, 0, 0, 1],
    port: 5_076,
};

#[test]
fn a_search_of_no_turns_is_spent_at_once(rt: HostRuntime) -> Result<(), Fail> {
    let alloc = rt.alloc();
    let mut datagrams = MemoryDatagrams::new(alloc, VecDeque::new(alloc), Vec::new(alloc));
    let plan = Plan {
        to: TO,
        rounds: 3,
        idle: 200,
        turns: 0,
    };
    let name = Name::of(alloc, "X")?;
    assert!(rt; find(alloc, name, plan, &mut datagrams) == Searched::Spent);
    assert!(rt; datagrams.traffic().is_empty());
    Ok(())
}
