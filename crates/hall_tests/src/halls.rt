//! Two threads add entries to two cells, each entry 1 to both.
ghost use Rattle.std.specs.Prelude.{◌≡◌, ◌<◌, ◌-◌, ◌^◌, [], ◌∷◌, Some, MatchResult};
ghost use Rattle.histories.specs.History.{entries_of};
ghost use Rattle.hall_tests.specs.TwoCells.{two_cells};
ghost use Rattle.hall_locks.specs.Passes.{hall_id, pass_hall, held_hall, held_view, held_seen};

use crate::two_cells::TwoCells;
use hall_locks::{Hall, Held, MarkOf, NoMark, NoMemory, Pass};
use std::alloc::Global;
use std::sync::Wait;
use std::test::Fail;
use std::thread;
use std::thread::Threads;

/// The mark of an entry.
pub(crate) struct Added;

impl MarkOf<TwoCells> for Added {
    ghost use Rattle.std.specs.Prelude.{Some};

    ghost mark = { Some tt };
}

/// Adds 1 to both cells, which are in hand with the hub, and gives all back.
pub(crate) fn add_held(hall: &Hall<TwoCells>, mut held: Held<TwoCells>) -> Pass<TwoCells>
    requires own { held_hall held ≡ hall_id hall.now }
    requires both { held.footprint.items ≡ 0 ∷ 1 ∷ [] }
    requires taken { (held_view held).hub ≡ Some held.hub }
    requires entries { two_cells.entries held.hub ≡ entries_of (held_seen held).deeds }
    requires more { held.hub < 2 ^ 64 - 1 }
    ensures own { pass_hall result ≡ held_hall held }
{
    let next = held.hub + 1;
    *held.hub_mut() = next;
    *held.cell_mut(0) = next;
    *held.cell_mut(1) = next;
    hall.commit::<Added>(held)
}

/// Adds 1 to both cells. At an error the pass is as it was.
fn add_one<R: Wait>(
    rt: &R,
    alloc: Global,
    hall: &Hall<TwoCells>,
    pass: Pass<TwoCells>,
) -> Result<Pass<TwoCells>, (Pass<TwoCells>, NoMemory)>
    requires own { pass_hall pass ≡ hall_id hall.now }
    requires count { hall.now.count ≡ 2 }
    ensures own { MatchResult result
        (λ p. pass_hall p ≡ pass_hall pass)
        (λ e. pass_hall e.0 ≡ pass_hall pass) }
{
    let both = match vec![in alloc; 0u32, 1] {
        Ok(both) => both,
        Err(_) => return Err((pass, NoMemory)),
    };
    let visit = hall.visit(rt, alloc, pass, both)?;
    let held = hall.hub(rt, visit);
    if held.hub == u64::MAX {
        return Ok(hall.look::<NoMark>(held));
    }
    Ok(add_held(hall, held))
}

/// Adds 1 to both cells so many times, or until there is no memory.
fn add_many<R: Wait>(
    rt: &R,
    alloc: Global,
    hall: &Hall<TwoCells>,
    pass: Pass<TwoCells>,
    times: u32,
) -> Pass<TwoCells>
    requires own { pass_hall pass ≡ hall_id hall.now }
    requires count { hall.now.count ≡ 2 }
    ensures { pass_hall result ≡ pass_hall pass }
{
    let mut mine = pass;
    for _ in 0..times {
        mine = match add_one(rt, alloc, hall, mine) {
            Ok(pass) => pass,
            Err((pass, _)) => return pass,
        };
    }
    mine
}

/// What both cells and the hub hold.
pub(crate) fn held_in<R: Wait>(
    rt: &R,
    alloc: Global,
    hall: &Hall<TwoCells>,
    pass: Pass<TwoCells>,
) -> Result<(u64, u64, u64), NoMemory>
    requires own { pass_hall pass ≡ hall_id hall.now }
    requires count { hall.now.count ≡ 2 }
{
    let Ok(both) = vec![in alloc; 0u32, 1] else {
        return Err(NoMemory);
    };
    let visit = match hall.visit(rt, alloc, pass, both) {
        Ok(visit) => visit,
        Err((_, error)) => return Err(error),
    };
    let (first, second) = (*visit.cell(0), *visit.cell(1));
    let held = hall.hub(rt, visit);
    let entries = held.hub;
    let pass = hall.look::<NoMark>(held);
    match hall.visit(rt, alloc, pass, Vec::new(alloc)) {
        Ok(visit) => {
            let _pass = hall.leave(visit);
            Ok((first, second, entries))
        }
        Err((_, error)) => Err(error),
    }
}

/// Two threads add 500 entries each, under passes of their own that meet and end.
fn add_in_threads<R: Threads + Wait + Sync>(
    rt: &R,
    alloc: Global,
) -> Result<(u64, u64, u64), NoMemory> {
    let cells = vec![in alloc; 0u64; 2]?;
    let (hall, mut keep) = Hall::<TwoCells>::new(alloc, cells, 0)?;
    let one = hall.split(&mut keep)?;
    let two = hall.split(&mut keep)?;
    let shared = &hall;
    let (mut one, mut two) = thread::join(
        rt,
        move || -> Pass<TwoCells>
            requires { (shared.now.count ≡ 2) × (pass_hall one ≡ hall_id shared.now) }
            ensures { pass_hall result ≡ pass_hall one }
        { add_many(rt, alloc, shared, one, 500) },
        move || -> Pass<TwoCells>
            requires { (shared.now.count ≡ 2) × (pass_hall two ≡ hall_id shared.now) }
            ensures { pass_hall result ≡ pass_hall two }
        { add_many(rt, alloc, shared, two, 500) },
    );
    hall.meet(&mut one, &mut two)?;
    hall.end(&mut keep, one);
    hall.end(&mut keep, two);
    held_in(rt, alloc, &hall, keep)
}

#[test]
fn two_threads_add_a_thousand_entries(rt: HostRuntime) -> Result<(), Fail> {
    let alloc: Global = rt.alloc();
    let (first, second, entries) = add_in_threads(&rt, alloc)?;
    assert_eq!(rt; first, 1000);
    assert_eq!(rt; second, 1000);
    assert_eq!(rt; entries, 1000);
    Ok(())
}
