//! More threads than processors take turns. Where one sleeps for good its turn never comes, and none ends.
ghost use Rattle.std.specs.Prelude.{◌≡◌, ◌<◌, IfSome};
ghost use Rattle.hall_locks.specs.Passes.{hall_id, pass_hall};

use crate::halls::{add_held, held_in};
use crate::two_cells::TwoCells;
use hall_locks::{Hall, NoMark, NoMemory, Pass};
use std::alloc::Global;
use std::sync::Wait;
use std::test::Fail;
use std::thread;
use std::thread::Threads;

/// So many threads take turns, round after round.
const THREADS: u64 = 24;

/// The entries at the end.
const ENTRIES: u64 = 72;

/// Adds an entry if it is this thread's turn. None once all entries stand.
fn take_turn<R: Wait>(
    rt: &R,
    alloc: Global,
    hall: &Hall<TwoCells>,
    pass: Pass<TwoCells>,
    turn: u64,
) -> Option<Pass<TwoCells>>
    requires own { pass_hall pass ≡ hall_id hall.now }
    requires count { hall.now.count ≡ 2 }
    ensures own { IfSome result (λ p. pass_hall p ≡ pass_hall pass) }
{
    let Ok(both) = vec![in alloc; 0u32, 1] else {
        return None;
    };
    let Ok(visit) = hall.visit(rt, alloc, pass, both) else {
        return None;
    };
    let held = hall.hub(rt, visit);
    let entries = held.hub;
    if entries >= ENTRIES {
        let _pass = hall.look::<NoMark>(held);
        return None;
    }
    if entries % THREADS != turn {
        return Some(hall.look::<NoMark>(held));
    }
    Some(add_held(hall, held))
}

/// Adds an entry at each of this thread's turns, until all entries stand.
fn take_turns<R: Wait>(
    rt: &R,
    alloc: Global,
    hall: &Hall<TwoCells>,
    pass: Pass<TwoCells>,
    turn: u64,
)
    requires own { pass_hall pass ≡ hall_id hall.now }
    requires count { hall.now.count ≡ 2 }
{
    let mut mine = pass;
    for _ in rt.forever() {
        mine = match take_turn(rt, alloc, hall, mine, turn) {
            Some(pass) => pass,
            None => return,
        };
    }
}

/// What both cells and the hub hold after the threads, each with a pass of its own, have taken their turns.
fn turns_in_threads<R: Threads + Wait + Sync>(
    rt: &R,
    alloc: Global,
) -> Result<(u64, u64, u64), NoMemory> {
    let cells = vec![in alloc; 0u64; 2]?;
    let (hall, keep) = Hall::<TwoCells>::new(alloc, cells, 0)?;
    let shared = &hall;
    let keep = thread::scope(
        thread::scope_env(),
        rt,
        move |scope| -> Pass<TwoCells>
            requires { (shared.now.count ≡ 2) × (pass_hall keep ≡ hall_id shared.now) }
            ensures { pass_hall result ≡ pass_hall keep }
        {
            let mut keep = keep;
            for turn in 0..THREADS {
                let Ok(pass) = shared.split(&mut keep) else {
                    return keep;
                };
                let _started = scope.spawn(move || take_turns(rt, alloc, shared, pass, turn));
            }
            keep
        },
    );
    held_in(rt, alloc, &hall, keep)
}

#[test]
fn no_thread_sleeps_for_good(rt: HostRuntime) -> Result<(), Fail> {
    let alloc: Global = rt.alloc();
    let (first, second, entries) = turns_in_threads(&rt, alloc)?;
    assert_eq!(rt; first, ENTRIES);
    assert_eq!(rt; second, ENTRIES);
    assert_eq!(rt; entries, ENTRIES);
    Ok(())
}
