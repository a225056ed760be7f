//! A floor of two cells.
ghost use Rattle.std.specs.Prelude.{◌≡◌, ℕ, IfOk};
ghost use Rattle.hall_core.specs.Floor.{FloorState, MayCommit};
ghost use Rattle.hall_tests.specs.TwoCells.{two_cells};

use crate::two_cells::TwoCells;
use hall_core::{Floor, FloorEvent, Next};
use std::alloc::{AllocError, Global};
use std::test::Fail;

/// The first entry.
fn first_entry(alloc: Global) -> Result<Next<TwoCells>, AllocError>
    ensures { IfOk result (λ next. (f : FloorState ℕ ℕ) → f.hub ≡ 0
        → MayCommit two_cells f next.hub next.writes.items) }
{
    let writes = vec![in alloc; (0, 1), (1, 1)]?;
    Ok(Next { hub: 1, writes })
}

#[test]
fn both_cells_show_an_entry(rt: HostRuntime) -> Result<(), Fail> {
    let alloc: Global = rt.alloc();
    let cells = vec![in alloc; 0u64; 2]?;
    let next = first_entry(alloc)?;
    let mut floor: Floor<TwoCells> = Floor::new(alloc, cells, 0)?;
    assert!(rt; floor.step(FloorEvent::Take(0, 0)));
    assert!(rt; floor.step(FloorEvent::Take(0, 1)));
    assert!(rt; floor.step(FloorEvent::TakeHub(0)));
    assert!(rt; floor.step(FloorEvent::Commit(0, next)));
    assert_eq!(rt; *floor.cell(0), 1);
    assert_eq!(rt; *floor.cell(1), 1);
    assert!(rt; !floor.step(FloorEvent::Take(1, 0)));
    Ok(())
}
