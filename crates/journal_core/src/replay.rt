// The replay of entries over states.
ghost use Rattle.std.specs.Prelude.{◌≡◌, length, IfOk, OnOk};
ghost use Rattle.journal_core.specs.Histories.{written, replayed, WritesWithin, EntriesWithin};

use crate::entry::Entry;
use rec_kinds::{NoMemory, RecState};
use std::alloc::Global;

/// Copies of these states.
pub(crate) fn copy_of(alloc: Global, states: &[RecState]) -> Result<Vec<RecState>, NoMemory>
    ensures { IfOk result (λ copies. copies.items ≡ states.now) }
{
    let mut copies = Vec::with_capacity(alloc, states.len())?;
    for state in states {
        copies.push(state.clone_in(alloc)?)?;
    }
    Ok(copies)
}

/// Makes of these states those after these entries.
pub(crate) fn replay(
    alloc: Global,
    states: &mut [RecState],
    entries: &[Entry],
) -> Result<(), NoMemory>
    requires { EntriesWithin (length states.old) entries.now }
    ensures { OnOk result (states.new ≡ replayed states.old entries.now) }
{
    for entry in entries {
        write(alloc, states, entry.writes.as_slice())?;
    }
    Ok(())
}

/// Makes of these states those after the writes of one entry.
fn write(alloc: Global, states: &mut [RecState], writes: &[(u32, RecState)]) -> Result<(), NoMemory>
    requires { WritesWithin (length states.old) writes.now }
    ensures { OnOk result (states.new ≡ written states.old writes.now) }
{
    for write in writes {
        states[write.0 as usize] = write.1.clone_in(alloc)?;
    }
    Ok(())
}
