//! What a word says of its cell or of the hub, and where it lies.
ghost use Rattle.std.specs.Prelude.{◌≡◌, ◌≤◌};
ghost use Rattle.hall_locks.specs.Lines.{word_at};

use crate::hall::Hall;
use hall_core::Law;

/// Nobody has it.
pub(crate) const FREE: u64 = 0;

/// A seat has it, and nobody waits.
pub(crate) const TAKEN: u64 = 1;

/// A seat has it, and somebody may wait. A seat that waited takes it so, since others may wait still.
pub(crate) const AWAITED: u64 = 2;

/// Tries so often to take a word before its thread goes to sleep: to sleep and be woken takes longer than most seats keep what they have.
pub(crate) const TRIES: u32 = 64;

/// Looks so often at a word between two tries. A look leaves the word where it is, so that it doesn't hold up the seat that has it.
const LOOKS: u32 = 256;

/// The word of the hub, which is number 0, or of a cell, which is one more than the cell's number: eight words apart, so that each lies on
/// a cache line of its own.
pub(crate) fn word_of(place: usize) -> usize
    requires { place ≤ 4097 }
    ensures { result ≡ word_at place }
{
    place * 8
}

impl<T: Law> Hall<T> {
    // Looks for the word of this place to be free, for a while.
    pub(crate) fn watch(&self, place: usize)
        requires { place ≤ self.now.count }
    {
        let word = word_of(place);
        for _ in 0..LOOKS {
            if self.table.shared.peek(word) == FREE {
                return;
            }
        }
    }

    // Wakes one of those who wait for the word of this place, which was `found` and is free.
    pub(crate) fn wake(&self, place: usize, found: u64)
        requires { place ≤ self.now.count }
    {
        if found == AWAITED {
            self.table.shared.wake_one(word_of(place));
        }
    }
}
