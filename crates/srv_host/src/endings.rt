// Which sessions have ended.
use std::alloc::Global;
use std::sync::{Mutex, Wait};

/// The numbers of sessions that have ended and weren't looked at since. Each session tells its own from its thread.
#[derive(Drop)]
pub(crate) struct Endings {
    numbers: Mutex<Vec<usize>>,
}

impl Endings {
    /// None has ended.
    pub(crate) fn new(alloc: Global) -> Endings {
        Endings {
            numbers: Mutex::new(Vec::new(alloc)),
        }
    }

    /// Tells that this session has ended. Where there is no memory for that, its thread is joined at the host's end, as those of
    /// sessions that run till then.
    pub(crate) fn tell<R: Wait>(&self, rt: &R, number: usize) {
        let _ = self.numbers.lock(rt).push(number);
    }

    /// One of the sessions that have ended, which is then forgotten.
    pub(crate) fn take<R: Wait>(&self, rt: &R) -> Option<usize> {
        self.numbers.lock(rt).pop()
    }
}
