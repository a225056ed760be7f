// What is wrong with a file of cases.
use std::alloc::{AllocError, AllocFailed};

/// Why a file of cases can't be run.
#[derive(Clone, Copy, Debug, PartialEq, Eq)]
pub enum CaseFault {
    /// The line of this number, counted from 1, has this fault.
    At(u32, &'static str),
    /// Memory ran out.
    NoMemory,
}

impl From<AllocError> for CaseFault {
    fn from(_error: AllocError) -> CaseFault {
        CaseFault::NoMemory
    }
}

impl<T: Drop> From<AllocFailed<T>> for CaseFault {
    fn from(_failed: AllocFailed<T>) -> CaseFault {
        CaseFault::NoMemory
    }
}
