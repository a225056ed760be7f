//! The queues of monitors: how many posts a monitor hasn't read yet, each run of them merged into one update.
#![tactic(auto)]

mod calls;
mod joining;
mod laws;
mod queue;
mod shared;
mod update;

pub use joining::is_within;
pub use laws::{courses_are_those_of_queues, updates_fold};
pub use pvd_type::NoMemory;
pub use queue::MonQueue;
pub use shared::SharedValue;
pub use update::{Post, Prepared, Update};
