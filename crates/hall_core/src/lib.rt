//! The pure core of a hall of locks: what a law says of cells, entries and histories, and a floor on
//! which actors take cells and a hub and commit entries, proved for every list of events.
//!
//! The crate above runs the same events by atomic words in many threads.
#![tactic(auto)]

mod floor;
mod law;
mod laws;
mod memory;

pub use floor::{Floor, FloorEvent, Next};
pub use law::Law;
pub use laws::floor_law;
pub use memory::NoMemory;
