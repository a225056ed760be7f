//! Database links: which records a record reaches by its fields INP, OUT and FLNK, and which steps the actions of one
//! entry come to (EPICS record reference, "Database Links").
#![tactic(auto)]

mod building;
mod chain;
mod converting;
mod course;
mod doing;
mod fields;
mod laws;
mod link;
mod numbers;
mod reaching;
mod words;

pub use converting::convert;
pub use laws::{one_chain, others_once, steps_are_reached};
pub use link::Links;
pub use pvd_type::NoMemory;
