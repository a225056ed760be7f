//! Database texts as records: the fields and infos of each, with the line of every fault.
#![tactic(auto)]

mod bodies;
mod fault;
mod forms;
mod laws;
mod loading;
mod names;
mod records;

pub use fault::LoadFault;
pub use laws::one_loading;
pub use loading::read_records;
