//! EPICS access security files: which users on which hosts may read and write the channels of a name.
#![tactic(auto)]

mod access;
mod fault;
mod file;
mod forms;
mod groups;
mod keywords;
mod laws;
mod lists;
mod names;
mod reading;
mod rules;

pub use access::Access;
pub use fault::AcfFault;
pub use laws::one_reading;
pub use rules::Rules;
