//! Descriptions of types on the wire, and the types that a connection has defined under ids.
#![tactic(auto)]

mod chain;
mod code;
mod cursor;
mod fault;
mod items;
mod laws;
mod reading;
mod registry;
mod standing;
mod writing;

pub use cursor::read_desc;
pub use fault::{DescCause, DescFault, DescStop};
pub use laws::descriptions;
pub use reading::{READ_ROOM, desc_at, desc_within};
pub use registry::{Definitions, Registry};
pub use writing::write_desc;
