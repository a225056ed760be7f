//! Values of every pvData type on the wire, whole and in parts.
#![tactic(auto)]

mod cursor;
mod fault;
mod laws;
mod list_numbers;
mod lists;
mod lists_writing;
mod parts;
mod parts_writing;
mod reading;
mod scalars;
mod scalars_writing;
mod staged;
mod writing;

pub use cursor::{read_full, read_part};
pub use fault::{ValueCause, ValueFault, ValueStop};
pub use laws::{read_is_spelled, spelled_fits, value_parts, values, written_is_spelled};
pub use parts_writing::write_part;
pub use pvd_type::NoMemory;
pub use staged::{full_at, part_at};
pub use writing::write_full;
