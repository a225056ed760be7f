//! The Normative Types that the project serves and reads (EPICS Normative Types 1.0): their types, and which of them a
//! type is.
#![tactic(auto)]

mod kind;
mod laws;
mod members;
mod parts;
mod types;

pub use kind::{NtKind, kind_of};
pub use laws::types_are_recognised;
pub use parts::{alarm, time};
pub use types::{nt_enum, nt_scalar, nt_scalar_array, nt_table, nt_uri};
