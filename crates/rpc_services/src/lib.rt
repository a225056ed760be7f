//! The service of a server: what its channel `server` is asked by a remote procedure call, and the types and values that
//! it answers (pvAccess Protocol Specification, "Channel RPC"; EPICS Normative Types 1.0).
#![tactic(auto)]

mod answers;
mod asking;
mod parts;

pub use answers::{channels, info, table};
pub use asking::{RpcOp, RpcRefusal, operation};
pub use pvd_type::NoMemory;
