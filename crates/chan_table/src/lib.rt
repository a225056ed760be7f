//! The tables of one connection: its channels by the server's ids, and its requests by the ids that the client gives
//! them (pvAccess Protocol Specification, "Channel Life-cycle").
//!
//! A session looks up in them what each message names. Channels and requests lie in slabs, and what finds them are
//! lists in rising order, which are searched by halves.
#![tactic(auto)]

mod answer;
mod ask;
mod directory;
mod files;
mod index;
mod table;

pub use answer::TableAnswer;
pub use ask::{Ask, AskKind};
pub use pvd_type::NoMemory;
pub use table::{LIMIT, Table};
