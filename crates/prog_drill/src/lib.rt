//! The drill: a client in memory that puts ten thousand numbers drawn from one, and monitors four groups of sixteen records, served by
//! one session; and what that comes to.
#![tactic(auto)]

mod client;
mod counting;
mod drilling;

pub use drilling::drill;
