//! How a client finds the server of a channel: searches over datagrams, in rounds (pvAccess Protocol Specification, "Channel
//! Discovery").
#![tactic(auto)]

mod finding;
mod plan;
mod searching;

pub use finding::find;
pub use plan::{Plan, Searched};
