//! One operation of a pvAccess client (get, put, put-get, monitor, info, call) as a machine over the
//! events of its connection.
#![tactic(auto)]

mod answer;
mod ask;
mod client;
mod fault;
mod hearing;
mod laws;
mod report;
mod session;
mod structures;
mod turn;

pub use ask::{Ask, Operation};
pub use client::Client;
pub use fault::ClientFault;
pub use laws::sent_is_heard;
pub use report::Report;
