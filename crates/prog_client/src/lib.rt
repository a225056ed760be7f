//! A client, from its words to its exit status: an operation over the network, with the search for the channel's server and the dial, or
//! against a server inside the program.
#![tactic(auto)]

mod client;
mod dialing;
mod network_laws;
mod networking;
mod outcome;
mod over_words;
mod routes;

pub use client::{Network, run};
pub use network_laws::{faultless_runs_over_the_network_end, statuses_have_causes};
pub use routes::read_address;
