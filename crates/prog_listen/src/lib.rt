//! A server of many clients, from its words to its end: the site of SOURCE with its ports, the listener and the datagrams bound, the line
//! that tells so, and the clients served.
#![tactic(auto)]

mod asked;
mod laws;
mod listened;
mod listening;
mod network;
mod opening;
mod setup;

pub use asked::Listening;
pub use laws::{binds_at_most_once, every_end_has_its_cause, faultless_runs_finish};
pub use listened::Listened;
pub use listening::listen;
pub use network::Network;
