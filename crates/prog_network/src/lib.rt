//! What a program makes of the words that name places of the network: addresses with their ports, and the GUIDs of servers.
#![tactic(auto)]

mod addresses;
mod guids;

pub use addresses::read_address;
pub use guids::read_guid;
