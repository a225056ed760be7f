//! How servers are found over UDP: what a server answers a search with, the beacons that it sends, and a
//! finder, which searches for names and hears the responses (pvAccess Protocol Specification,
//! "searchRequest", "searchResponse" and "beacon").
#![tactic(auto)]

mod answering;
mod beacons;
mod datagram;
mod finder;
mod laws;
mod reading;
mod response;
mod search;
mod setup;
mod writing;

pub use answering::answer;
pub use beacons::beacon;
pub use finder::Finder;
pub use laws::{every_search_finds, response_is_spelled, search_is_spelled};
pub use pva_outside::Peer;
pub use pva_wire::{Name, NoMemory, Order};
pub use setup::Setup;
