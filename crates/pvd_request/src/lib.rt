//! What a request structure asks of a channel: the leaves that it selects, and its options (pvAccess Protocol
//! Specification, "pvRequest").
#![tactic(auto)]

mod laws;
mod options;
mod reading;
mod request;
mod said;
mod selecting;

pub use laws::requests_are_sound;
pub use reading::read_request;
pub use request::{Request, RequestFault, Root};
