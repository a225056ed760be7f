//! What a desk keeps of the subscriptions of all its seats: each step of one seat keeps what is kept of every other.
#![tactic(auto)]

mod laws;
mod steps;

pub use desk_api::{Channel, Site};
pub use laws::{a_new_desk_keeps, logs_tell_slots, marks_keep};
pub use mon_shown::{NotBegun, Readied, Subscriptions, Watching};
pub use steps::{begin, end, make_ready, pop, post, ready};
