//! What subscriptions are shown of the records and what they are told of that, below any desk: a desk hands in the entries, the
//! states of the records and its channels.
#![tactic(auto)]

mod beginning;
mod entering;
mod index;
mod laws;
mod posting;
mod roll;
mod slots;
mod subscriptions;
mod viewed;
mod views;
mod watching;

pub use laws::{entries_are_kept, posts_show, slots_are_least, slots_follow_the_roll};
pub use pvd_type::NoMemory;
pub use roll::RollItem;
pub use slots::NotBegun;
pub use subscriptions::{Readied, Subscriptions};
pub use views::Views;
pub use watching::{Ready, Watching};
