//! The vocabulary of committed histories: a base, and what the seats did, in order. Of what kind the base, the entries and
//! the items of the roll are is left to the crates above. No value of these types is made: contracts alone speak of them.
#![tactic(auto)]

mod laws;
mod story;

pub use laws::{Judge, deeds_stand_once, histories_go_on, judged_in_turn};
pub use story::{Deed, Story};
