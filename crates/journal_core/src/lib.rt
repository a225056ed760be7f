//! The one committed history of a server: the states that the records open with, and the entries of all commits in
//! order. The states at a place are the replay of the entries before it.
#![tactic(auto)]

mod entry;
mod few;
mod history;
mod laws;
mod replay;

pub use entry::{Entry, weight};
pub use few::Few;
pub use history::History;
pub use laws::{histories_grow, legal_at_each_place, states_stay_valid};
pub use rec_kinds::{Action, Datum, Moment, NoMemory, RecState};
