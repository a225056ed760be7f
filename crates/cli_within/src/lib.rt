//! An operation of a client against a server inside the same program, from its words to its exit status: both ends, the rounds in which
//! bytes pass between them, and what is printed of what the client is told.
#![tactic(auto)]

mod client_end;
mod fields;
mod laws;
mod program;
mod rounds;
mod server_end;
mod stop;
mod verb;
mod words;

pub use client_end::{ClientEnd, print_name};
pub use fields::pieces;
pub use laws::{
    a_front_is_printed, faultless_exchanges_end, faultless_runs_end, marks_are_told,
    monitors_have_one_subscription, monitors_print_updates, the_text_is_that_of_the_marks,
};
pub use program::run;
pub use rounds::{Limits, exchange};
pub use stop::{End, Ending, Status, Stop, status_of, status_of_stop};
pub use words::{
    Asked, MOST, TURNS, WordsStop, ask_in, count_of, given, macros_in, matches_of, read_words,
    stop_of,
};
