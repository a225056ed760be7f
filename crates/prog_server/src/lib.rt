//! The program `pvaserve`, over the world that it is given: its words, what `--check` and `--drill` print, and the server of one connection or
//! of many clients.
#![tactic(auto)]

mod program;
mod server;
mod telling;
mod words;

pub use program::{Status, faultless_runs_are_done, run_alone};
pub use server::run;
pub use words::{Asked, Task, WordsStop, read_words, silence_of, words_ask_for_one_thing};
