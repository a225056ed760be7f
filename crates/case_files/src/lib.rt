//! Cases in files: what goes in and what is to come out, in a text that a person reads and writes, and a run of a program over all of them,
//! which tells where it does otherwise.
//!
//! README.md of `server_cases` says how such a file is written.
#![tactic(auto)]

mod case;
mod content;
mod differing;
mod fault;
mod lines;
mod names;
mod numbers;
mod program;
mod quoted;
mod script;
mod words;

pub use case::{Case, Entry};
pub use content::Expected;
pub use differing::{difference, text_difference};
pub use fault::CaseFault;
pub use lines::{Depth, Line};
pub use names::Named;
pub use program::{Program, Report, report_on, run};
