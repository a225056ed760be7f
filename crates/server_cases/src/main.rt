//! Runs the server over cases in files, as README.md says: what it prints, what it writes to its client, and its exit status.
#![tactic(auto)]

mod checks;
mod moments;
mod outcome;
mod serving;
mod surroundings;

use crate::checks::ServerCases;
use std::process::ExitCode;

fn main(rt: HostRuntime) -> ExitCode {
    match case_files::run(&rt, &ServerCases) {
        Ok(true) => ExitCode::SUCCESS,
        Ok(false) => ExitCode::from(1),
        Err(_) => ExitCode::from(2),
    }
}
