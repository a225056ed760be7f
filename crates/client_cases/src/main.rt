//! Runs the client over cases in files, as README.md says: what it prints, what it writes to a server, whom it searches and dials, and its
//! exit status.
#![tactic(auto)]

mod checks;
mod datagrams;
mod ending;
mod expected;
mod peers;
mod server;
mod surroundings;

use crate::checks::ClientCases;
use std::process::ExitCode;

fn main(rt: HostRuntime) -> ExitCode {
    match case_files::run(&rt, &ClientCases) {
        Ok(true) => ExitCode::SUCCESS,
        Ok(false) => ExitCode::from(1),
        Err(_) => ExitCode::from(2),
    }
}
