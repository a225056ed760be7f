//! Runs searches over cases in files, as README.md says: what a server answers a datagram with, the beacons that it sends, and what a client
//! that searches writes and finds.
#![tactic(auto)]

mod checks;
mod finding;
mod names;
mod peers;
mod serving;
mod setup;

use crate::checks::SearchCases;
use std::process::ExitCode;

fn main(rt: HostRuntime) -> ExitCode {
    match case_files::run(&rt, &SearchCases) {
        Ok(true) => ExitCode::SUCCESS,
        Ok(false) => ExitCode::from(1),
        Err(_) => ExitCode::from(2),
    }
}
