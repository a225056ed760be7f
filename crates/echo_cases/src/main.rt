//! Runs cases over a program that gives back what it is given, to show what `case_files` tells of files that agree, of cases that disagree and
//! of files that are at fault.
//!
//! README.md says which files there are.
#![tactic(auto)]

use case_files::{Case, CaseFault, Program, difference, run};
use std::alloc::Global;
use std::process::ExitCode;

/// A program that gives back what it is given.
struct Echo;

impl Program for Echo {
    fn keys(&self) -> &'static [&'static str] {
        &["given", "back"]
    }

    fn expectations(&self) -> &'static [&'static str] {
        &["back"]
    }

    fn differs(&self, alloc: Global, case: &Case<'_>) -> Result<Option<String>, CaseFault> {
        let given = case.input(alloc, "given")?;
        let back = case.expected(alloc, "back")?;
        Ok(difference(alloc, "what comes back", &back, &given)?)
    }
}

fn main(rt: HostRuntime) -> ExitCode {
    match run(&rt, &Echo) {
        Ok(true) => ExitCode::SUCCESS,
        Ok(false) => ExitCode::from(1),
        Err(_) => ExitCode::from(2),
    }
}
