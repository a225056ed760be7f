//! Runs cases of database texts: what a text is expanded to, cut into, which records, groups and faults it has; and operations of clients, one
//! after another, on a desk of its records.
//!
//! README.md says how a case is written.
#![tactic(auto)]

mod operations;
mod telling;
mod texts;
mod triggering;

use case_files::{Case, CaseFault, Program, run};
use std::alloc::Global;
use std::process::ExitCode;

/// What runs the cases.
struct DeskCases;

impl Program for DeskCases {
    fn keys(&self) -> &'static [&'static str] {
        &[
            "database", "macros", "journal", "fails", "plain", "tokens", "records", "groups",
            "fault", "triggers", "does", "clock", "prints", "status", "entries", "drives",
        ]
    }

    fn expectations(&self) -> &'static [&'static str] {
        &[
            "plain", "tokens", "records", "groups", "fault", "triggers", "prints", "status",
            "entries", "drives",
        ]
    }

    fn differs(&self, alloc: Global, case: &Case<'_>) -> Result<Option<String>, CaseFault> {
        let database = case.input(alloc, "database")?;
        let Ok(text) = String::from_utf8(database) else {
            return Err(CaseFault::At(case.line, "the database isn't UTF-8"));
        };
        let told = texts::differs(alloc, case, text.as_str())?;
        if told.is_some() {
            return Ok(told);
        }
        let told = triggering::differs(alloc, case, text.as_str())?;
        if told.is_some() {
            return Ok(told);
        }
        operations::differs(alloc, case, text.as_str())
    }
}

fn main(rt: HostRuntime) -> ExitCode {
    match run(&rt, &DeskCases) {
        Ok(true) => ExitCode::SUCCESS,
        _ => ExitCode::FAILURE,
    }
}
