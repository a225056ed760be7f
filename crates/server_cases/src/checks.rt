// How a case is run.
use crate::outcome::outcome_differs;
use crate::serving::serving_differs;
use crate::surroundings::world_of;
use case_files::{Case, CaseFault, Entry, Program};
use prog_server::run_alone;
use std::alloc::Global;

/// The keys of a case that say what is expected.
const EXPECTATIONS: &[&str] = &[
    "server", "server..", "printed", "status", "counts", "makes", "ended", "entries",
];

/// All keys of a case.
const KEYS: &[&str] = &[
    "words", "file", "client", "link", "clock", "fails", "server", "server..", "printed", "status",
    "counts", "makes", "ended", "entries",
];

/// Runs the program with these words in the world of a case, and tells what differs.
fn run_differs(
    alloc: Global,
    case: &Case<'_>,
    words: &[&str],
    link: Option<Entry<'_>>,
) -> Result<Option<String>, CaseFault> {
    let mut world = world_of(alloc, case, link)?;
    let status = run_alone(alloc, words, &mut world);
    let told = outcome_differs(alloc, case, &world, status)?;
    if told.is_some() {
        return Ok(told);
    }
    serving_differs(alloc, case, words, link)
}

/// Runs the program for each `link` of a case, or once, and tells what differs first.
fn runs_differ(
    alloc: Global,
    case: &Case<'_>,
    words: &[&str],
) -> Result<Option<String>, CaseFault> {
    let mut told = None;
    let mut links = 0u32;
    for entry in &case.entries {
        if entry.key == "link" && told.is_none() {
            links = links.saturating_add(1);
            told = run_differs(alloc, case, words, Some(*entry))?;
        }
    }
    if links == 0 {
        return run_differs(alloc, case, words, None);
    }
    Ok(told)
}

/// What runs the cases of the server.
pub struct ServerCases;

impl Program for ServerCases {
    fn keys(&self) -> &'static [&'static str] {
        KEYS
    }

    fn expectations(&self) -> &'static [&'static str] {
        EXPECTATIONS
    }

    fn differs(&self, alloc: Global, case: &Case<'_>) -> Result<Option<String>, CaseFault> {
        let owned = match case.find("words") {
            Some(entry) => entry.words(alloc)?,
            None => Vec::new(alloc),
        };
        let words: Vec<&str> = owned.iter().map(|word| word.as_str()).collect(alloc)?;
        runs_differ(alloc, case, &words)
    }
}
