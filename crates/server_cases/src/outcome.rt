// What a run came to, beside what a case expects.
use crate::surroundings::Memory;
use case_files::{Case, CaseFault, Expected, difference, text_difference};
use pva_outside::World;
use std::alloc::Global;

/// A status as it is written in a case: its number, or `listens` where many clients would be served.
fn status_text(alloc: Global, status: Option<u8>) -> Result<String, CaseFault> {
    match status {
        Some(status) => Ok(status.to_string(alloc)?),
        None => Ok(String::from_str(alloc, "listens")?),
    }
}

/// Whether the status is another than the one of a case, which is 0 unless it is given.
fn status_differs(
    alloc: Global,
    case: &Case<'_>,
    status: Option<u8>,
) -> Result<Option<String>, CaseFault> {
    let expected = match case.find("status") {
        Some(entry) => entry.rest,
        None => "0",
    };
    let found = status_text(alloc, status)?;
    Ok(text_difference(alloc, "status", expected, &found)?)
}

/// Whether what was printed is other than expected.
fn printed_differs(
    alloc: Global,
    case: &Case<'_>,
    printed: &[u8],
) -> Result<Option<String>, CaseFault> {
    let expected = case.expected(alloc, "printed")?;
    Ok(difference(alloc, "what is printed", &expected, printed)?)
}

/// What follows the last bytes of these that are as many as these.
fn last_of(bytes: &[u8], count: usize) -> &[u8] {
    &bytes[bytes.len().saturating_sub(count)..]
}

/// Whether what was written to the client is other than expected: the whole of it, or its end.
fn written_differs(
    alloc: Global,
    case: &Case<'_>,
    written: &[u8],
) -> Result<Option<String>, CaseFault> {
    if let Some(entry) = case.find("server..") {
        let expected = case.content(alloc, entry)?;
        let end = last_of(written, expected.len());
        return Ok(difference(alloc, "the end of what the server writes", &expected, end)?);
    }
    let expected: Vec<Expected> = case.expected(alloc, "server")?;
    Ok(difference(alloc, "what the server writes", &expected, written)?)
}

/// The counts of a link, as a case has them.
fn counts_differ(
    alloc: Global,
    case: &Case<'_>,
    world: &World<Memory>,
) -> Result<Option<String>, CaseFault> {
    let Some(entry) = case.find("counts") else {
        return Ok(None);
    };
    let idles = world.link.idles();
    let faults = world.link.faults();
    let ends = world.link.ends();
    let found = format!(in alloc; "idles {idles} faults {faults} ends {ends}")?;
    Ok(text_difference(alloc, "counts", entry.rest, &found)?)
}

/// Whether other ports were asked for than expected.
fn ports_differ(
    alloc: Global,
    case: &Case<'_>,
    world: &World<Memory>,
) -> Result<Option<String>, CaseFault> {
    let Some(entry) = case.find("makes") else {
        return Ok(None);
    };
    let mut found = String::new(alloc);
    for path in world.ports.asked() {
        if !found.is_empty() {
            found.push(' ')?;
        }
        found.push_str(path)?;
    }
    Ok(text_difference(alloc, "ports", entry.rest, &found)?)
}

/// Where a run came to something else than is expected: its status, what was printed and written, the counts of its link and the ports
/// that were asked for.
pub fn outcome_differs(
    alloc: Global,
    case: &Case<'_>,
    world: &World<Memory>,
    status: Option<u8>,
) -> Result<Option<String>, CaseFault> {
    let mut told = status_differs(alloc, case, status)?;
    if told.is_none() {
        told = printed_differs(alloc, case, world.sink.written())?;
    }
    if told.is_none() {
        told = written_differs(alloc, case, world.link.written())?;
    }
    if told.is_none() {
        told = counts_differ(alloc, case, world)?;
    }
    if told.is_none() {
        told = ports_differ(alloc, case, world)?;
    }
    Ok(told)
}
