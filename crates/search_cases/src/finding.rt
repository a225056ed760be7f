// What the client of a case writes and finds, step by step.
ghost use Rattle.std.specs.Prelude.{◌≤◌, IfOk};

use crate::names::names_of;
use crate::peers::{peer_of, peer_text};
use crate::setup::port_of;
use case_files::{Case, CaseFault, Entry, difference, text_difference};
use pva_search::Finder;
use std::alloc::Global;

/// Lets a value go in a function of its own, since its parts would else be let go one by one in the caller's proof.
fn discard<T: Drop>(_value: T) {}

/// How many rounds a case has, which is one unless it is given.
fn rounds_of(case: &Case<'_>) -> Result<u32, CaseFault>
    ensures { IfOk result (λ n. 1 ≤ n) }
{
    let Some(entry) = case.find("rounds") else {
        return Ok(1);
    };
    match u32::try_from(entry.number()?) {
        Ok(rounds) if rounds >= 1 => Ok(rounds),
        _ => Err(CaseFault::At(entry.line, "these are no rounds")),
    }
}

/// A finder of the names of an entry.
fn finder_of(alloc: Global, case: &Case<'_>, entry: Entry<'_>) -> Result<Finder, CaseFault> {
    let rounds = rounds_of(case)?;
    let names = names_of(alloc, case, entry)?;
    match Finder::new(alloc, names, rounds) {
        Ok(finder) => Ok(finder),
        Err(_) => Err(CaseFault::NoMemory),
    }
}

/// Whether a finder asks with other bytes than those of an entry, which is `none` where it has nothing to ask.
fn ask_differs(
    alloc: Global,
    case: &Case<'_>,
    port: u16,
    finder: &mut Finder,
    entry: Entry<'_>,
) -> Result<Option<String>, CaseFault> {
    match finder.ask(alloc, port) {
        Ok(Some(bytes)) => asked_differs(alloc, case, &bytes, entry),
        Ok(None) => Ok(text_difference(alloc, "a search", entry.rest, "none")?),
        Err(_) => Err(CaseFault::NoMemory),
    }
}

/// Whether a search has other bytes than those of an entry.
fn asked_differs(
    alloc: Global,
    case: &Case<'_>,
    bytes: &[u8],
    entry: Entry<'_>,
) -> Result<Option<String>, CaseFault> {
    if entry.rest == "none" {
        return Ok(text_difference(alloc, "a search", "none", "written")?);
    }
    let expected = case.content(alloc, entry)?;
    Ok(difference(alloc, "a search", &expected, bytes)?)
}

/// A text for whether a datagram tells a server of a name.
fn heard_text(tells: bool) -> &'static str {
    if tells { "tells" } else { "passes" }
}

/// Whether a datagram does otherwise than the key of its entry says: it `tells` a server of a name, or it `passes`.
fn hearing_differs(
    alloc: Global,
    case: &Case<'_>,
    finder: &mut Finder,
    entry: Entry<'_>,
) -> Result<Option<String>, CaseFault> {
    let inner = entry.inner();
    let from = peer_of(inner)?;
    let bytes = case.bytes(alloc, inner)?;
    let heard = heard_text(finder.hear(&bytes, from));
    Ok(text_difference(alloc, "a datagram", entry.key, heard)?)
}

/// Whether there is another round than an entry says, which is `none` where there is to be none.
fn turn_differs(
    alloc: Global,
    finder: &mut Finder,
    entry: Entry<'_>,
) -> Result<Option<String>, CaseFault> {
    let turned = if finder.turn() { "" } else { "none" };
    Ok(text_difference(alloc, "a further round", entry.rest, turned)?)
}

/// Whether the name with this number has another server than this, which is `none` where it isn't found.
fn server_differs(
    alloc: Global,
    finder: &Finder,
    number: usize,
    expected: &str,
) -> Result<Option<String>, CaseFault> {
    match finder.found(number) {
        Some(server) => {
            let found = peer_text(alloc, server)?;
            Ok(text_difference(alloc, "a server", expected, &found)?)
        }
        None => Ok(text_difference(alloc, "a server", expected, "none")?),
    }
}

/// Whether the names have other servers than an entry says, one after another.
fn servers_differ(
    alloc: Global,
    finder: &Finder,
    entry: Entry<'_>,
) -> Result<Option<String>, CaseFault> {
    for (number, expected) in entry.rest.split_ascii_whitespace().enumerate() {
        if let Some(told) = server_differs(alloc, finder, number, expected)? {
            return Ok(Some(told));
        }
    }
    Ok(None)
}

/// Whether a step of a case comes to something else than is expected.
fn step_differs(
    alloc: Global,
    case: &Case<'_>,
    port: u16,
    finder: &mut Finder,
    entry: Entry<'_>,
) -> Result<Option<String>, CaseFault> {
    match entry.key {
        "ask" => ask_differs(alloc, case, port, finder, entry),
        "tells" | "passes" => hearing_differs(alloc, case, finder, entry),
        "turn" => turn_differs(alloc, finder, entry),
        "found" => servers_differ(alloc, finder, entry),
        _ => Ok(None),
    }
}

/// Where the steps of a case come to something else than is expected, one after another.
fn steps_differ(
    alloc: Global,
    case: &Case<'_>,
    port: u16,
    finder: &mut Finder,
) -> Result<Option<String>, CaseFault> {
    for entry in &case.entries {
        if let Some(told) = step_differs(alloc, case, port, finder, *entry)? {
            let line = entry.line;
            return Ok(Some(format!(in alloc; "in line {line}, {told}")?));
        }
    }
    Ok(None)
}

/// Where the client of a case, which searches for the names of an entry, does otherwise than is expected.
pub fn finding_differs(
    alloc: Global,
    case: &Case<'_>,
    names: Entry<'_>,
) -> Result<Option<String>, CaseFault> {
    let port = port_of(case)?;
    let mut finder = finder_of(alloc, case, names)?;
    let told = steps_differ(alloc, case, port, &mut finder);
    discard(finder);
    told
}
