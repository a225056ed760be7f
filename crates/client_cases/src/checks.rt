// How a case is run.
use crate::datagrams::datagrams_of;
use crate::ending::ended_differs;
use crate::expected::{datagrams_differ, dialer_differs, printed_differs, status_differs};
use crate::server::{ServerDialer, server_of};
use crate::surroundings::{Memory, failing, world_of};
use case_files::{Case, CaseFault, Entry, Program};
use prog_client::{Network, run};
use pva_outside::{MemoryDatagrams, World};
use std::alloc::Global;

/// The keys of a case that say what is expected.
const EXPECTATIONS: &[&str] = &[
    "printed", "status", "client", "dials", "sends", "calls", "binds", "ended",
];

/// All keys of a case.
const KEYS: &[&str] = &[
    "words", "file", "fails", "silence", "datagram", "server", "link", "printed", "status",
    "client", "dials", "sends", "calls", "binds", "ended",
];

/// The network of a case, in which the calls of the link to the server meet this.
fn network_of(
    alloc: Global,
    case: &Case<'_>,
    link: Option<Entry<'_>>,
) -> Result<Network<MemoryDatagrams, ServerDialer>, CaseFault> {
    let server = server_of(alloc, case, link)?;
    let dialer = ServerDialer::new(alloc, server, failing(alloc, case, "dial")?);
    Ok(Network {
        datagrams: datagrams_of(alloc, case)?,
        dialer,
    })
}

/// Where a run came to something else than is expected.
fn outcome_differs(
    alloc: Global,
    case: &Case<'_>,
    status: u8,
    world: &World<Memory>,
    network: &Network<MemoryDatagrams, ServerDialer>,
) -> Result<Option<String>, CaseFault> {
    let mut told = status_differs(alloc, case, status)?;
    if told.is_none() {
        told = printed_differs(alloc, case, world.sink.written())?;
    }
    if told.is_none() {
        told = dialer_differs(alloc, case, &network.dialer)?;
    }
    if told.is_none() {
        told = datagrams_differ(alloc, case, &network.datagrams)?;
    }
    Ok(told)
}

/// Runs the client with these words, and tells what differs.
fn run_differs(
    alloc: Global,
    case: &Case<'_>,
    words: &[&str],
    link: Option<Entry<'_>>,
) -> Result<Option<String>, CaseFault> {
    let mut world = world_of(alloc, case)?;
    let mut network = network_of(alloc, case, link)?;
    let status = run(alloc, words, &mut world, &mut network);
    outcome_differs(alloc, case, status, &world, &network)
}

/// Runs the client with these words for each `link` of a case, or once, and tells what differs first.
fn links_differ(
    alloc: Global,
    case: &Case<'_>,
    words: &[&str],
) -> Result<Option<String>, CaseFault> {
    let links = case.all(alloc, "link")?;
    if links.is_empty() {
        return run_differs(alloc, case, words, None);
    }
    for link in &links {
        let told = run_differs(alloc, case, words, Some(*link))?;
        if told.is_some() {
            return Ok(told);
        }
    }
    Ok(None)
}

/// Runs the client with the words of an entry, and tells what differs.
fn words_differ(
    alloc: Global,
    case: &Case<'_>,
    entry: Entry<'_>,
) -> Result<Option<String>, CaseFault> {
    let owned = entry.words(alloc)?;
    let words: Vec<&str> = owned.iter().map(|word| word.as_str()).collect(alloc)?;
    let told = links_differ(alloc, case, &words)?;
    if told.is_some() {
        return Ok(told);
    }
    ended_differs(alloc, case, &words)
}

/// A difference, with the words at which it stands where a case has others.
fn told_of(
    alloc: Global,
    several: bool,
    entry: Entry<'_>,
    told: String,
) -> Result<String, CaseFault> {
    if !several {
        return Ok(told);
    }
    let words = entry.rest;
    Ok(format!(in alloc; "{words}: {told}")?)
}

/// What runs the cases of the client.
pub struct ClientCases;

impl Program for ClientCases {
    fn keys(&self) -> &'static [&'static str] {
        KEYS
    }

    fn expectations(&self) -> &'static [&'static str] {
        EXPECTATIONS
    }

    fn differs(&self, alloc: Global, case: &Case<'_>) -> Result<Option<String>, CaseFault> {
        let entries = case.all(alloc, "words")?;
        if entries.is_empty() {
            return Err(CaseFault::At(case.line, "this case has no words"));
        }
        for entry in &entries {
            if let Some(told) = words_differ(alloc, case, *entry)? {
                return Ok(Some(told_of(alloc, entries.len() > 1, *entry, told)?));
            }
        }
        Ok(None)
    }
}
