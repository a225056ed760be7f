// What the server of a case comes to at each datagram, and the beacons that it sends.
use crate::peers::{peer_of, peer_text};
use crate::setup::setup_of;
use case_files::{Case, CaseFault, Entry, difference, text_difference};
use pva_search::{Peer, Setup, answer, beacon};
use std::alloc::Global;

/// 10.0.0.7 at port 40,000, which sends the datagrams of a case that names no other.
const FROM: Peer = Peer {
    address: [0, 0, 0, 0, 0, 0, 0, 0, 0, 0, 0xFF, 0xFF, 10, 0, 0, 7],
    port: 40_000,
};

/// The server of a case, and who sends it datagrams.
#[derive(Clone, Copy)]
struct Server<'a> {
    setup: Setup,
    from: Peer,
    /// The names of its channels.
    known: &'a [String],
}

impl Server<'_> {
    /// Whether it has a channel of this name.
    fn knows(&self, name: &str) -> bool {
        self.known.iter().any(|known| known.as_str() == name)
    }
}

/// Who sends the datagrams of a case.
fn from_of(case: &Case<'_>) -> Result<Peer, CaseFault> {
    match case.find("from") {
        Some(entry) => peer_of(entry.inner()),
        None => Ok(FROM),
    }
}

/// The names that the server of a case knows.
fn known_of(alloc: Global, case: &Case<'_>) -> Result<Vec<String>, CaseFault> {
    match case.find("known") {
        Some(entry) => entry.words(alloc),
        None => Ok(Vec::new(alloc)),
    }
}

/// Whether an answer goes elsewhere than expected. Where a case says nothing of it, anywhere will do.
fn to_differs(alloc: Global, case: &Case<'_>, to: Peer) -> Result<Option<String>, CaseFault> {
    let Some(entry) = case.find("to") else {
        return Ok(None);
    };
    let found = peer_text(alloc, to)?;
    Ok(text_difference(alloc, "the answer goes to", entry.rest, &found)?)
}

/// What is expected of an answer.
fn expected_of<'a>(case: &Case<'a>) -> Result<Entry<'a>, CaseFault> {
    match case.find("answer") {
        Some(entry) => Ok(entry),
        None => Err(CaseFault::At(case.line, "this case says nothing of the answer")),
    }
}

/// Whether an answer is other than expected, or goes elsewhere.
fn given_differs(
    alloc: Global,
    case: &Case<'_>,
    bytes: &[u8],
    to: Peer,
) -> Result<Option<String>, CaseFault> {
    let entry = expected_of(case)?;
    if entry.rest == "none" {
        return Ok(text_difference(alloc, "answer", "none", "given")?);
    }
    let expected = case.content(alloc, entry)?;
    let told = difference(alloc, "the answer", &expected, bytes)?;
    if told.is_some() {
        return Ok(told);
    }
    to_differs(alloc, case, to)
}

/// Whether an answer is expected, where there is none.
fn absence_differs(alloc: Global, case: &Case<'_>) -> Result<Option<String>, CaseFault> {
    let entry = expected_of(case)?;
    if entry.rest == "none" {
        return Ok(None);
    }
    Ok(text_difference(alloc, "answer", "given", "none")?)
}

/// Whether what a server comes to at a datagram is other than expected.
fn answer_differs(
    alloc: Global,
    case: &Case<'_>,
    server: Server<'_>,
    datagram: &[u8],
) -> Result<Option<String>, CaseFault> {
    let known = |name: &str| server.knows(name);
    match answer(alloc, datagram, server.from, &server.setup, &known) {
        Ok(Some((bytes, to))) => given_differs(alloc, case, &bytes, to),
        Ok(None) => absence_differs(alloc, case),
        Err(_) => Err(CaseFault::NoMemory),
    }
}

/// Whether what a server comes to at a shorter piece from the front of a datagram is other than expected.
fn pieces_differ(
    alloc: Global,
    case: &Case<'_>,
    server: Server<'_>,
    datagram: &[u8],
) -> Result<Option<String>, CaseFault> {
    for end in 0..datagram.len() {
        if let Some(told) = answer_differs(alloc, case, server, &datagram[..end])? {
            return Ok(Some(format!(in alloc; "of {end} bytes: {told}")?));
        }
    }
    Ok(None)
}

/// What is wrong with an entry that gives a number as no beacon has it.
fn no_number(entry: Entry<'_>) -> CaseFault {
    CaseFault::At(entry.line, "this is no number that a beacon has")
}

/// The number of a beacon that is an entry's key.
fn sequence_of(entry: Entry<'_>) -> Result<u8, CaseFault> {
    match entry.key.parse::<u8>() {
        Ok(sequence) => Ok(sequence),
        Err(_) => Err(no_number(entry)),
    }
}

/// The count of changes that is an entry's key.
fn changes_of(entry: Entry<'_>) -> Result<u16, CaseFault> {
    match entry.key.parse::<u16>() {
        Ok(changes) => Ok(changes),
        Err(_) => Err(no_number(entry)),
    }
}

/// Whether the beacon of `beacon SEQUENCE CHANGES BYTES` is another.
fn beacon_differs(
    alloc: Global,
    case: &Case<'_>,
    setup: &Setup,
    entry: Entry<'_>,
) -> Result<Option<String>, CaseFault> {
    let entry = entry.inner();
    let sequence = sequence_of(entry)?;
    let entry = entry.inner();
    let changes = changes_of(entry)?;
    let expected = case.content(alloc, entry)?;
    match beacon(alloc, setup, sequence, changes) {
        Ok(bytes) => Ok(difference(alloc, "the beacon", &expected, &bytes)?),
        Err(_) => Err(CaseFault::NoMemory),
    }
}

/// Whether an entry comes to something else than is expected.
fn entry_differs(
    alloc: Global,
    case: &Case<'_>,
    server: Server<'_>,
    entry: Entry<'_>,
) -> Result<Option<String>, CaseFault> {
    match entry.key {
        "datagram" => answer_differs(alloc, case, server, &case.bytes(alloc, entry)?),
        "pieces" => pieces_differ(alloc, case, server, &case.bytes(alloc, entry)?),
        "beacon" => beacon_differs(alloc, case, &server.setup, entry),
        _ => Ok(None),
    }
}

/// Where the entries of a case come to something else than is expected.
fn entries_differ(
    alloc: Global,
    case: &Case<'_>,
    server: Server<'_>,
) -> Result<Option<String>, CaseFault> {
    for entry in &case.entries {
        if let Some(told) = entry_differs(alloc, case, server, *entry)? {
            return Ok(Some(told));
        }
    }
    Ok(None)
}

/// Where the server of a case does otherwise than is expected.
pub fn serving_differs(alloc: Global, case: &Case<'_>) -> Result<Option<String>, CaseFault> {
    let setup = setup_of(alloc, case)?;
    let from = from_of(case)?;
    let known = known_of(alloc, case)?;
    let server = Server {
        setup,
        from,
        known: &known,
    };
    entries_differ(alloc, case, server)
}
