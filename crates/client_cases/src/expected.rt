// What a run came to, beside what a case expects.
use crate::peers::{peer_of, peer_text};
use crate::server::ServerDialer;
use case_files::{Case, CaseFault, Entry, Expected, difference, text_difference};
use pva_outside::{MemoryDatagrams, MemoryTraffic, Peer};
use std::alloc::{AllocError, Global};

/// Whether the status is another than the one of a case, which is 0 unless it is given.
pub fn status_differs(
    alloc: Global,
    case: &Case<'_>,
    status: u8,
) -> Result<Option<String>, CaseFault> {
    let expected = match case.find("status") {
        Some(entry) => entry.rest,
        None => "0",
    };
    let found = status.to_string(alloc)?;
    Ok(text_difference(alloc, "status", expected, &found)?)
}

/// Whether what was printed is other than expected.
pub fn printed_differs(
    alloc: Global,
    case: &Case<'_>,
    printed: &[u8],
) -> Result<Option<String>, CaseFault> {
    let expected = case.expected(alloc, "printed")?;
    Ok(difference(alloc, "what is printed", &expected, printed)?)
}

/// All that the client is to write.
fn client_of(alloc: Global, case: &Case<'_>) -> Result<Vec<Expected>, CaseFault> {
    let mut expected = Vec::new(alloc);
    for entry in &case.entries {
        if entry.key == "client" {
            expected.append(&mut case.content(alloc, *entry)?)?;
        }
    }
    Ok(expected)
}

/// The addresses that were dialed, with blanks between them.
fn dials_text(alloc: Global, dials: &[Peer]) -> Result<String, AllocError> {
    let mut text = String::new(alloc);
    for to in dials {
        if !text.is_empty() {
            text.push(' ')?;
        }
        text.push_str(&peer_text(alloc, *to)?)?;
    }
    Ok(text)
}

/// Whether others were dialed than expected, what was written to the link is other than expected, or a link wasn't taken back. Where a case
/// says nothing of dials, any will do.
pub fn dialer_differs(
    alloc: Global,
    case: &Case<'_>,
    dialer: &ServerDialer,
) -> Result<Option<String>, CaseFault> {
    if dialer.out() != 0 {
        return Ok(Some(String::from_str(alloc, "a link wasn't taken back")?));
    }
    let expected = client_of(alloc, case)?;
    let told = difference(alloc, "what the client writes", &expected, dialer.written())?;
    if told.is_some() {
        return Ok(told);
    }
    let Some(entry) = case.find("dials") else {
        return Ok(None);
    };
    let found = dials_text(alloc, dialer.dials())?;
    Ok(text_difference(alloc, "dials", entry.rest, &found)?)
}

/// Whether a datagram that was sent is another than expected.
fn sent_differs(
    alloc: Global,
    case: &Case<'_>,
    entry: Entry<'_>,
    bytes: &[u8],
    to: Peer,
) -> Result<Option<String>, CaseFault> {
    let entry = entry.inner();
    let expected = peer_of(alloc, entry)?;
    if expected != to {
        let found = peer_text(alloc, to)?;
        return Ok(text_difference(alloc, "a datagram goes to", entry.key, &found)?);
    }
    let expected = case.content(alloc, entry)?;
    Ok(difference(alloc, "a datagram that is sent", &expected, bytes)?)
}

/// Whether others were sent than expected, of the datagrams and the entries that are left of them.
fn traffic_differs(
    alloc: Global,
    case: &Case<'_>,
    traffic: &[MemoryTraffic],
    entries: &[Entry<'_>],
) -> Result<Option<String>, CaseFault> {
    let mut left = entries.iter();
    for one in traffic {
        let MemoryTraffic::Tried(bytes, to) = one else {
            continue;
        };
        let Some(entry) = left.next() else {
            return Ok(Some(String::from_str(alloc, "more datagrams are sent")?));
        };
        let told = sent_differs(alloc, case, *entry, bytes, *to)?;
        if told.is_some() {
            return Ok(told);
        }
    }
    match left.next() {
        Some(_) => Ok(Some(String::from_str(alloc, "fewer datagrams are sent")?)),
        None => Ok(None),
    }
}

/// Whether datagrams were bound at other ports than expected, where a case says it.
fn binds_differ(
    alloc: Global,
    case: &Case<'_>,
    asked: &[Peer],
) -> Result<Option<String>, CaseFault> {
    let Some(entry) = case.find("binds") else {
        return Ok(None);
    };
    let mut found = String::new(alloc);
    for at in asked {
        if !found.is_empty() {
            found.push(' ')?;
        }
        found.push_str(&at.port.to_string(alloc)?)?;
    }
    Ok(text_difference(alloc, "binds", entry.rest, &found)?)
}

/// Whether other calls of datagrams were made than expected, where a case says how many.
fn calls_differ(
    alloc: Global,
    case: &Case<'_>,
    traffic: &[MemoryTraffic],
) -> Result<Option<String>, CaseFault> {
    let Some(entry) = case.find("calls") else {
        return Ok(None);
    };
    let found = traffic.len().to_string(alloc)?;
    Ok(text_difference(alloc, "calls", entry.rest, &found)?)
}

/// Whether other datagrams were sent than expected, or in other receives and sends. Where a case says nothing of them, any will do.
pub fn datagrams_differ(
    alloc: Global,
    case: &Case<'_>,
    datagrams: &MemoryDatagrams,
) -> Result<Option<String>, CaseFault> {
    let traffic = datagrams.traffic();
    let mut told = calls_differ(alloc, case, traffic)?;
    if told.is_none() {
        told = binds_differ(alloc, case, datagrams.asked())?;
    }
    let entries = case.all(alloc, "sends")?;
    if told.is_some() || entries.is_empty() {
        return Ok(told);
    }
    traffic_differs(alloc, case, traffic, &entries)
}
