// How an operation ends at the client's core, which tells more than the exit status: why a server refused, and what is wrong.
ghost use Rattle.std.specs.Prelude.{◌≡◌};

use case_files::{Case, CaseFault, text_difference};
use cli_session::{Ask, Client, Report};
use cli_within::{ask_in, matches_of};
use pva_frames::{Assembler, Event, Next};
use std::alloc::{AllocError, Global};

/// Lets a value go in a function of its own, since its variants would else be let go one by one in the caller's proof.
fn discard<T: Drop>(_value: T) {}

/// What a client is asked for by these words. None where they aren't taken.
fn ask_of(alloc: Global, words: &[&str]) -> Option<Ask> {
    let Ok(matches) = matches_of(alloc, words) else {
        return None;
    };
    ask_in(alloc, &matches).ok()
}

/// The end that a report tells.
fn end_in(alloc: Global, report: &Report) -> Result<Option<String>, AllocError> {
    match report {
        Report::Part { .. } | Report::Kind(_) => Ok(None),
        Report::Refused(status) => {
            let message = status.message.as_str();
            Ok(Some(format!(in alloc; "refused: {message}")?))
        }
        Report::Finished => Ok(Some(String::from_str(alloc, "finished")?)),
    }
}

/// Notes the end that a client tells next, if it does.
fn note_next(alloc: Global, client: &mut Client, ended: &mut String) -> Result<(), AllocError> {
    let Some(report) = client.next_report() else {
        return Ok(());
    };
    let end = end_in(alloc, &report);
    discard(report);
    if let Some(end) = end? {
        *ended = end;
    }
    Ok(())
}

/// A client hears an event, and what it tells then is noted: that it ended, or its fault.
fn hear(
    alloc: Global,
    client: &mut Client,
    event: Event,
    ended: &mut String,
) -> Result<(), AllocError> {
    if let Err(fault) = client.handle(alloc, event) {
        *ended = format!(in alloc; "{fault:?}")?;
    }
    note_next(alloc, client, ended)?;
    note_next(alloc, client, ended)
}

/// The next event of a stream.
fn next_event(stream: &mut Assembler) -> Option<Event> {
    match stream.next() {
        Ok(Next::Event(event)) => Some(event),
        _ => None,
    }
}

/// A client hears these bytes of a server.
fn hear_all(
    alloc: Global,
    client: &mut Client,
    stream: &mut Assembler,
    bytes: &[u8],
    ended: &mut String,
) -> Result<(), CaseFault> {
    if stream.feed(bytes).is_err() {
        return Err(CaseFault::NoMemory);
    }
    for _ in 0..bytes.len() {
        let Some(event) = next_event(stream) else {
            return Ok(());
        };
        hear(alloc, client, event, ended)?;
    }
    Ok(())
}

/// How an operation ends that is asked for by these words, at these bytes of a server: `finished`, `refused: ` and the server's message,
/// the fault as Debug prints it, or `open`.
fn ended_at(alloc: Global, words: &[&str], bytes: &[u8]) -> Result<String, CaseFault> {
    let mut ended = String::from_str(alloc, "open")?;
    let Some(ask) = ask_of(alloc, words) else {
        return Ok(ended);
    };
    let mut client = Client::start(alloc, ask);
    let mut stream = Assembler::new(alloc);
    let heard = hear_all(alloc, &mut client, &mut stream, bytes, &mut ended);
    discard(client);
    discard(stream);
    heard?;
    Ok(ended)
}

/// All that the server says in a case.
fn said_in(alloc: Global, case: &Case<'_>) -> Result<Vec<u8>, CaseFault> {
    let mut said = Vec::new(alloc);
    for entry in &case.entries {
        if entry.key == "server" {
            said.extend_from_slice(&case.bytes(alloc, *entry)?)?;
        }
    }
    Ok(said)
}

/// Whether the operation ends otherwise than a case has it, where it says so.
pub fn ended_differs(
    alloc: Global,
    case: &Case<'_>,
    words: &[&str],
) -> Result<Option<String>, CaseFault> {
    let Some(entry) = case.find("ended") else {
        return Ok(None);
    };
    let said = said_in(alloc, case)?;
    let ended = ended_at(alloc, words, &said)?;
    Ok(text_difference(alloc, "ended", entry.rest, &ended)?)
}
