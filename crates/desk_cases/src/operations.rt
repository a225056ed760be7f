// Operations of clients, one after another, on one desk.
ghost use Rattle.std.specs.Prelude.{◌≡◌, IfOk};
ghost use Rattle.desk_core.specs.Ports.{ports_there, ports_wanted};

use crate::texts::site_of;
use case_files::{Case, CaseFault, Entry, difference, text_difference};
use cli_within::{Limits, exchange, read_words, status_of};
use desk_api::{ChannelKind, Desk, Site, found_channels};
use desk_core::SoloDesk;
use prog_source::make_ports;
use pva_outside::{FixedClock, MemoryPort, MemoryPorts, MemorySink};
use std::alloc::Global;
use std::str;

/// What the entries of the history may weigh together, where the case doesn't say it.
const JOURNAL: u64 = 268_435_456;

/// What an operation came to.
#[derive(Drop)]
struct Told {
    printed: Vec<u8>,
    status: u8,
}

/// Runs an operation with these words on this desk, at the moment of this clock.
fn told_by(
    alloc: Global,
    entry: Entry<'_>,
    desk: &mut SoloDesk<MemoryPort>,
    clock: &FixedClock,
) -> Result<Told, CaseFault> {
    let mut words = vec![in alloc;
        String::from_str(alloc, "--within")?,
        String::from_str(alloc, "X=0")?,
    ]?;
    for word in entry.words(alloc)? {
        words.push(word)?;
    }
    let words: Vec<&str> = words.iter().map(|word| word.as_str()).collect(alloc)?;
    let Ok(asked) = read_words(alloc, &words) else {
        return Err(CaseFault::At(entry.line, "a client doesn't take these words"));
    };
    let limits = Limits {
        idle: asked.idle,
        piece: asked.piece.max(1),
        turns: asked.turns,
    };
    let mut sink = MemorySink::new(alloc, Vec::new(alloc));
    let end = exchange(alloc, asked.ask, desk, clock, &mut sink, limits);
    Ok(Told {
        printed: Vec::from_slice(alloc, sink.written())?,
        status: status_of(end).number(),
    })
}

/// The numbers of the drives that fail, of each port.
fn failing(alloc: Global, case: &Case<'_>) -> Result<Vec<u64>, CaseFault> {
    match case.find("fails") {
        Some(entry) => entry.numbers(alloc),
        None => Ok(Vec::new(alloc)),
    }
}

/// The desk of a site.
fn desk_of(alloc: Global, case: &Case<'_>, site: Site) -> Result<SoloDesk<MemoryPort>, CaseFault> {
    let limit = match case.find("journal") {
        Some(entry) => entry.number()?,
        None => JOURNAL,
    };
    let mut maker = MemoryPorts::new(alloc, Vec::new(alloc), failing(alloc, case)?);
    let Ok(ports) = make_ports(alloc, &site, &mut maker) else {
        return Err(CaseFault::At(case.line, "a port can't be made"));
    };
    match SoloDesk::new(alloc, site, ports, limit) {
        Ok(desk) => Ok(desk),
        Err(_) => Err(CaseFault::NoMemory),
    }
}

/// The port of a record.
fn port_of<'a>(desk: &'a SoloDesk<MemoryPort>, name: &str) -> Option<&'a MemoryPort> {
    found_channels();
    let Some(channel) = desk.find(name) else {
        return None;
    };
    match channel.kind {
        ChannelKind::Rec => desk.port(channel.number as usize),
        ChannelKind::Desc | ChannelKind::Group | ChannelKind::Service => None,
    }
}

/// How often the port of a record was driven, and with what at last: `X 2 7`.
fn drives_of(
    alloc: Global,
    entry: Entry<'_>,
    desk: &SoloDesk<MemoryPort>,
) -> Result<Option<String>, CaseFault> {
    let name = entry.inner();
    let wanted = name.rest;
    let mut found = String::new(alloc);
    if let Some(port) = port_of(desk, name.key) {
        let last = str::from_utf8(port.last()).unwrap_or("?");
        write!(found, "{} {last}", port.drives())?;
    }
    Ok(text_difference(alloc, "drives", wanted, found.trim_end())?)
}

/// How many entries the history has.
fn entries_of(
    alloc: Global,
    entry: Entry<'_>,
    desk: &SoloDesk<MemoryPort>,
) -> Result<Option<String>, CaseFault> {
    let found = desk.entries().to_string(alloc)?;
    Ok(text_difference(alloc, "entries", entry.rest, &found)?)
}

/// The moment that an entry gives.
fn clock_of(alloc: Global, entry: Entry<'_>) -> Result<FixedClock, CaseFault> {
    let numbers = entry.numbers(alloc)?;
    match numbers.as_slice() {
        [seconds, nanoseconds] if *nanoseconds < 1_000_000_000 && *seconds < 1 << 62 => {
            Ok(FixedClock::new(*seconds as i64, *nanoseconds as u32))
        }
        _ => Err(CaseFault::At(entry.line, "this is no moment")),
    }
}

/// How what an operation came to differs from an entry.
fn differs_by(
    alloc: Global,
    case: &Case<'_>,
    entry: Entry<'_>,
    told: &Told,
) -> Result<Option<String>, CaseFault> {
    match entry.key {
        "prints" => {
            let expected = case.content(alloc, entry)?;
            Ok(difference(alloc, "what is printed", &expected, &told.printed)?)
        }
        "status" => {
            let found = told.status.to_string(alloc)?;
            Ok(text_difference(alloc, "status", entry.rest, &found)?)
        }
        _ => Ok(None),
    }
}

/// What a case has done to a desk so far.
#[derive(Drop)]
struct Course<'a> {
    desk: &'a mut SoloDesk<MemoryPort>,
    clock: FixedClock,
    last: Told,
}

/// Takes one entry of a case: an operation, a moment, or what is expected of the last operation.
fn step(
    alloc: Global,
    case: &Case<'_>,
    entry: Entry<'_>,
    course: &mut Course<'_>,
) -> Result<Option<String>, CaseFault> {
    match entry.key {
        "does" => {
            course.last = told_by(alloc, entry, course.desk, &course.clock)?;
            Ok(None)
        }
        "clock" => {
            course.clock = clock_of(alloc, entry)?;
            Ok(None)
        }
        "drives" => drives_of(alloc, entry, course.desk),
        "entries" => entries_of(alloc, entry, course.desk),
        _ => differs_by(alloc, case, entry, &course.last),
    }
}

/// How the operations of a case differ from what it says of them.
pub fn differs(alloc: Global, case: &Case<'_>, text: &str) -> Result<Option<String>, CaseFault> {
    if case.find("does").is_none() {
        return Ok(None);
    }
    let mut desk = desk_of(alloc, case, site_of(alloc, case, text)?)?;
    let mut course = Course {
        desk: &mut desk,
        clock: FixedClock::new(100, 5),
        last: Told {
            printed: Vec::new(alloc),
            status: 0,
        },
    };
    for entry in &case.entries {
        let told = step(alloc, case, *entry, &mut course)?;
        if told.is_some() {
            return Ok(told);
        }
    }
    Ok(None)
}
