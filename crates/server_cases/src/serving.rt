// Why a connection ends, and how many entries its history has behind it.
use crate::surroundings::{Memory, world_of};
use case_files::{Case, CaseFault, Entry, text_difference};
use desk_api::{Site, is_record_name};
use desk_core::SoloDesk;
use prog_server::{Asked, read_words};
use prog_source::{Source, make_ports, read_site};
use pva_outside::{MemoryFiles, World};
use pvd_type::Name;
use srv_stream::serve_connection;
use std::alloc::Global;

/// How a connection ended, and how many entries its history has.
#[derive(Drop)]
struct Served {
    ended: String,
    entries: u64,
}

/// Serves the link of a world from a desk of this site. None where no desk can be had.
fn serve_site(
    alloc: Global,
    asked: &Asked<'_>,
    site: Site,
    world: &mut World<Memory>,
) -> Result<Option<Served>, CaseFault> {
    let Ok(ports) = make_ports(alloc, &site, &mut world.ports) else {
        return Ok(None);
    };
    let Ok(mut desk) = SoloDesk::new(alloc, site, ports, asked.journal) else {
        return Err(CaseFault::NoMemory);
    };
    let ended = serve_connection(
        alloc,
        &mut desk,
        &mut world.link,
        &world.clock,
        asked.order,
        asked.turns,
    );
    let entries = desk.entries();
    let ended = format!(in alloc; "{ended:?}")?;
    Ok(Some(Served { ended, entries }))
}

/// The site of one record.
fn single_of(alloc: Global, name: &str, value: i32) -> Option<Site> {
    if !is_record_name(name) {
        return None;
    }
    match Site::single(alloc, name, value) {
        Ok(site) => Some(site),
        Err(_) => None,
    }
}

/// The site of a source. None where it has none.
fn site_of(
    alloc: Global,
    source: Source<'_>,
    macros: &[(Name, Name)],
    files: &mut MemoryFiles,
) -> Option<Site> {
    match source {
        Source::Record(name, value) => single_of(alloc, name, value),
        Source::File(name) => match read_site(alloc, Source::File(name), macros, files) {
            Ok(site) => Some(site),
            Err(_) => None,
        },
    }
}

/// Serves the link of a world as these words say. None where they ask for something else, or their source can't be served.
fn serve_words(
    alloc: Global,
    words: &[&str],
    world: &mut World<Memory>,
) -> Result<Option<Served>, CaseFault> {
    let Ok(asked) = read_words(alloc, words) else {
        return Ok(None);
    };
    let Some(source) = asked.source else {
        return Ok(None);
    };
    let Some(site) = site_of(alloc, source, &asked.macros, &mut world.files) else {
        return Ok(None);
    };
    serve_site(alloc, &asked, site, world)
}

/// Whether a connection ended otherwise than expected, or its history has other entries.
fn served_differs(
    alloc: Global,
    case: &Case<'_>,
    served: &Served,
) -> Result<Option<String>, CaseFault> {
    if let Some(entry) = case.find("ended") {
        let told = text_difference(alloc, "ended", entry.rest, &served.ended)?;
        if told.is_some() {
            return Ok(told);
        }
    }
    let Some(entry) = case.find("entries") else {
        return Ok(None);
    };
    let found = served.entries.to_string(alloc)?;
    Ok(text_difference(alloc, "entries", entry.rest, &found)?)
}

/// Where serving comes to something else than is expected, in a case that looks behind the exit status: to why the connection ended, and to
/// the entries of its history.
pub fn serving_differs(
    alloc: Global,
    case: &Case<'_>,
    words: &[&str],
    link: Option<Entry<'_>>,
) -> Result<Option<String>, CaseFault> {
    if case.find("ended").is_none() && case.find("entries").is_none() {
        return Ok(None);
    }
    let mut world = world_of(alloc, case, link)?;
    match serve_words(alloc, words, &mut world)? {
        Some(served) => served_differs(alloc, case, &served),
        None => Err(CaseFault::At(case.line, "nothing is served here")),
    }
}
