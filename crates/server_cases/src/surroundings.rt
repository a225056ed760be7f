// The world in memory that a case describes.
use crate::moments::{ListedClock, clock_of};
use case_files::{Case, CaseFault, Entry};
use pva_outside::{Kinds, MemoryFile, MemoryFiles, MemoryLink, MemoryPorts, MemorySink, World};
use std::alloc::Global;

/// The outside in memory.
pub struct Memory;

impl Kinds for Memory {
    type Link = MemoryLink;

    type Files = MemoryFiles;

    type Ports = MemoryPorts;

    type Sink = MemorySink;

    type Clock = ListedClock;
}

/// The calls of this kind that are to fail, of `fails KIND N ..`.
fn failing(alloc: Global, case: &Case<'_>, kind: &str) -> Result<Vec<u64>, CaseFault> {
    let mut calls = Vec::new(alloc);
    for entry in &case.entries {
        let fails = entry.inner();
        if entry.key == "fails" && fails.key == kind {
            calls.append(&mut fails.numbers(alloc)?)?;
        }
    }
    Ok(calls)
}

/// A file of `file NAME CONTENT`.
fn file_of(alloc: Global, case: &Case<'_>, entry: Entry<'_>) -> Result<MemoryFile, CaseFault> {
    let file = entry.inner();
    let bytes = case.bytes(alloc, file)?;
    let name = String::from_str(alloc, file.key)?;
    Ok(MemoryFile { name, bytes })
}

/// The files of a case.
fn files_of(alloc: Global, case: &Case<'_>) -> Result<Vec<MemoryFile>, CaseFault> {
    let mut files = Vec::new(alloc);
    for entry in &case.entries {
        if entry.key == "file" {
            files.push(file_of(alloc, case, *entry)?)?;
        }
    }
    Ok(files)
}

/// The link of a case, whose calls do this in turn.
fn link_of(
    alloc: Global,
    case: &Case<'_>,
    link: Option<Entry<'_>>,
) -> Result<MemoryLink, CaseFault> {
    let script = match link {
        Some(entry) => entry.script(alloc)?,
        None => Vec::new(alloc),
    };
    let input = case.input(alloc, "client")?;
    Ok(MemoryLink::new(alloc, input, script))
}

/// A world with nothing in it.
fn empty_world(alloc: Global, clock: ListedClock) -> World<Memory> {
    World {
        link: MemoryLink::new(alloc, Vec::new(alloc), Vec::new(alloc)),
        files: MemoryFiles::new(alloc, Vec::new(alloc), Vec::new(alloc)),
        ports: MemoryPorts::new(alloc, Vec::new(alloc), Vec::new(alloc)),
        sink: MemorySink::new(alloc, Vec::new(alloc)),
        clock,
    }
}

/// The world of a case, with a link whose calls do this in turn.
pub fn world_of(
    alloc: Global,
    case: &Case<'_>,
    link: Option<Entry<'_>>,
) -> Result<World<Memory>, CaseFault> {
    let mut world = empty_world(alloc, clock_of(alloc, case)?);
    world.link = link_of(alloc, case, link)?;
    world.files = MemoryFiles::new(alloc, files_of(alloc, case)?, failing(alloc, case, "read")?);
    world.ports = MemoryPorts::new(
        alloc,
        failing(alloc, case, "make")?,
        failing(alloc, case, "drive")?,
    );
    world.sink = MemorySink::new(alloc, failing(alloc, case, "print")?);
    Ok(world)
}
