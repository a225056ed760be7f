// The world in memory that a case describes.
use case_files::{Case, CaseFault, Entry};
use pva_outside::{
    FixedClock, Kinds, MemoryFile, MemoryFiles, MemoryPorts, MemorySink, PlainLink, World,
};
use std::alloc::Global;

/// The outside in memory.
pub struct Memory;

impl Kinds for Memory {
    type Link = PlainLink;

    type Files = MemoryFiles;

    type Ports = MemoryPorts;

    type Sink = MemorySink;

    type Clock = FixedClock;
}

/// The calls of this kind that are to fail, of `fails KIND N ..`.
pub fn failing(alloc: Global, case: &Case<'_>, kind: &str) -> Result<Vec<u64>, CaseFault> {
    let mut calls = Vec::new(alloc);
    for entry in &case.entries {
        let fails = entry.inner();
        if entry.key == "fails" && fails.key == kind {
            calls.append(&mut fails.numbers(alloc)?)?;
        }
    }
    Ok(calls)
}

/// A file of `file NAME CONTENT`.
fn file_of(alloc: Global, case: &Case<'_>, entry: Entry<'_>) -> Result<MemoryFile, CaseFault> {
    let file = entry.inner();
    let bytes = case.bytes(alloc, file)?;
    let name = String::from_str(alloc, file.key)?;
    Ok(MemoryFile { name, bytes })
}

/// The files of a case.
fn files_of(alloc: Global, case: &Case<'_>) -> Result<Vec<MemoryFile>, CaseFault> {
    let mut files = Vec::new(alloc);
    for entry in &case.entries {
        if entry.key == "file" {
            files.push(file_of(alloc, case, *entry)?)?;
        }
    }
    Ok(files)
}

/// The files of a case, with the reads that are to fail.
fn memory_files(alloc: Global, case: &Case<'_>) -> Result<MemoryFiles, CaseFault> {
    let failing = failing(alloc, case, "read")?;
    let files = files_of(alloc, case)?;
    Ok(MemoryFiles::new(alloc, files, failing))
}

/// The ports of a case, with those that can't be made.
fn memory_ports(alloc: Global, case: &Case<'_>) -> Result<MemoryPorts, CaseFault> {
    let failing = failing(alloc, case, "make")?;
    Ok(MemoryPorts::new(alloc, failing, Vec::new(alloc)))
}

/// Where a case prints, with the prints that are to fail.
fn memory_sink(alloc: Global, case: &Case<'_>) -> Result<MemorySink, CaseFault> {
    let failing = failing(alloc, case, "print")?;
    Ok(MemorySink::new(alloc, failing))
}

/// The world of a case, at 100 seconds and 5 nanoseconds.
pub fn world_of(alloc: Global, case: &Case<'_>) -> Result<World<Memory>, CaseFault> {
    let files = memory_files(alloc, case)?;
    let ports = memory_ports(alloc, case)?;
    let sink = memory_sink(alloc, case)?;
    Ok(World {
        link: PlainLink::new(alloc, Vec::new(alloc)),
        files,
        ports,
        sink,
        clock: FixedClock::new(100, 5),
    })
}
