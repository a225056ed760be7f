// Files by name: the trait, and the files in memory.
ghost use Rattle.std.specs.Prelude.{◌≡◌, ◌↔◌, ◌⊎◌, [], Some, None, Contains, IfOk, OnErr, OnOk, map, option_map};
ghost use Rattle.std.specs.String.{string_bytes};
ghost use Rattle.pva_outside.specs.Count.{RoseByOne};
ghost use Rattle.pva_outside.specs.Files.{FilesView, IsRead, Unreadable};
ghost use Rattle.pva_outside.specs.MemoryFiles.{contents_of};

use crate::count::raise;
use std::alloc::{AllocError, Global};

/// What one call of `Files::read` came to.
#[derive(Debug, Drop)]
pub enum FileStep {
    /// The bytes of the file.
    Got(Vec<u8>),
    /// No such file can be read, or it has too many bytes. The count of faults rose.
    Failed,
    /// Memory ran out. No name was asked for and no count rose.
    NoMemory,
}

/// How many bytes a file may have.
pub(crate) const MOST: usize = 1_048_576;

/// Files by name. Each has at most 1,048,576 bytes: a longer one counts as one that can't be read.
pub trait Files {
    /// What contracts see of them.
    ghost files: { Self → FilesView };

    /// Reads the whole file of this name.
    fn read(&mut self, alloc: Global, name: &str) -> FileStep
        ensures { IsRead (files self.old) (files self.new) result name.now };
}

/// A file in memory.
#[derive(Debug, Drop)]
pub struct MemoryFile {
    /// The name that it is read by.
    pub name: String,
    /// Its contents.
    pub bytes: Vec<u8>,
}

/// Files in memory. Of two of one name the first counts. A read fails where there is none of the name, where it has
/// more than 1,048,576 bytes, and at the calls that are to fail.
#[derive(Drop)]
pub struct MemoryFiles {
    files: Vec<MemoryFile>,
    asked: Vec<String>,
    calls: u64,
    failing: Vec<u64>,
    faults: u64,
}

/// The contents of the file of this name, of those given.
fn copy_of(alloc: Global, files: &[MemoryFile], name: &str) -> Result<Option<Vec<u8>>, AllocError>
    ensures { IfOk result (λ o. option_map (λ bytes. bytes.items) o ≡ contents_of files.now name.now) }
{
    match files.iter().find(|file| file.name.as_str() == name) {
        Some(file) => Ok(Some(Vec::from_slice(alloc, &file.bytes)?)),
        None => Ok(None),
    }
}

impl MemoryFiles {
    ghost use Rattle.pva_outside.specs.MemoryFiles.{memory_files, new_files, and_asked, files_calls, failing_reads};

    /// These files, with no name asked for and counts of 0. The calls with the numbers in `failing`, counted from 1, fail.
    pub fn new(alloc: Global, files: Vec<MemoryFile>, failing: Vec<u64>) -> MemoryFiles
        ensures files { memory_files result ≡ new_files files.items }
        ensures calls { files_calls result ≡ 0 }
        ensures failing { failing_reads result ≡ failing.items }
    {
        MemoryFiles {
            files,
            asked: Vec::new(alloc),
            calls: 0,
            failing,
            faults: 0,
        }
    }

    /// The names asked for, in order.
    pub fn asked(&self) -> &[String]
        ensures { (memory_files self.now).asked ≡ Some (map string_bytes result.now) }
    {
        &self.asked
    }

    /// Appends a name to those asked for.
    fn ask(&mut self, alloc: Global, name: &str) -> Result<(), AllocError>
        ensures ok { OnOk result (memory_files self.new ≡ and_asked (memory_files self.old) name.now) }
        ensures err { OnErr result (memory_files self.new ≡ memory_files self.old) }
        ensures calls { files_calls self.new ≡ files_calls self.old }
        ensures failing { failing_reads self.new ≡ failing_reads self.old }
    {
        let name = String::from_str(alloc, name)?;
        self.asked.push(name)?;
        Ok(())
    }
}

impl Files for MemoryFiles {
    ghost use Rattle.pva_outside.specs.MemoryFiles.{memory_files, files_calls, failing_reads};

    ghost files = { memory_files };

    fn read(&mut self, alloc: Global, name: &str) -> FileStep
        ensures step { IsRead (memory_files self.old) (memory_files self.new) result name.now }
        ensures counted { RoseByOne (files_calls self.old) (files_calls self.new) }
        ensures failing { failing_reads self.new ≡ failing_reads self.old }
        ensures fails { result ≡ FileStep.Failed → Contains (failing_reads self.old) (files_calls self.new) ⊎ Unreadable (contents_of self.old.files.items name.now) }
        ensures gives { (bytes : _) → result ≡ FileStep.Got bytes → ¬ (Contains (failing_reads self.old) (files_calls self.new)) }
    {
        raise(&mut self.calls);
        let Ok(found) = copy_of(alloc, &self.files, name) else {
            return FileStep::NoMemory;
        };
        let Ok(()) = self.ask(alloc, name) else {
            return FileStep::NoMemory;
        };
        if self.failing.contains(&self.calls) {
            raise(&mut self.faults);
            return FileStep::Failed;
        }
        match found {
            Some(bytes) if bytes.len() <= MOST => FileStep::Got(bytes),
            Some(_) | None => {
                raise(&mut self.faults);
                FileStep::Failed
            }
        }
    }
}
