// The files of the system.
ghost use Rattle.std.specs.Prelude.{◌≡◌};

use crate::count::raise;
use crate::files::MOST;
use crate::refusal::{Refusal, refusal_of};
use crate::{FileStep, Files};
use std::alloc::{AllocGlobal, Global};
use std::io::Read;
use std::{fs, io, rt};

/// The files of the system, by their paths. An error of kind `OutOfMemory` is `NoMemory`, and every other is a fault, a file of
/// more than 1,048,576 bytes too. They tell neither contents nor names.
#[derive(Drop)]
pub struct SystemFiles<R: rt::Files + Drop> {
    rt: R,
    faults: u64,
}

impl<R: rt::Files + Drop> SystemFiles<R> {
    ghost use Rattle.pva_outside.specs.SystemFiles.{system_files, new_system_files};

    /// The files of the runtime `rt`, with a count of 0.
    pub fn new(rt: R) -> SystemFiles<R>
        ensures { system_files result ≡ new_system_files }
    {
        SystemFiles { rt, faults: 0 }
    }

    /// Reads the bytes of a file, at most one more than it may have.
    fn begin(&self, alloc: Global, name: &str) -> io::Result<Vec<u8>> {
        let file = fs::open(&self.rt, name)?;
        let mut bytes = Vec::new(alloc);
        file.take(MOST as u64 + 1).read_to_end(&mut bytes)?;
        Ok(bytes)
    }
}

impl<R: rt::Files + Drop> Files for SystemFiles<R> {
    ghost use Rattle.pva_outside.specs.SystemFiles.{system_files};

    ghost files = { system_files };

    fn read(&mut self, alloc: Global, name: &str) -> FileStep {
        match self.begin(alloc, name) {
            Ok(bytes) if bytes.len() <= MOST => FileStep::Got(bytes),
            Ok(_) => {
                raise(&mut self.faults);
                FileStep::Failed
            }
            Err(error) => match refusal_of(&error) {
                Refusal::NoMemory => FileStep::NoMemory,
                Refusal::Idle | Refusal::Fault => {
                    raise(&mut self.faults);
                    FileStep::Failed
                }
            },
        }
    }
}
