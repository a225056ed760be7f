// Ports that write to files of the system.
ghost use Rattle.std.specs.Prelude.{◌≡◌};
ghost use Rattle.pva_outside.specs.Makers.{IsMade};
ghost use Rattle.pva_outside.specs.WriterPort.{writer_port, new_writer_port};

use crate::count::raise;
use crate::refusal::{Refusal, refusal_of};
use crate::{PortMaker, PortStep, WriterPort};
use std::alloc::Global;
use std::fs::OpenOptions;
use std::{io, rt};

/// Makes ports that append to files of the system. The file is opened when its port is made, and made where it is missing. An
/// error of kind `OutOfMemory` is `NoMemory`, and every other is a fault. It tells no paths.
#[derive(Drop)]
pub struct FilePorts<R: rt::Files + Drop> {
    rt: R,
    faults: u64,
}

impl<R: rt::Files + Drop> FilePorts<R> {
    ghost use Rattle.pva_outside.specs.SystemFiles.{file_maker, new_file_maker};

    /// A maker over the files of the runtime `rt`, with a count of 0.
    pub fn new(rt: R) -> FilePorts<R>
        ensures { file_maker result ≡ new_file_maker }
    {
        FilePorts { rt, faults: 0 }
    }

    /// Opens a file for appending.
    fn append_to(&self, path: &str) -> io::Result<R::File> {
        OpenOptions::new()
            .append(true)
            .create(true)
            .open(&self.rt, path)
    }
}

impl<R: rt::Files + Drop> PortMaker for FilePorts<R>
where
    R::File: Send,
{
    type Port = WriterPort<R::File>;

    ghost use Rattle.pva_outside.specs.SystemFiles.{file_maker};

    ghost maker = { file_maker };

    fn make(&mut self, _alloc: Global, path: &str) -> PortStep<WriterPort<R::File>>
        ensures step { IsMade (file_maker self.old) (file_maker self.new) result path.now }
        ensures made { (p : _) → result ≡ PortStep.Made p → writer_port p ≡ new_writer_port }
    {
        match self.append_to(path) {
            Ok(file) => PortStep::Made(WriterPort::new(file)),
            Err(error) => match refusal_of(&error) {
                Refusal::NoMemory => PortStep::NoMemory,
                Refusal::Idle | Refusal::Fault => {
                    raise(&mut self.faults);
                    PortStep::Failed
                }
            },
        }
    }
}
