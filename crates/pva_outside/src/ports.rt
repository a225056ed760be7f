// What makes ports: the trait, and the ports in memory.
ghost use Rattle.std.specs.Prelude.{◌≡◌, ◌↔◌, Contains, OnErr, OnOk, Some, map};
ghost use Rattle.std.specs.String.{string_bytes};
ghost use Rattle.pva_outside.specs.Count.{RoseByOne};
ghost use Rattle.pva_outside.specs.Files.{one_more};
ghost use Rattle.pva_outside.specs.Makers.{MakerView, IsMade};
ghost use Rattle.pva_outside.specs.MemoryPort.{memory_port, new_port, failing_drives};

use crate::count::raise;
use crate::{MemoryPort, Port};
use std::alloc::{AllocError, Global};

/// What one call of `PortMaker::make` came to.
#[derive(Debug, Drop)]
pub enum PortStep<P> {
    /// A port for the path.
    Made(P),
    /// None can be made for it. The count of faults rose.
    Failed,
    /// Memory ran out. No path was asked for and no count rose.
    NoMemory,
}

/// What makes the ports of output records, each from the path that the record's OUT names (EPICS record reference, "OUT").
pub trait PortMaker {
    /// The ports that it makes. One may be moved to another thread.
    type Port: Port + Drop + Send;

    /// What contracts see of it.
    ghost maker: { Self → MakerView };

    /// Makes a port for this path.
    fn make(&mut self, alloc: Global, path: &str) -> PortStep<Self::Port>
        ensures { IsMade (maker self.old) (maker self.new) result path.now };
}

/// Makes ports in memory, but at the calls that are to fail.
#[derive(Drop)]
pub struct MemoryPorts {
    asked: Vec<String>,
    calls: u64,
    failing: Vec<u64>,
    drives: Vec<u64>,
    faults: u64,
}

impl MemoryPorts {
    ghost use Rattle.pva_outside.specs.MemoryPorts.{memory_maker, new_maker, maker_calls, failing_makes, drives_to_fail};

    /// A maker that was asked for nothing, with counts of 0. The calls with the numbers in `failing`, counted from 1, fail, and
    /// so do the drives of each port with the numbers in `drives`.
    pub fn new(alloc: Global, failing: Vec<u64>, drives: Vec<u64>) -> MemoryPorts
        ensures maker { memory_maker result ≡ new_maker }
        ensures calls { maker_calls result ≡ 0 }
        ensures failing { failing_makes result ≡ failing.items }
        ensures drives { drives_to_fail result ≡ drives.items }
    {
        MemoryPorts {
            asked: Vec::new(alloc),
            calls: 0,
            failing,
            drives,
            faults: 0,
        }
    }

    /// The paths asked for, in order.
    pub fn asked(&self) -> &[String]
        ensures { (memory_maker self.now).asked ≡ Some (map string_bytes result.now) }
    {
        &self.asked
    }

    /// Appends a path to those asked for.
    fn ask(&mut self, alloc: Global, path: &str) -> Result<(), AllocError>
        ensures ok { OnOk result (memory_maker self.new ≡ record (memory_maker self.old) { asked = one_more (memory_maker self.old).asked path.now }) }
        ensures err { OnErr result (memory_maker self.new ≡ memory_maker self.old) }
        ensures calls { maker_calls self.new ≡ maker_calls self.old }
        ensures failing { failing_makes self.new ≡ failing_makes self.old }
        ensures drives { drives_to_fail self.new ≡ drives_to_fail self.old }
    {
        let path = String::from_str(alloc, path)?;
        self.asked.push(path)?;
        Ok(())
    }
}

impl PortMaker for MemoryPorts {
    type Port = MemoryPort;

    ghost use Rattle.pva_outside.specs.MemoryPorts.{memory_maker, maker_calls, failing_makes, drives_to_fail};

    ghost maker = { memory_maker };

    fn make(&mut self, alloc: Global, path: &str) -> PortStep<MemoryPort>
        ensures step { IsMade (memory_maker self.old) (memory_maker self.new) result path.now }
        ensures counted { RoseByOne (maker_calls self.old) (maker_calls self.new) }
        ensures failing { failing_makes self.new ≡ failing_makes self.old }
        ensures drives { drives_to_fail self.new ≡ drives_to_fail self.old }
        ensures fails { result ≡ PortStep.Failed → Contains (failing_makes self.old) (maker_calls self.new) }
        ensures made { (p : _) → result ≡ PortStep.Made p → (memory_port p ≡ new_port) × (failing_drives p ≡ drives_to_fail self.old) × ¬ (Contains (failing_makes self.old) (maker_calls self.new)) }
    {
        raise(&mut self.calls);
        let Ok(drives) = Vec::from_slice(alloc, &self.drives) else {
            return PortStep::NoMemory;
        };
        let Ok(()) = self.ask(alloc, path) else {
            return PortStep::NoMemory;
        };
        if self.failing.contains(&self.calls) {
            raise(&mut self.faults);
            return PortStep::Failed;
        }
        PortStep::Made(MemoryPort::new(drives))
    }
}
