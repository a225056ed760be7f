// Where a listener, or a socket for datagrams, is bound: what a call that binds it came to, and what one in memory keeps of it.
ghost use Rattle.std.specs.Prelude.{◌≡◌, ◌≢◌, Some, IsTrue};
ghost use Rattle.pva_outside.specs.Bindings.{Binds};
ghost use Rattle.pva_outside.specs.MemoryBindings.{memory_bindings, no_bindings};

use crate::Peer;
use crate::count::raise;
use std::alloc::Global;

/// What one call of `Listener::bind` or `Datagrams::bind` came to.
#[derive(Clone, Copy, Debug, PartialEq, Eq)]
pub enum BindStep {
    /// It is bound, and has this port: the one that was asked for, or at port 0 a free one.
    Bound(u16),
    /// It can't be bound there. The count of faults rose, and what was bound before still is.
    Failed,
    /// Memory ran out. Nothing was asked for and no count rose.
    NoMemory,
}

/// The port that an object in memory has where it is bound at port 0: the one that is registered for pvAccess (pvAccess
/// Protocol Specification, "Connection Management").
const FREE_PORT: u16 = 5075;

/// The port that an object in memory has where it was asked for this one.
fn port_for(asked: u16) -> u16
    ensures { asked ≢ 0 → result ≡ asked }
{
    if asked == 0 { FREE_PORT } else { asked }
}

/// The addresses that an object in memory was bound at.
#[derive(Drop)]
pub(crate) struct MemoryBindings {
    asked: Vec<Peer>,
    bound: Option<Peer>,
}

impl MemoryBindings {
    /// Nothing was asked for so far, and nothing is bound.
    pub(crate) fn new(alloc: Global) -> MemoryBindings
        ensures { memory_bindings result ≡ no_bindings }
    {
        MemoryBindings {
            asked: Vec::new(alloc),
            bound: None,
        }
    }

    /// The addresses that were asked for, in order.
    pub(crate) fn asked(&self) -> &[Peer]
        ensures { (memory_bindings self.now).asked ≡ result.now }
    {
        &self.asked
    }

    /// Binds it at this address, or fails and counts that.
    pub(crate) fn bind(&mut self, at: Peer, fails: bool, faults: &mut u64) -> BindStep
        ensures binds { Binds (Some (memory_bindings self.old)) (Some (memory_bindings self.new)) faults.old faults.new result at }
        ensures failed { result ≡ BindStep.Failed → IsTrue fails }
        ensures bound { (port : _) → result ≡ BindStep.Bound port → ¬ (IsTrue fails) }
    {
        let Ok(()) = self.asked.push(at) else {
            return BindStep::NoMemory;
        };
        if fails {
            raise(faults);
            return BindStep::Failed;
        }
        self.bound = Some(at);
        BindStep::Bound(port_for(at.port))
    }
}
