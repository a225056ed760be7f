// Clients in memory, and the links to them.
ghost use Rattle.std.specs.Prelude.{◌≡◌, ◌<◌, Some, length};
ghost use Rattle.pva_outside.specs.ClientLink.{client_wire, IsMadeFor};
ghost use Rattle.pva_outside.specs.Wire.{Reads, Writes, Unchanged, Steadily};

use crate::{Link, MemoryLink, PlainLink, ReadStep, Turn, WriteStep};
use std::alloc::Global;

/// A client in memory, that will come to a `MemoryListener`.
#[derive(Drop)]
pub enum MemoryClient {
    /// Its link is a `PlainLink` with this input: it is always ready.
    Steady(Vec<u8>),
    /// Its link is a `MemoryLink` with this input, which follows this script.
    Scripted(Vec<u8>, Vec<Turn>),
}

impl MemoryClient {
    /// The link to this client.
    pub(crate) fn into_link(self, alloc: Global) -> ClientLink
        ensures { IsMadeFor self result }
    {
        match self {
            MemoryClient::Steady(input) => ClientLink::Plain(PlainLink::new(alloc, input)),
            MemoryClient::Scripted(input, script) => {
                ClientLink::Scripted(MemoryLink::new(alloc, input, script))
            }
        }
    }
}

/// The link to a client in memory.
#[derive(Drop)]
pub enum ClientLink {
    /// It is always ready.
    Plain(PlainLink),
    /// It follows a script.
    Scripted(MemoryLink),
}

impl ClientLink {
    /// The bytes written.
    pub fn written(&self) -> &[u8]
        ensures { (client_wire self.now).written ≡ Some result.now }
    {
        match self {
            ClientLink::Plain(link) => link.written(),
            ClientLink::Scripted(link) => link.written(),
        }
    }
}

impl Link for ClientLink {
    ghost wire = { client_wire };

    fn read(&mut self, buffer: &mut [u8]) -> ReadStep
        requires { 0 < length buffer.old }
        ensures step { Reads (client_wire self.old) (client_wire self.new) result buffer.new }
        ensures steady { Steadily (client_wire self.old) (client_wire self.new) }
    {
        match self {
            ClientLink::Plain(link) => link.read(buffer),
            ClientLink::Scripted(link) => link.read(buffer),
        }
    }

    fn write(&mut self, bytes: &[u8]) -> WriteStep
        requires { 0 < length bytes.now }
        ensures step { Writes (client_wire self.old) (client_wire self.new) result bytes.now }
        ensures steady { Steadily (client_wire self.old) (client_wire self.new) }
    {
        match self {
            ClientLink::Plain(link) => link.write(bytes),
            ClientLink::Scripted(link) => link.write(bytes),
        }
    }

    fn close(&mut self)
        ensures same { Unchanged (client_wire self.old) (client_wire self.new) }
        ensures steady { Steadily (client_wire self.old) (client_wire self.new) }
    {
        match self {
            ClientLink::Plain(link) => link.close(),
            ClientLink::Scripted(link) => link.close(),
        }
    }
}
