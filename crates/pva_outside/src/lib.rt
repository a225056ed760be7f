//! What the server and the client meet outside, as traits, with the adapters to the system and the
//! fakes in memory.
//!
//! Each object counts its faults, and a link also its idles and the ends of its input. A call answers
//! `Failed`, `Idle` or `End` only where that count rose in the call. An object in memory tells its
//! bytes to the contracts; one of the system tells none. A count never falls, and stands still at
//! 2^64 - 1.
#![tactic(auto)]

mod binding;
mod client_link;
mod clock;
mod count;
mod counted;
mod datagrams;
mod dialer;
mod file_ports;
mod files;
mod link;
mod listener;
mod memory;
mod memory_calls;
mod memory_datagrams;
mod memory_dialer;
mod memory_listener;
mod no_memory;
mod peer;
mod plain;
mod port;
mod ports;
mod refusal;
mod sink;
mod streams;
mod system_clock;
mod system_files;
mod world;

pub use binding::BindStep;
pub use client_link::{ClientLink, MemoryClient};
pub use clock::{Clock, FixedClock};
pub use count::raise;
pub use counted::raise_by;
pub use datagrams::{DatagramStep, Datagrams, SendStep};
pub use dialer::{DialStep, Dialer};
pub use file_ports::FilePorts;
pub use files::{FileStep, Files, MemoryFile, MemoryFiles};
pub use link::{Link, ReadStep, WriteStep};
pub use listener::{AcceptStep, Listener};
pub use memory::{MemoryLink, Turn};
pub use memory_datagrams::{Datagram, MemoryDatagrams, MemoryTraffic};
pub use memory_dialer::{MemoryDial, MemoryDialer, MemoryServer};
pub use memory_listener::MemoryListener;
pub use no_memory::NoMemory;
pub use peer::Peer;
pub use plain::PlainLink;
pub use port::{DriveStep, MemoryPort, Port, WriterPort};
pub use ports::{MemoryPorts, PortMaker, PortStep};
pub use refusal::{Refusal, refusal_of};
pub use sink::{MemorySink, Sink, SinkStep, StreamSink};
pub use streams::StreamLink;
pub use system_clock::SystemClock;
pub use system_files::SystemFiles;
pub use world::{Kinds, World};
