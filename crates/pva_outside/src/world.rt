// The outside that a program is run in.
use crate::{Clock, Files, Link, PortMaker, Sink};

/// The kinds of link, files, ports, sink and clock that a program is run over: those of the system in `main`, those
/// in memory in a test.
pub trait Kinds {
    /// The connection that is served.
    type Link: Link + Drop;

    /// The files that it reads.
    type Files: Files + Drop;

    /// What makes the ports of output records.
    type Ports: PortMaker + Drop;

    /// Where the program prints.
    type Sink: Sink + Drop;

    /// The time of day. Threads may share it.
    type Clock: Clock + Drop + Sync;
}

/// All that a program meets outside. `main` makes it of the system's streams, files and clock, and hands it to
/// the program's `run`.
#[derive(Drop)]
pub struct World<W: Kinds> {
    /// The connection that is served.
    pub link: W::Link,
    /// The files that it reads.
    pub files: W::Files,
    /// What makes the ports of output records.
    pub ports: W::Ports,
    /// Where the program prints.
    pub sink: W::Sink,
    /// The time of day.
    pub clock: W::Clock,
}
