// The outside of a server, in memory.
use prog_listen::Network;
use pva_outside::{
    Datagram, FixedClock, Kinds, MemoryClient, MemoryDatagrams, MemoryFile, MemoryFiles,
    MemoryListener, MemoryPorts, MemorySink, Peer, PlainLink, World,
};
use std::alloc::{AllocError, Global};
use std::collections::VecDeque;

/// The client is validated, opens the channel X, and ends.
const CLIENT: &[u8] =
    b"\xCA\x02\x00\x01\x13\x00\x00\x00\x00\x00\x01\x00\x00\x00\x00\x00\x09anonymous\xFF\
      \xCA\x02\x00\x07\x08\x00\x00\x00\x01\x00\x01\x00\x00\x00\x01X";

/// What it is answered.
pub(crate) const OPENED: &[u8] =
    b"\xCA\x02\x41\x02\x00\x00\x00\x00\xCA\x02\x40\x01\x14\x00\x00\x00\x00\x00\x01\x00\xFF\x7F\x02\x09anonymous\x02ca\
      \xCA\x02\x40\x09\x01\x00\x00\x00\xFF\
      \xCA\x02\x40\x07\x09\x00\x00\x00\x01\x00\x00\x00\x00\x00\x00\x00\xFF";

/// A search for X with number 9 and sequence 1, for TCP, to be answered at port 5,076.
const SEARCH: [u8; 47] = [
    0xCA, 2, 0, 3, 0x27, 0, 0, 0, 1, 0, 0, 0, 0x80, 0, 0, 0, 0, 0, 0, 0, 0, 0, 0, 0, 0, 0, 0, 0, 0,
    0, 0, 0, 0xD4, 0x13, 1, 3, b't', b'c', b'p', 1, 0, 9, 0, 0, 0, 1, b'X',
];

/// 10.0.0.7, where searches come from, at this port.
pub(crate) fn client_at(port: u16) -> Peer {
    Peer {
        address: [0, 0, 0, 0, 0, 0, 0, 0, 0, 0, 255, 255, 10, 0, 0, 7],
        port,
    }
}

/// The kinds of what is met in memory.
pub(crate) struct Memory;

impl Kinds for Memory {
    type Link = PlainLink;

    type Files = MemoryFiles;

    type Ports = MemoryPorts;

    type Sink = MemorySink;

    type Clock = FixedClock;
}

/// All that a server meets outside.
#[derive(Drop)]
pub(crate) struct Outside {
    pub(crate) world: World<Memory>,
    pub(crate) network: Network<MemoryListener, MemoryDatagrams>,
}

/// The numbers of the calls that fail, of each part of the outside.
#[derive(Clone, Copy)]
pub(crate) struct Failing<'a> {
    pub(crate) prints: &'a [u64],
    pub(crate) listener: &'a [u64],
    pub(crate) datagrams: &'a [u64],
}

/// No call fails.
pub(crate) const NOTHING_FAILS: Failing<'static> = Failing {
    prints: &[],
    listener: &[],
    datagrams: &[],
};

/// Lets a value go.
pub(crate) fn discard<T: Drop>(_value: T) {}

/// A file whose text is at fault.
fn wrong_file(alloc: Global) -> Result<MemoryFile, AllocError> {
    let name = String::from_str(alloc, "wrong.db")?;
    let bytes = Vec::from_slice(alloc, b"record(ai, \"X\") {}")?;
    Ok(MemoryFile { name, bytes })
}

/// Nothing but the file whose text is at fault; these prints fail.
fn world(alloc: Global, prints: &[u64]) -> Result<World<Memory>, AllocError> {
    let prints = Vec::from_slice(alloc, prints)?;
    let files = vec![in alloc; wrong_file(alloc)?]?;
    Ok(World {
        link: PlainLink::new(alloc, Vec::new(alloc)),
        files: MemoryFiles::new(alloc, files, Vec::new(alloc)),
        ports: MemoryPorts::new(alloc, Vec::new(alloc), Vec::new(alloc)),
        sink: MemorySink::new(alloc, prints),
        clock: FixedClock::new(100, 5),
    })
}

/// The client, behind those who come before it.
fn with_client(
    alloc: Global,
    coming: VecDeque<Option<MemoryClient>>,
) -> Result<VecDeque<Option<MemoryClient>>, AllocError> {
    let mut coming = coming;
    let sends = Vec::from_slice(alloc, CLIENT)?;
    coming.push_back(Some(MemoryClient::Steady(sends)))?;
    Ok(coming)
}

/// A listener to which nobody comes at first, and then the client two times.
fn listener(alloc: Global, failing: &[u64]) -> Result<MemoryListener, AllocError> {
    let failing = Vec::from_slice(alloc, failing)?;
    let mut coming = VecDeque::new(alloc);
    coming.push_back(None)?;
    let coming = with_client(alloc, with_client(alloc, coming)?)?;
    Ok(MemoryListener::new(alloc, coming, failing))
}

/// Datagrams of which the search comes.
fn datagrams(alloc: Global, failing: &[u64]) -> Result<MemoryDatagrams, AllocError> {
    let failing = Vec::from_slice(alloc, failing)?;
    let bytes = Vec::from_slice(alloc, &SEARCH)?;
    let mut coming = VecDeque::new(alloc);
    coming.push_back(Some(Datagram {
        bytes,
        from: client_at(40_000),
    }))?;
    Ok(MemoryDatagrams::new(alloc, coming, failing))
}

/// What reaches the network, to which the search and then two clients come.
fn network(
    alloc: Global,
    failing: Failing<'_>,
) -> Result<Network<MemoryListener, MemoryDatagrams>, AllocError> {
    let listener = listener(alloc, failing.listener)?;
    let datagrams = datagrams(alloc, failing.datagrams)?;
    Ok(Network {
        listener,
        datagrams,
    })
}

impl Outside {
    /// The outside of which these calls fail.
    pub(crate) fn new(alloc: Global, failing: Failing<'_>) -> Result<Outside, AllocError> {
        let world = world(alloc, failing.prints)?;
        match network(alloc, failing) {
            Ok(network) => Ok(Outside { world, network }),
            Err(no_memory) => {
                discard(world);
                Err(no_memory)
            }
        }
    }

    /// What was written to the link that was taken back in this place; nothing where none was.
    pub(crate) fn written_to(&self, place: usize) -> &[u8] {
        match self.network.listener.back().get(place) {
            Some(link) => link.written(),
            None => &[],
        }
    }
}
