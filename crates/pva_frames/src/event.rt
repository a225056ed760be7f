ghost use Rattle.std.specs.Prelude.{◌≡◌};

use crate::fault::FrameFault;
use pva_wire::Order;
use std::marker::Model;

/// The bytes of a payload, seen as their list.
#[derive(Drop)]
pub struct Payload {
    bytes: Vec<u8>,
}

impl Model for Payload {
    ghost use Rattle.std.specs.Prelude.{ℕ, List};

    ghost Value = { List ℕ };

    ghost view = { λ payload. payload.bytes.items };
}

impl Payload {
    /// A payload of these bytes. It takes no memory.
    pub fn of(bytes: Vec<u8>) -> Payload
        ensures { result ≡ bytes.items }
    {
        Payload { bytes }
    }

    /// The bytes.
    pub fn as_slice(&self) -> &[u8]
        ensures { result.now ≡ self.now }
    {
        self.bytes.as_slice()
    }

    /// Gives the bytes back. It takes no memory.
    pub fn into_vec(self) -> Vec<u8>
        ensures { result.items ≡ self }
    {
        self.bytes
    }
}

/// A whole application message.
#[derive(Drop)]
pub struct Whole {
    /// The order of its first header, in which its payload is read.
    pub order: Order,
    /// The command of its frames.
    pub command: u8,
    /// The payloads of its frames, joined.
    pub payload: Payload,
    /// The place of its first header in the stream.
    pub place: u64,
}

/// A whole application message whose payload still stands in the piece that brought it.
#[derive(Clone, Copy)]
pub struct Lent<'a> {
    /// The order of its header, in which its payload is read.
    pub order: Order,
    /// The command of its frame.
    pub command: u8,
    /// The bytes behind its header.
    pub payload: &'a [u8],
    /// The place of its header in the stream.
    pub place: u64,
}

/// What a stream brings.
#[derive(Drop)]
pub enum Event {
    /// An application message.
    Message(Whole),
    /// A control message.
    Control { command: u8, number: u32 },
}

/// What an assembler has next.
#[derive(Drop)]
pub enum Next {
    /// The next event.
    Event(Event),
    /// The first header that is refused. Nothing follows it.
    Fault(FrameFault),
    /// Further bytes are wanted.
    More,
}
