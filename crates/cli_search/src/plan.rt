// How a search is made, and how it ends.
use pva_outside::Peer;

/// How a search is made.
#[derive(Clone, Copy, Debug, PartialEq, Eq)]
pub struct Plan {
    /// Where the searches go: a server, or a broadcast address.
    pub to: Peer,
    /// How many rounds there are, at least 1. In each the name is asked for once.
    pub rounds: u32,
    /// How often nothing comes in a round until it ends, at least 1.
    pub idle: u64,
    /// How many datagrams may be sent and calls be made to receive one, together.
    pub turns: u64,
}

/// How a search ended.
#[derive(Clone, Copy, Debug, PartialEq, Eq)]
pub enum Searched {
    /// A server told that it has the channel: where it is, and how many turns were made.
    Found(Peer, u64),
    /// None told so in all rounds.
    Unfound,
    /// The datagrams couldn't be bound, sent or received: their count of faults rose.
    Failed,
    /// All turns were made, and a further one was due.
    Spent,
    /// Memory ran out.
    NoMemory,
}
