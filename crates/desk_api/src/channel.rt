// What a name of the site stands for.

/// What a channel shows.
#[derive(Clone, Copy, Debug, PartialEq, Eq)]
pub enum ChannelKind {
    /// One record.
    Rec,
    /// The description of a record: its field DESC, without an alarm.
    Desc,
    /// A group of records (QSRV manual, "Group PV definitions").
    Group,
    /// The service of the server, which the channel `server` asks. It has no values, and reads all records.
    Service,
}

/// A channel of a site.
#[derive(Clone, Copy, Debug, PartialEq, Eq)]
pub struct Channel {
    /// What it shows.
    pub kind: ChannelKind,
    /// The number of its record, or of its group, from 0; 0 of the service.
    pub number: u32,
}
