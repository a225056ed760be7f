// What puts answer.
use rec_kinds::PutRefusal;

/// What a put that was done tells.
#[derive(Clone, Copy, Debug, PartialEq, Eq)]
pub struct Done {
    /// The place of its first entry.
    pub first: u64,
    /// The number of its entries.
    pub count: u32,
}

/// Why a put was not done.
#[derive(Clone, Copy, Debug, PartialEq, Eq)]
pub enum PutAnswer {
    /// The channel doesn't take it. Nothing was changed.
    Refused(PutRefusal),
    /// The history would be above its limit.
    JournalFull {
        /// What its entries weigh.
        kept: u64,
        /// What the entry of the put weighs.
        entry: u64,
        /// What the entries may weigh together.
        limit: u64,
        /// The number of entries that the put had added before.
        done: u32,
    },
    /// Memory ran out.
    NoMemory {
        /// The number of entries that the put had added before.
        done: u32,
    },
}
