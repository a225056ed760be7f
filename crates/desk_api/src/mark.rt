//! What the steps of a desk's calls find and do, as contracts see it. No value of these types is made.
use crate::channel::Channel;
use crate::history::Base;
use histories::Story;
use journal_core::Entry;
use mon_queue::Update;
use mon_shown::RollItem;
use pvd_type::BitSet;
use rec_kinds::{Action, RecState};
use std::collections::LinkedList;

/// What one step of a call found or did. Its place is the number of entries before it.
pub enum Mark {
    /// A get of a channel read these records, and found them in these states.
    Read {
        place: u64,
        channel: Channel,
        footprint: LinkedList<u32>,
        found: LinkedList<RecState>,
    },
    /// A put added this entry, and an atomic put-get then found these records in these states. A put alone looks at none.
    Entered {
        place: u64,
        entry: Entry,
        looked: LinkedList<u32>,
        found: LinkedList<RecState>,
    },
    /// An entry with this footprint and these actions would have been too heavy.
    Overweight {
        place: u64,
        footprint: LinkedList<u32>,
        actions: LinkedList<(u32, Action)>,
        /// What the entries before it weigh.
        kept: u64,
        /// What it weighs itself.
        weight: u64,
        /// What entries may weigh together.
        limit: u64,
    },
    /// A subscription of these leaves of a channel began in a slot, as the item of the roll with this number. Its queue holds at most so
    /// many updates.
    Begun {
        place: u64,
        index: u64,
        slot: u32,
        channel: Channel,
        mask: BitSet,
        size: u32,
    },
    /// No subscription began: behind so many items of the roll so many lived.
    Crowded {
        place: u64,
        index: u64,
        count: u32,
    },
    /// A pop of the subscription in a slot took this update, or found none unread.
    Popped {
        place: u64,
        slot: u32,
        update: Option<Update>,
    },
    /// The subscription in a slot ended, as the item of the roll with this number.
    Dropped {
        place: u64,
        index: u64,
        slot: u32,
    },
}

/// What a desk means to contracts.
pub struct Seat {
    /// The number by which the history names this seat.
    pub number: u64,
    /// The history that it has seen.
    pub seen: Story<Base, Entry, RollItem<Channel>>,
    /// The marks of its calls, in order.
    pub log: LinkedList<Mark>,
}
