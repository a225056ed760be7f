use pvd_type::BitSet;

/// A beginning or an ending of a subscription, as contracts see it. No value of this type is made.
///
/// The roll of a history is the list of these in order, each with the number of its seat.
pub enum RollItem<C> {
    /// A subscription begins.
    Begins {
        /// The least slot that no living subscription had.
        slot: u32,
        channel: C,
        /// The leaves that it asks for.
        mask: BitSet,
        /// How many updates its queue may hold.
        size: u32,
    },
    /// The subscription of this slot ends.
    Ends {
        slot: u32,
    },
}
