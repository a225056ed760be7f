//! A history, as contracts see it.
use std::collections::LinkedList;

/// What a seat adds to a history by one step.
pub enum Deed<E, R> {
    /// An entry.
    Entry(E),
    /// An item of the roll.
    Item(R),
}

/// A history: what it begins with, and what was added, in order, each with the number of the seat that added it.
///
/// Entries and roll are projections of the one list, so of two histories of which one begins the other the same holds of
/// their entries and of their rolls.
pub struct Story<B, E, R> {
    /// What it begins with, which never changes.
    pub base: B,
    /// What was added.
    pub deeds: LinkedList<(u64, Deed<E, R>)>,
}
