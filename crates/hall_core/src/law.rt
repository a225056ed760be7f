//! What a journal means for the cells and for the hub that keeps it.
ghost use Rattle.hall_core.specs.Meanings.{Meaning};

/// What cells and a hub are, and what the entries of a journal mean for them.
///
/// A law is never made: it is the type parameter of a `Floor`, and of the hall above it. All that it
/// says stands in its one ghost member `meaning`, with the two laws that each instance proves: after a
/// legal entry each cell outside its footprint shows what it showed before, and a mark that is true in
/// a history stays true in every history which that one begins. That an entry's legality depends on
/// the base and the entries before it alone is so by the type of `may_follow`.
pub trait Law {
    /// A cell. It may hold more than it shows.
    type Cell: Drop;

    /// The hub, which keeps the base and the journal.
    type Hub: Drop;

    /// One entry of the journal.
    type Entry;

    /// Plain data that the hub keeps and nothing changes. Clauses alone see it.
    type Base;

    /// What a cell shows. Clauses alone see it.
    type Shown;

    /// What one step of a seat found or did. Clauses alone see it.
    type Mark;

    /// A beginning or an ending that the hub's steps put into the roll. Clauses alone see it.
    type RollItem;

    ghost meaning: { Meaning Self.Cell Self.Hub Self.Entry Self.Base Self.Mark Self.RollItem Self.Shown };
}
